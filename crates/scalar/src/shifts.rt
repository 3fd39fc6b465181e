// Shifts of one lane, and the bits of two (lanes.rs).
// a and b are the two operands of one operation: a struct of both would be made for each call and taken apart in it.
// n < 16 and n < 32 are what << and >> ask of their count: a type that holds it would be opened again at each of them.
// sra16 and sra32 are one operator at two types: a trait in their place would have two impls with these two bodies.
ghost use Rattle.std.specs.Prelude.{◌≡◌, ◌<◌};
ghost use Rattle.scalar.specs.shifts.Bits.{sra_of, sll_of, or_of};

// a shifted right by n; rounds down.
#[tactic(auto, using(crate::proofs::cuts::Widths::shr_fits), unfolding(crate::specs::shifts::Bits::sra_of))]
pub fn sra16(a: i16, n: u32) -> i16
    requires { n < 16 }
    ensures { result ≡ sra_of a n }
{
    a >> n
}

// a shifted left by n; the bits above drop.
#[tactic(auto, unfolding(crate::specs::shifts::Bits::sll_of))]
pub fn sll16(a: i16, n: u32) -> i16
    requires { n < 16 }
    ensures { result ≡ sll_of a n }
{
    a << n
}

// The bits of both.
#[tactic(auto, unfolding(crate::specs::shifts::Bits::or_of))]
pub fn or1(a: i16, b: i16) -> i16
    ensures { result ≡ or_of a b }
{
    a | b
}

// a shifted right by n; rounds down.
#[tactic(auto, using(crate::proofs::cuts::Widths::shr_fits), unfolding(crate::specs::shifts::Bits::sra_of))]
pub fn sra32(a: i32, n: u32) -> i32
    requires { n < 32 }
    ensures { result ≡ sra_of a n }
{
    a >> n
}
