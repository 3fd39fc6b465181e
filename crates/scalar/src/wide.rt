// Sums and differences of one lane of 32 bits (lanes.rs), and two products added.
// a and b are the two operands of one operation: a struct of both would be made for each call and taken apart in it.
ghost use Rattle.std.specs.Prelude.{◌≡◌, ◌+ℤ◌, ◌-ℤ◌};
ghost use Rattle.scalar.specs.wide.Wide.{add32_of, sub32_of, madd_of};

use crate::products::mul16;

// The sum, which needs 33 bits.
pub fn sum32(a: i32, b: i32) -> i64
    ensures { result ≡ a +ℤ b }
{
    i64::from(a) + i64::from(b)
}

// The difference, which needs 33 bits.
pub fn diff32(a: i32, b: i32) -> i64
    ensures { result ≡ a -ℤ b }
{
    i64::from(a) - i64::from(b)
}

// The sum of 32 bits, wrapped.
#[tactic(auto, using(crate::proofs::Methods::add32_is))]
pub fn add32(a: i32, b: i32) -> i32
    ensures { result ≡ add32_of a b }
{
    a.wrapping_add(b)
}

// The difference of 32 bits, wrapped.
#[tactic(auto, using(crate::proofs::Methods::sub32_is))]
pub fn sub32(a: i32, b: i32) -> i32
    ensures { result ≡ sub32_of a b }
{
    a.wrapping_sub(b)
}

// a * b + c * d, wrapped at 32 bits.
#[tactic(auto, using(crate::proofs::Methods::madd_is))]
pub fn madd1(a: i16, b: i16, c: i16, d: i16) -> i32
    ensures { result ≡ madd_of a b c d }
{
    mul16(a, b).wrapping_add(mul16(c, d))
}
