// Sums and differences of one lane of 16 bits (lanes.rs): exact, saturated, wrapped.
// a and b are the two operands of one operation: a struct of both would be made for each call and taken apart in it.
// adds1 and subs1 saturate a sum of 32 bits, which the compiler makes one instruction of for eight lanes. By std's saturating_add and
// saturating_sub, which compare signs, it does not: coding a smooth 8-bit plane takes 1,118,939 instructions in place of 348,087.
ghost use Rattle.std.specs.Prelude.{◌≡◌, ◌+ℤ◌, ◌-ℤ◌};
ghost use Rattle.scalar.specs.sums.Sums.{adds_of, subs_of, add_of};

use crate::cuts::sat;

// The sum, which needs 17 bits.
pub fn sum16(a: i16, b: i16) -> i32
    ensures { result ≡ a +ℤ b }
{
    i32::from(a) + i32::from(b)
}

// The difference, which needs 17 bits.
pub fn diff16(a: i16, b: i16) -> i32
    ensures { result ≡ a -ℤ b }
{
    i32::from(a) - i32::from(b)
}

// The sum, saturated.
#[tactic(auto, unfolding(crate::specs::sums::Sums::adds_of))]
pub fn adds1(a: i16, b: i16) -> i16
    ensures { result ≡ adds_of a b }
{
    sat(sum16(a, b))
}

// The difference, saturated.
#[tactic(auto, unfolding(crate::specs::sums::Sums::subs_of))]
pub fn subs1(a: i16, b: i16) -> i16
    ensures { result ≡ subs_of a b }
{
    sat(diff16(a, b))
}

// The sum, wrapped.
#[tactic(auto, using(crate::proofs::Methods::add_is))]
pub fn add1(a: i16, b: i16) -> i16
    ensures { result ≡ add_of a b }
{
    a.wrapping_add(b)
}
