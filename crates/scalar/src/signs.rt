// The sign of one lane of 16 bits (lanes.rs), and the lesser and the greater of two.
// a and b are the two operands of one operation: a struct of both would be made for each call and taken apart in it.
ghost use Rattle.std.specs.Prelude.{◌≡◌, neg_ℤ};
ghost use Rattle.scalar.specs.signs.Signs.{abs_of, sign_of, min_of, max_of};

// -x, which needs 17 bits for -32768.
pub fn neg(x: i16) -> i32
    ensures { result ≡ neg_ℤ x }
{
    -i32::from(x)
}

// The magnitude; that of -32768 wraps to itself.
#[tactic(auto, using(crate::proofs::Methods::abs_is))]
pub fn abs1(x: i16) -> i16
    ensures { result ≡ abs_of x }
{
    x.wrapping_abs()
}

// x with the sign of s, 0 where s is 0.
#[tactic(auto, using(crate::proofs::Methods::sign_neg, crate::proofs::Methods::sign_zero, crate::proofs::Methods::sign_pos))]
pub fn sign1(x: i16, s: i16) -> i16
    ensures { result ≡ sign_of x s }
{
    if s < 0 {
        x.wrapping_neg()
    } else if s == 0 {
        0
    } else {
        x
    }
}

// The lesser.
#[tactic(auto, using(crate::proofs::Methods::min_is))]
pub fn min1(a: i16, b: i16) -> i16
    ensures { result ≡ min_of a b }
{
    a.min(b)
}

// The greater.
#[tactic(auto, using(crate::proofs::Methods::max_is))]
pub fn max1(a: i16, b: i16) -> i16
    ensures { result ≡ max_of a b }
{
    a.max(b)
}
