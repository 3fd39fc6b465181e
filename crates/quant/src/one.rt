// One coefficient over a divisor, by the two high multiplies of `fdct_quant_zig` (dct.rs).
ghost use Rattle.std.specs.Prelude.{◌≡◌, ◌<◌, nat_abs};
ghost use Rattle.tables.specs.Reciprocal.{high_half, two_high};
ghost use Rattle.quant.specs.one.Sign.{with_sign};

// The magnitude of x: 32768 for -32768.
#[tactic(auto, using(crate::proofs::one::Signs::abs_bits))]
pub fn magnitude(x: i16) -> u16
    ensures { result ≡ nat_abs x }
{
    scalar::bits16(scalar::abs1(x)) as u16
}

// The high 16 bits of a product (_mm_mulhi_epu16).
pub fn mulhi_u(a: u16, b: u16) -> u16
    ensures { result ≡ high_half a b }
{
    ((a as u32 * b as u32) >> 16) as u16
}

// A magnitude with the sign of x.
#[tactic(auto, using(crate::proofs::one::Signs::with_sign_neg, crate::proofs::one::Signs::with_sign_pos, crate::proofs::one::Signs::neg_small))]
pub fn with_sign(x: i16, m: u16) -> i16
    requires { m < 32768 }
    ensures { result ≡ with_sign x m }
{
    let v = m as i16;
    if x < 0 { 0 - v } else { v }
}

// x over a divisor, rounded, by the divisor's correction, reciprocal and scale.
pub fn quant1(x: i16, c: u16, r: u16, s: u16) -> i16
    requires { (c < 32768) × (two_high c r s (nat_abs x) < 32768) }
    ensures { result ≡ with_sign x (two_high c r s (nat_abs x)) }
{
    let m = magnitude(x) + c;
    with_sign(x, mulhi_u(mulhi_u(m, r), s))
}
