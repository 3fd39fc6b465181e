// Bits and symbols of the slice streams (bits.rs): definitions and laws. The writer is the crate bitwriter, the reader bitreader.
#![tactic(auto)]

ghost use Rattle.std.specs.Prelude.{◌≡◌, ◌^◌, ◌<◌};
ghost use Rattle.bits.specs.Bits.{bit_length};
ghost use Rattle.bits.specs.Signed.{code_of};

// How many binary digits c has.
#[tactic(auto, using(crate::proofs::Leading::length_is))]
pub fn bit_len(c: u32) -> u32
    ensures { result ≡ bit_length c }
{
    u32::BITS - c.leading_zeros()
}

// The code of a signed number: 2v + 1 above 0, else -2v.
#[tactic(auto, using(crate::proofs::SignedBack::code_parts))]
pub fn to_code(v: i32) -> u32
    requires { code_of v < 2 ^ 32 }
    ensures { result ≡ code_of v }
{
    2 * v.unsigned_abs() + u32::from(v > 0)
}
