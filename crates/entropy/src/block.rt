// The entropy coder of one block (the inner part of encode_plane, slice.rs): its step in the DC stream. Its places in the AC stream
// are in the module coder.
ghost use Rattle.std.specs.Prelude.{◌≡◌, ◌≤◌, pos, nat_abs, length};
ghost use Rattle.ask.specs.Limits.{shift_max};
ghost use Rattle.bits.specs.Signed.{code_of};
ghost use Rattle.calls.specs.Streams.{half_step, coded_dc, step_code};
ghost use Rattle.bitwriter.specs.Put.{Room, Put};

use bitwriter::BitAcc;

// A writer of the AC stream, and how many zeros wait to be coded as a run.
#[derive(Clone, Copy, Debug, PartialEq, Eq, Hash)]
pub struct AcState {
    pub a: BitAcc,
    pub run: u32,
}

// Half a step of 2 to the power of the shift, none at shift 0.
#[tactic(auto, using(crate::proofs::block::Codes::half_is))]
fn half_step(shift: u32) -> i16
    requires { shift ≤ shift_max }
    ensures { result ≡ pos (half_step shift) }
{
    if shift == 0 {
        0
    } else {
        scalar::sll16(1, shift - 1)
    }
}

// The DC as it is coded: rounded and shifted right.
#[tactic(auto, unfolding(calls::specs::Streams::coded_dc))]
pub fn coded_dc(d: i16, shift: u32) -> i16
    requires { shift ≤ shift_max }
    ensures { result ≡ coded_dc shift d }
{
    scalar::sra16(scalar::add1(d, half_step(shift)), shift)
}

// Appends a DC step: `11` for 0, else its value code.
#[tactic(auto, using(crate::proofs::block::Codes::zero_step_lem, crate::proofs::block::Codes::value_step, crate::proofs::block::Codes::room_by, crate::proofs::block::Codes::put_by, crate::proofs::block::Codes::code_step, crate::proofs::block::Codes::code_some))]
pub fn dc_block(a: BitAcc, step: i32, out: &mut [u8]) -> BitAcc
    requires { (nat_abs step ≤ 4096) × Room a (length (step_code step)) out.old }
    ensures { Put a out.old (step_code step) result out.new }
{
    if step == 0 {
        bitwriter::put(a, 3, 2, out)
    } else {
        bitwriter::put_value(a, bits::to_code(step), out)
    }
}

// The code of a coefficient.
#[tactic(auto, using(crate::proofs::block::Codes::code_16))]
pub fn code(v: i16) -> u32
    ensures { result ≡ code_of v }
{
    bits::to_code(v as i32)
}
