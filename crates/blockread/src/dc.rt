// A block's DC by its code, and the preview's byte of it (slice.rs).
ghost use Rattle.std.specs.Prelude.{◌≡◌, ◌<◌};
ghost use Rattle.std.specs.Int.{w16};
ghost use Rattle.std.proofs.Common.{of_z};
ghost use Rattle.scalar.specs.Scalar.{add_of};
ghost use Rattle.calls.specs.ReadPlane.{settle};
ghost use Rattle.blockread.specs.dc.Steps.{byte_of};
ghost use Rattle.acread.specs.through.Codes.{step_of};

// The 16 bits of x.
fn word(x: i16) -> u16
    ensures { result ≡ of_z w16 x }
{
    scalar::bits16(x) as u16
}

// "Is added back modulo 65,536 when read": the sum of the two words, which wraps.
fn add_back(step: i16, prior: i16) -> i16
    ensures { result ≡ add_of step prior }
{
    scalar::signed16(std::num::wrapping_add_u16(word(step), word(prior)))
}

// A block's DC: a zero step keeps what stands at place 0, any other, shifted back, replaces it; the prediction is added, wrapping.
pub fn settled(run: u64, num: u64, shift: u32, here: i16, prior: i16) -> i16
    requires { shift < 16 }
    ensures { result ≡ add_of (settle shift (step_of run num) here) prior }
{
    if run == 0 {
        let step = scalar::sll16(bitreader::from_code(num), shift);
        add_back(step, prior)
    } else {
        add_back(here, prior)
    }
}

// The byte of a DC: an eighth of it, rounded, plus the level; sums of 16 bits that wrap, cut to 8 bits and not clamped.
pub fn preview_byte(d: i16, level: i16) -> u8
    ensures { result ≡ byte_of level d }
{
    let v = scalar::add1(scalar::sra16(scalar::add1(d, 4), 3), level);
    (scalar::bits16(v) % 256) as u8
}
