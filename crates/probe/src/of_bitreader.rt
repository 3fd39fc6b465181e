// Reading symbols (crate bitreader).
ghost use Rattle.bitreader.specs.Cursor.{At, Next, BadAt};
ghost use Rattle.std.specs.Prelude.{IfOk, IfErr, ◌^◌, ◌<◌};

use bitreader::{AcCursor, BadCode, Got};

// The last bit at which a code is read.
const FARTHEST: usize = 1000000000000;

// The code at a cursor: of the DC stream, or a symbol of the AC stream.
fn code(s: &[u8], c: AcCursor, dc: bool) -> Result<Got, BadCode>
    requires { At s.now c × (c.pos < 2 ^ 60) }
    ensures read { IfOk result (λ g. Next s.now c g) }
    ensures bad { IfErr result (λ b. BadAt s.now c b) }
{
    if dc {
        bitreader::next_dc(s, c)
    } else {
        bitreader::next_symbol(s, c)
    }
}

// The codes of a stream from the bit `at` on, up to the first bad one or as many as there is room for: of each the head
// bit, the number (0: bad) and the bit after it. How many numbers were stored. One by one: copy_from_slice asks of each three whether
// it lies over what is copied.
pub fn probe_bitreader_read(s: &[u8], at: usize, dc: bool, out: &mut [u64]) -> usize {
    if FARTHEST < at {
        return 0;
    }
    let mut cursor = bitreader::cursor(s, at);
    let mut stored = 0;
    for three in out.chunks_exact_mut(3) {
        if FARTHEST < cursor.pos {
            break;
        }
        stored += 3;
        match code(s, cursor, dc) {
            Ok(got) => {
                three[0] = got.run;
                three[1] = got.num;
                three[2] = got.c.pos as u64;
                cursor = got.c;
            }
            Err(bad) => {
                three.copy_from_slice(&[bad.run, 0, bad.c.pos as u64]);
                break;
            }
        }
    }
    stored
}
