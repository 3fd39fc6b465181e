// Reading records.
ghost use Rattle.std.specs.Prelude.{◌≤◌, length, IfOk};

use std::io;
use std::io::Read;

// The length of the longest record.
pub const LONGEST: usize = 1120;

// Reads until the buffer is full or the file ends: how many bytes are at the buffer's start. The loop counts no index: `done` moves
// by what was read.
pub fn read_full(file: &mut impl Read, buf: &mut [u8]) -> io::Result<usize>
    ensures { IfOk result (λ n. n ≤ length buf.old) }
{
    let mut done = 0;
    while done < buf.len() {
        let n = file.read(&mut buf[done..])?;
        if n == 0 {
            break;
        }
        done += n;
    }
    Ok(done)
}
