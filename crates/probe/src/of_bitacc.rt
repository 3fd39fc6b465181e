// The bit writer (crate bitwriter).
use crate::codes::{Code, Writer, write};
use bitwriter::BitAcc;

// The core, which takes its accumulator by value.
pub struct Core;

impl Writer for Core {
    fn code(kind: u8, run: u32, value: u32) -> Code {
        match kind {
            0 => Code::Value(value),
            1 => Code::Run(run),
            _ => Code::RunValue(run, value),
        }
    }

    fn put_value(acc: BitAcc, code: u32, out: &mut [u8]) -> BitAcc {
        bitwriter::put_value(acc, code, out)
    }

    fn put_run_value(acc: BitAcc, run: u32, code: u32, out: &mut [u8]) -> BitAcc {
        bitwriter::put_run_value(acc, run, code, out)
    }

    fn align(acc: BitAcc, out: &mut [u8]) -> BitAcc {
        bitwriter::align(acc, out)
    }
}

// Codes in a row from the byte `at` on, then zero bits up to a byte: a value, a run, or both, for each kind 0, 1, 2.
// The end; a code that the writer does not take, or for which fewer than 16 bytes are left, is passed over.
// Three lists, since C lends each by a pointer of its own.
pub fn probe_bitacc_write(
    kinds: &[u8],
    runs: &[u32],
    codes: &[u32],
    at: usize,
    out: &mut [u8],
) -> usize {
    write::<Core>(kinds, runs, codes, at, out)
}
