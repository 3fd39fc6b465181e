// The bit writer through a lent accumulator (module lent of crate bitwriter).
use crate::codes::{Code, Writer, write};
use bitwriter::{BitAcc, lent};

// Each call is lent the accumulator, and it is handed back.
pub struct Lent;

impl Writer for Lent {
    fn code(kind: u8, run: u32, value: u32) -> Code {
        match kind {
            0 => Code::Value(value),
            _ => Code::RunValue(run, value),
        }
    }

    fn put_value(acc: BitAcc, code: u32, out: &mut [u8]) -> BitAcc {
        let mut acc = acc;
        lent::put_value(&mut acc, code, out);
        acc
    }

    fn put_run_value(acc: BitAcc, run: u32, code: u32, out: &mut [u8]) -> BitAcc {
        let mut acc = acc;
        lent::put_run_value(&mut acc, run, code, out);
        acc
    }

    fn align(acc: BitAcc, out: &mut [u8]) -> BitAcc {
        let mut acc = acc;
        lent::align(&mut acc, out);
        acc
    }
}

// Codes in a row from the byte `at` on, then zero bits up to a byte: a value for kind 0, a run and a value for any other.
// The end; a code that the writer does not take, or for which fewer than 16 bytes are left, is passed over.
// Three lists, since C lends each by a pointer of its own.
pub fn probe_lent_write(
    kinds: &[u8],
    runs: &[u32],
    codes: &[u32],
    at: usize,
    out: &mut [u8],
) -> usize {
    write::<Lent>(kinds, runs, codes, at, out)
}
