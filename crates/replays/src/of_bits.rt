// The code at a bit, as the Rust read it, and codes as it wrote them. A record of 48 bytes (oracle/ANSWERS.md): the stream's kind,
// its length, a bit's place, the code that the Rust read there, and the stream; or two codes, written in turn, and the stream.
use probe::of_bitacc::probe_bitacc_write;
use probe::of_bitreader::probe_bitreader_read;
use probe::of_lent::probe_lent_write;
use replay::{Record, part};
use std::array;

pub const LENGTH: usize = 48;

// The code that the Rust read: head bit, number and the bit after it. A bad code has none of them.
fn stored_code(record: Record<'_>) -> Option<[u64; 3]> {
    let head = u64::from(record.number::<u16>(4));
    let number = record.number(8);
    let end = u64::from(record.number::<u16>(16));
    (number != 0).then_some([head, number, end])
}

// The code at a bit of the record's stream. A zero step has no number; 1 is stored for it.
fn read(record: Record<'_>, dc: bool) -> bool {
    let stream = record.part(20..20 + record.small(1));
    let mut read = [0; 3];
    let stored = probe_bitreader_read(stream, record.size(2), dc, &mut read);
    let code = match read {
        [_, 0, _] => None,
        [1, _, end] if dc => Some([1, 1, end]),
        code => Some(code),
    };
    stored == 3 && code == stored_code(record)
}

// Codes that are written in a row.
struct Codes {
    kinds: [u8; 8],
    runs: [u32; 8],
    codes: [u32; 8],
}

impl Codes {
    // The record's two codes, nine bytes each, in turn.
    fn of(record: Record<'_>) -> Codes {
        let two = [
            Record::new(record.part(4..13)),
            Record::new(record.part(13..22)),
        ];
        Codes {
            kinds: array::from_fn(|k| two[k % 2].byte(0)),
            runs: array::from_fn(|k| two[k % 2].number(1)),
            codes: array::from_fn(|k| two[k % 2].number(5)),
        }
    }
}

// Whether a writer of codes leaves the record's stream from the byte 3 on, and the fill everywhere else.
fn written<W: Fn(&[u8], &[u32], &[u32], usize, &mut [u8]) -> usize>(
    record: Record<'_>,
    write: W,
) -> bool
    requires { W.IsAlwaysCallable write }
{
    let Codes { kinds, runs, codes } = Codes::of(record);
    let filled = record.byte(3);
    let length = record.small(1);
    let mut out = [filled; 64];
    let end = write(part(&kinds, 0..record.small(2)), &runs, &codes, 3, &mut out);
    end == 3 + length && replay::holds(&out, filled, 3..end, record.part(22..22 + length))
}

pub fn holds(record: Record<'_>) -> bool {
    match record.byte(0) {
        0 => read(record, false),
        1 => read(record, true),
        2 => written(record, probe_bitacc_write),
        // A run by itself has no call that takes a lent accumulator.
        _ => written(record, probe_bitacc_write) && written(record, probe_lent_write),
    }
}
