// The Rust's transforms of a block, its flat block and its mask of non-zero places. A record of 260 bytes (oracle/ANSWERS.md):
// which of them, the preset, the level shift, 64 numbers, and the 64 numbers that the Rust answered.
use crate::depths::Depth;
use probe::of_dct;
use probe::of_shuffles::probe_shuffles_nonzero_mask;
use replay::Record;

pub const LENGTH: usize = 260;

// The 64 numbers.
fn block(record: Record<'_>) -> [i16; 64] {
    record.numbers(4)
}

// Forward transform, quantiser and scan of a block.
fn forward(record: Record<'_>, ten: bool) -> bool {
    let mut r = [0; 64];
    of_dct::probe_dct_forward(
        &block(record),
        record.number(2),
        ten,
        record.small(1),
        &mut r,
    );
    r == record.numbers(132)
}

// Dequantising and inverse transform of a block into these samples; those of 10 bits stand at the top of 16.
fn inverse<T: Depth + Into<u16>>(record: Record<'_>, r: &mut [T]) -> bool {
    of_dct::probe_dct_inverse(&block(record), record.small(1), record.number(2), r, 8);
    let stored: [u16; 64] = record.numbers(132);
    r.iter().copied().map(T::into).eq(stored)
}

// A block filled flat with its DC.
fn flat(record: Record<'_>) -> bool {
    let mut r = [0; 64];
    of_dct::probe_dct_flat(record.number(4), record.number(2), &mut r, 8);
    r.map(u16::from) == record.numbers(132)
}

// The mask of the places that are not zero.
fn mask(record: Record<'_>) -> bool {
    probe_shuffles_nonzero_mask(&block(record)) == record.number(132)
}

pub fn holds(record: Record<'_>) -> bool {
    match record.byte(0) {
        0 => forward(record, false),
        1 => forward(record, true),
        2 => inverse::<u8>(record, &mut [0; 64]),
        3 => inverse::<u16>(record, &mut [0; 64]),
        4 => flat(record),
        _ => mask(record),
    }
}
