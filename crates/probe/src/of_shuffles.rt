// The shuffles (crate shuffles). C names one by a number (`op`), so a match finds it.
use crate::arrays::{array, put};

// The shuffles of a row.
fn shuffled(op: u32, a: [i16; 8], imm: u8) -> [i16; 8] {
    match op {
        0 => shuffles::shuffle32_16(a, imm),
        1 => shuffles::shufflelo(a, imm),
        _ => shuffles::shufflehi(a, imm),
    }
}

// A row shuffled by a pattern.
pub fn probe_shuffles_row(op: u32, a: &[i16], imm: u8, out: &mut [i16]) {
    put(out, &shuffled(op, array(a), imm));
}

// A wide row shuffled by a pattern.
pub fn probe_shuffles_wide(a: &[i32], imm: u8, out: &mut [i32]) {
    put(out, &shuffles::shuffle32(array(a), imm));
}

pub fn probe_shuffles_unpacklo32(a: &[i16], b: &[i16], out: &mut [i16]) {
    put(out, &shuffles::unpacklo32(array(a), array(b)));
}

pub fn probe_shuffles_nonzero_mask(zz: &[i16]) -> u64 {
    shuffles::nonzero_mask(array(zz))
}
