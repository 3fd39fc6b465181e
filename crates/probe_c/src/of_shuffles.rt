// The shuffles (crate shuffles).

// A row shuffled by a pattern.
#[unsafe(no_mangle)]
pub extern "C" fn probe_shuffles_row(op: u32, a: &[i16], imm: u8, out: &mut [i16]) {
    probe::of_shuffles::probe_shuffles_row(op, a, imm, out);
}

// A wide row shuffled by a pattern.
#[unsafe(no_mangle)]
pub extern "C" fn probe_shuffles_wide(a: &[i32], imm: u8, out: &mut [i32]) {
    probe::of_shuffles::probe_shuffles_wide(a, imm, out);
}

#[unsafe(no_mangle)]
pub extern "C" fn probe_shuffles_unpacklo32(a: &[i16], b: &[i16], out: &mut [i16]) {
    probe::of_shuffles::probe_shuffles_unpacklo32(a, b, out);
}

#[unsafe(no_mangle)]
pub extern "C" fn probe_shuffles_nonzero_mask(zz: &[i16]) -> u64 {
    probe::of_shuffles::probe_shuffles_nonzero_mask(zz)
}
