// The bit writer (crate bitwriter).

// Codes in a row from the byte `at` on, then zero bits up to a byte: a value, a run, or both, for each kind 0, 1, 2.
// The end; a code that the writer does not take, or for which fewer than 16 bytes are left, is passed over.
#[unsafe(no_mangle)]
pub extern "C" fn probe_bitacc_write(
    kinds: &[u8],
    runs: &[u32],
    codes: &[u32],
    at: usize,
    out: &mut [u8],
) -> usize {
    probe::of_bitacc::probe_bitacc_write(kinds, runs, codes, at, out)
}
