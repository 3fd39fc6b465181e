// The call of the crate probe_pairs for the oracle: the export calls the function of its name.
#![tactic(auto)]

// Pairs from the byte `at` on, then zero bits up to a byte. Room is asked for once, eight bytes a pair. The end, or 0
// where there is less, or at a pair that the writer does not take.
#[unsafe(no_mangle)]
pub extern "C" fn probe_pairs_write(
    runs: &[u32],
    codes: &[u32],
    at: usize,
    out: &mut [u8],
) -> usize {
    probe_pairs::probe_pairs_write(runs, codes, at, out)
}
