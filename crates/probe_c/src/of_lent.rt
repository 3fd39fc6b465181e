// The bit writer through a lent accumulator (module lent of crate bitwriter): what lends it, each by one call, and codes in a row.

// Codes in a row from the byte `at` on, then zero bits up to a byte: a value for kind 0, a run and a value for any other.
// The end; a code that the writer does not take, or for which fewer than 16 bytes are left, is passed over.
#[unsafe(no_mangle)]
pub extern "C" fn probe_lent_write(
    kinds: &[u8],
    runs: &[u32],
    codes: &[u32],
    at: usize,
    out: &mut [u8],
) -> usize {
    probe::of_lent::probe_lent_write(kinds, runs, codes, at, out)
}
