// Reading symbols (crate bitreader).

// The codes of a stream from the bit `at` on, up to the first bad one or as many as there is room for: of each the head
// bit, the number (0: bad) and the bit after it. How many numbers were stored.
#[unsafe(no_mangle)]
pub extern "C" fn probe_bitreader_read(s: &[u8], at: usize, dc: bool, out: &mut [u64]) -> usize {
    probe::of_bitreader::probe_bitreader_read(s, at, dc, out)
}
