// The transforms of a block (crate dct).

// Forward transform, quantiser and scan of a block (fdct_quant_zig).
#[unsafe(no_mangle)]
pub extern "C" fn probe_dct_forward(
    rows: &[i16],
    add: i16,
    ten: bool,
    preset: usize,
    out: &mut [i16],
) {
    probe::of_dct::probe_dct_forward(rows, add, ten, preset, out);
}

// Dequantising and inverse transform of a block into 8-bit samples from the corner of the rows on (idct8).
#[unsafe(no_mangle)]
pub extern "C" fn probe_dct_inverse8(
    nat: &[i16],
    preset: usize,
    level: i16,
    rows: &mut [u8],
    stride: usize,
) {
    probe::of_dct::probe_dct_inverse::<u8>(nat, preset, level, rows, stride);
}

// The same for 10-bit samples (idct16).
#[unsafe(no_mangle)]
pub extern "C" fn probe_dct_inverse16(
    nat: &[i16],
    preset: usize,
    level: i16,
    rows: &mut [u16],
    stride: usize,
) {
    probe::of_dct::probe_dct_inverse::<u16>(nat, preset, level, rows, stride);
}

// A flat block from the corner of the rows on (broadcast_dc8).
#[unsafe(no_mangle)]
pub extern "C" fn probe_dct_flat(dc: i16, level: i16, rows: &mut [u8], stride: usize) {
    probe::of_dct::probe_dct_flat(dc, level, rows, stride);
}
