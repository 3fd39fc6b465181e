// Many blocks a call, so that the oracle can time a block: a row of blocks, transformed one after the other.
// No contract beyond being safe on any arguments.

// Forward transform, quantiser and scan of a row of 8-bit blocks.
#[unsafe(no_mangle)]
pub extern "C" fn probe_blocks_forward8(
    rows: &[u8],
    stride: usize,
    preset: usize,
    out: &mut [i16],
) {
    probe::blocks::probe_blocks_forward::<u8>(rows, stride, preset, out);
}

// The same of 10-bit blocks.
#[unsafe(no_mangle)]
pub extern "C" fn probe_blocks_forward16(
    rows: &[u16],
    stride: usize,
    preset: usize,
    out: &mut [i16],
) {
    probe::blocks::probe_blocks_forward::<u16>(rows, stride, preset, out);
}

// Dequantising, inverse transform and store of one block of coefficients over a row of 8-bit blocks.
#[unsafe(no_mangle)]
pub extern "C" fn probe_blocks_inverse8(
    nat: &[i16],
    preset: usize,
    rows: &mut [u8],
    stride: usize,
) {
    probe::blocks::probe_blocks_inverse::<u8>(nat, preset, rows, stride);
}

// The same for 10-bit samples.
#[unsafe(no_mangle)]
pub extern "C" fn probe_blocks_inverse16(
    nat: &[i16],
    preset: usize,
    rows: &mut [u16],
    stride: usize,
) {
    probe::blocks::probe_blocks_inverse::<u16>(nat, preset, rows, stride);
}
