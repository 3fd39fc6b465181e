// The transforms of a block (crate dct).
use crate::arrays::{array, put};
use crate::corners::fits;
use ask::limits::PRESET_MAX;
use dct::forward::fdct_quant_zig_lanes;
use quant::Quantiser;
use sample::Sample;

// Forward transform, quantiser and scan of a block (fdct_quant_zig), by each depth's own path.
pub fn probe_dct_forward(rows: &[i16], add: i16, ten: bool, preset: usize, out: &mut [i16]) {
    if PRESET_MAX < preset {
        return;
    }
    let quantiser = Quantiser::new(preset);
    let coded = if ten {
        fdct_quant_zig_lanes::<u16>(array(rows), add, 1, &quantiser)
    } else {
        fdct_quant_zig_lanes::<u8>(array(rows), add, 3, &quantiser)
    };
    put(out, &coded);
}

// Dequantising and inverse transform of a block into samples from the corner of the rows on (idct8, idct16).
pub fn probe_dct_inverse<S: Sample>(
    nat: &[i16],
    preset: usize,
    level: i16,
    rows: &mut [S],
    stride: usize,
) {
    if PRESET_MAX < preset || !fits(stride, rows.len()) {
        return;
    }
    let divisors = tables::decode_numbers(preset);
    let numbers = dct::inverse::idct_core::<S>(array(nat), &divisors);
    dct::inverse::store(rows, stride, numbers, level);
}

// A flat block from the corner of the rows on (broadcast_dc8).
pub fn probe_dct_flat(dc: i16, level: i16, rows: &mut [u8], stride: usize) {
    if fits(stride, rows.len()) {
        dct::inverse::broadcast_dc(rows, stride, dc, level);
    }
}
