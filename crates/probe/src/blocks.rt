// Many blocks a call, so that the oracle can time a block: a row of blocks, transformed one after the other.
// No contract beyond being safe on any arguments.
// The blocks of a row go by the index of their column: each takes eight samples of eight rows that lie a stride apart, so chunks of
// the rows are none, and a window of them is again `&rows[8 * i..]`.
use crate::arrays::{array, put};
use crate::corners::fits;
use ask::limits::{PRESET_MAX, STRIDE_MAX};
use quant::Quantiser;
use sample::Sample;

// Forward transform, quantiser and scan of a row of blocks.
pub fn probe_blocks_forward<S: Sample>(rows: &[S], stride: usize, preset: usize, out: &mut [i16]) {
    if PRESET_MAX < preset || stride < 8 || STRIDE_MAX < stride || rows.len() < 8 * stride {
        return;
    }
    let quantiser = Quantiser::new(preset);
    let level = planes::level::<S>(0);
    for i in 0..stride / 8 {
        let coded = dct::forward::fdct_quant_zig(&rows[8 * i..], stride, level, &quantiser);
        put(out, &coded);
    }
}

// Dequantising, inverse transform and store of one block of coefficients over a row of blocks, as far as the rows are long enough.
pub fn probe_blocks_inverse<S: Sample>(nat: &[i16], preset: usize, rows: &mut [S], stride: usize) {
    if PRESET_MAX < preset || stride < 8 || STRIDE_MAX < stride {
        return;
    }
    let divisors = tables::decode_numbers(preset);
    for i in 0..stride / 8 {
        let numbers = dct::inverse::idct_core::<S>(array(nat), &divisors);
        if let Some(block) = rows.get_mut(8 * i..) {
            if fits(stride, block.len()) {
                dct::inverse::store(block, stride, numbers, S::MIDDLE);
            }
        }
    }
}
