// From the samples of a block to its quantised coefficients in scan order (fdct_quant_zig of dct.rs).
ghost use Rattle.std.specs.Prelude.{◌≡◌, ◌+◌, ◌*◌, ◌<◌, ◌≤◌, pos, neg_ℤ, length};
ghost use Rattle.tables.specs.Entries.{EveryPreset};
ghost use Rattle.sample.specs.Depth.{is_ten};
ghost use Rattle.quant.specs.Quantise.{quantise_of, scan_of};
ghost use Rattle.fdct.specs.Forward.{lanes_of, transform_of, forward_of};

use quant::Quantiser;
use sample::Sample;

// What the level shift adds.
pub fn negated(level: u16) -> i16
    requires { level < 32768 }
    ensures { result ≡ neg_ℤ (pos level) }
{
    let v = level as i16;
    0 - v
}

// Forward transform, quantiser and zig-zag of 64 lanes. Each depth has its own: so the compiler makes it part of the plane's loop.
pub fn fdct_quant_zig_lanes<S: Sample>(
    block: [i16; 64],
    add: i16,
    shift: u32,
    k: &Quantiser,
) -> [i16; 64]
    requires { shift < 15 }
    ensures { EveryPreset k.now.numbers (λ preset. result ≡ scan_of (quantise_of preset (transform_of shift add block))) }
{
    let w = fdct::fdct::<S>(block, add, shift);
    let q = k.quant::<S>(w);
    quant::zigzag::<S>(q)
}

// The quantised coefficients of the block at the corner of rows, in scan order.
pub fn fdct_quant_zig<S: Sample>(rows: &[S], stride: usize, level: u16, k: &Quantiser) -> [i16; 64]
    requires { (7 * stride + 8 ≤ length rows.now) × (level < 32768) }
    ensures { EveryPreset k.now.numbers (λ preset. result
        ≡ scan_of (quantise_of preset (forward_of (is_ten S.depth) (pos level) (lanes_of S.depth (S.samples rows.now) stride)))) }
{
    let add = negated(level);
    let block = fdct::load::load(rows, stride);
    let shift = S::COLUMN_SHIFT;
    fdct_quant_zig_lanes::<S>(block, add, shift, k)
}
