// Samples to lanes: the 8 by 8 block at the corner of the lent rows, row by row.
ghost use Rattle.std.specs.Prelude.{◌≡◌, ◌+◌, ◌*◌, ◌<◌, ◌≤◌, length, slice_index_or};
ghost use Rattle.sample.specs.Numbers.{lane_of};
ghost use Rattle.fdct.specs.Forward.{lanes_of};
ghost use Rattle.fdct.specs.load.Samples.{row_lanes_of};

use lanes::maps::each;
use lanes::rows::each_row;
use sample::Sample;

// The lanes of eight samples, from place `at` on.
fn row<S: Sample>(rows: &[S], at: usize) -> [i16; 8]
    requires { at + 8 ≤ length rows.now }
    ensures { result ≡ row_lanes_of S.depth (S.samples rows.now) at }
{
    each(
        |k| -> i16
            requires { at + k < length rows.now }
            ensures { (x : S) → result ≡ lane_of S.depth (S.number (slice_index_or rows.entry.now (at + k) x)) }
        { rows[at + k].lane() },
    )
}

// The lanes of the block at the corner of rows.
#[tactic(auto, using(crate::proofs::Places::rows_fit))]
pub fn load<S: Sample>(rows: &[S], stride: usize) -> [i16; 64]
    requires { 7 * stride + 8 ≤ length rows.now }
    ensures { result ≡ lanes_of S.depth (S.samples rows.now) stride }
{
    each_row(
        |r| -> [i16; 8]
            requires { (r < 8) × (7 * stride + 8 ≤ length rows.now) }
            ensures { result ≡ row_lanes_of S.depth (S.samples rows.entry.now) (r * stride) }
        { row(rows, r * stride) },
    )
}
