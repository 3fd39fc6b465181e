// The inverse transform of a block: the row pass, then the columns, then the samples.
#![tactic(auto)]

pub mod stages;

ghost use Rattle.std.specs.Prelude.{◌≡◌, ◌<◌};
ghost use Rattle.scalar.specs.Scalar.{adds_of};
ghost use Rattle.scalar.specs.Tab.{lane};
ghost use Rattle.sample.specs.Numbers.{sample_of};
ghost use Rattle.shuffles.specs.Shuffles.{mm_shufflehi_epi16};
ghost use Rattle.lanes.specs.rows.Block.{row_of};
ghost use Rattle.sample.specs.Depth.{is_ten};
ghost use Rattle.irow.specs.Stages.{inverse_mirror_of};
ghost use Rattle.idct.specs.columns.Columns.{level_added_of};
ghost use Rattle.idct.specs.Inverse.{inverse_of_paired, samples_of};

use crate::stages::columns;
use lanes::maps::each;
use lanes::rows::{each_row, row};
use sample::Sample;
use shuffles::shufflehi;

// Four rows, between two stages of the columns.
#[derive(Clone, Copy, Debug, PartialEq, Eq)]
pub struct Four {
    pub r0: [i16; 8],
    pub r1: [i16; 8],
    pub r2: [i16; 8],
    pub r3: [i16; 8],
}

// The right half of each row mirrored.
pub fn mirror(a: [i16; 64]) -> [i16; 64]
    ensures { result ≡ inverse_mirror_of a }
{
    each_row(
        |r| -> [i16; 8]
            requires { r < 8 }
            ensures { result ≡ mm_shufflehi_epi16 (row_of a r) 0x1b }
        { shufflehi(row(&a, r), 0x1b) },
    )
}

// Both passes over a block whose rows stand in the order 0 2 1 3 4 6 5 7; the level is not added. The columns run on rows whose right half
// is mirrored: so two halves of a row are made one vector without a shuffle.
pub fn inverse<S: Sample>(b: [i16; 64]) -> [i16; 64]
    ensures { result ≡ inverse_of_paired (is_ten S.depth) b }
{
    let w = irow::rows::paired_rows::<S>(&b);
    let v = columns::<S>(w);
    mirror(v)
}

// The samples, the level added. One loop over the block: so the compiler clamps sixteen samples by one instruction. By rows it needs more.
pub fn samples<S: Sample>(v: [i16; 64], level: i16) -> [S; 64]
    ensures { S.samples result ≡ samples_of (is_ten S.depth) (level_added_of level v) }
{
    each(
        |i| -> S
            requires { i < 64 }
            ensures { S.number result ≡ sample_of (is_ten S.depth) (adds_of (lane v i) level) }
        { S::from_number(scalar::adds1(v[i], level)) },
    )
}
