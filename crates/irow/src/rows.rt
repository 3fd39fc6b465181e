// The row pass. Each depth has its own instance of it, and each of its functions one caller there: so the compiler makes the pass part
// of that depth's loop over blocks.
ghost use Rattle.std.specs.Prelude.{◌≡◌, ◌<◌};
ghost use Rattle.lanes.specs.rows.Block.{wide_of};
ghost use Rattle.irow.specs.Stages.{inverse_tab, paired_rows};
ghost use Rattle.irow.specs.sums.Rows.{sums_row};
ghost use Rattle.irow.specs.sums.Sums.{rows_from};

use crate::pairs::{pairs, spread};
use lanes::packs::packs32;
use lanes::rows::{each_row, wide};
use lanes::splat32;
use lanes::wide::{add32, srai32, sub32};
use sample::Sample;

// The tables, made here: the compiler multiplies by their constants.
fn table() -> [i16; 256]
    ensures { result ≡ inverse_tab }
{
    crate::TABLE
}

// A row from the four pairs of products of its numbers, x0 and x1 the even ones, x2 and x3 the odd ones; its right half is mirrored.
fn row_sums<S: Sample>(x0: [i32; 4], x1: [i32; 4], x2: [i32; 4], x3: [i32; 4]) -> [i16; 8]
    ensures { result ≡ sums_row S.ROW_ROUND S.ROW_SHIFT x0 x1 x2 x3 }
{
    let round = S::ROW_ROUND;
    let shift = S::ROW_SHIFT;
    let half = splat32(round);
    let rounded = add32(x0, half);
    let even = add32(rounded, x1);
    let odd = add32(x2, x3);
    let sum = add32(even, odd);
    let low = srai32(sum, shift);
    let diff = sub32(even, odd);
    let high = srai32(diff, shift);
    packs32(low, high)
}

// All rows.
fn sums<S: Sample>(m0: [i32; 32], m1: [i32; 32], m2: [i32; 32], m3: [i32; 32]) -> [i16; 64]
    ensures { result ≡ rows_from S.ROW_ROUND S.ROW_SHIFT m0 m1 m2 m3 }
{
    each_row(
        |r| -> [i16; 8]
            requires { r < 8 }
            ensures { result ≡ sums_row S.ROW_ROUND S.ROW_SHIFT (wide_of m0 r) (wide_of m1 r) (wide_of m2 r) (wide_of m3 r) }
        { row_sums::<S>(wide(&m0, r), wide(&m1, r), wide(&m2, r), wide(&m3, r)) },
    )
}

// The row pass on a block whose rows stand in the order 0 2 1 3 4 6 5 7, each row's right half mirrored (proofs/Pass, rows-law).
pub fn paired_rows<S: Sample>(b: &[i16; 64]) -> [i16; 64]
    ensures { result ≡ paired_rows S.ROW_ROUND S.ROW_SHIFT b.now inverse_tab }
{
    let t = table();
    let x0 = spread(b, 0x88);
    let m0 = pairs(&x0, &t, 0);
    let x1 = spread(b, 0x22);
    let m1 = pairs(&x1, &t, 64);
    let x2 = spread(b, 0xdd);
    let m2 = pairs(&x2, &t, 128);
    let x3 = spread(b, 0x77);
    let m3 = pairs(&x3, &t, 192);
    sums::<S>(m0, m1, m2, m3)
}
