// The column pass of the forward transform, on rows of eight lanes (dct.rs, fdct_quant_zig, "Column pass").
// The steps and their order are the Rust's; `shift` is 3 for 8-bit samples and 1 for 10-bit samples.
// `shift` stays a number with the clause `shift < 15`, here and in lib: the contracts hold at each such shift (docs/DECISIONS.md), and
// S::COLUMN_SHIFT in its place would leave two of them; a type that keeps the fact would be made from a number under the same clause,
// and taken apart in both stages, which shift by the number and by the next.
// The rows stay arguments, as the steps name them: a struct of them would be built for each call and taken apart in its first lines.
ghost use Rattle.std.specs.Prelude.{◌≡◌, ◌<◌};
ghost use Rattle.fdct.specs.column.Rows.{butterfly_rows, forward_even_rows, forward_odd_rows};

use lanes::products::mulhi;
use lanes::shifts::{or16, slli16};
use lanes::splat;
use lanes::sums::{adds, subs};
use sample::Sample;

// Numbers of tables.rs; FDCT_TAN3 is 43790 there, here its 16 bits read as signed.
pub const FDCT_ROUND1: i16 = 1;

pub const FDCT_TAN1: i16 = 13036;

pub const FDCT_TAN2: i16 = 27146;

pub const FDCT_TAN3: i16 = -21746;

pub const FDCT_SQRT2: i16 = 23170;

// What the first steps make of eight rows: sums for the even rows, differences of opposite rows for the odd ones.
#[derive(Clone, Copy, Debug, PartialEq, Eq, Hash)]
pub struct SideRows {
    pub tp03: [i16; 8],
    pub tp12: [i16; 8],
    pub tm03: [i16; 8],
    pub tm12: [i16; 8],
    pub d0: [i16; 8],
    pub d1: [i16; 8],
    pub d2: [i16; 8],
    pub d3: [i16; 8],
}

#[derive(Clone, Copy, Debug, PartialEq, Eq, Hash)]
pub struct EvenRows {
    pub c0: [i16; 8],
    pub c2: [i16; 8],
    pub c4: [i16; 8],
    pub c6: [i16; 8],
}

#[derive(Clone, Copy, Debug, PartialEq, Eq, Hash)]
pub struct OddRows {
    pub c1: [i16; 8],
    pub c3: [i16; 8],
    pub c5: [i16; 8],
    pub c7: [i16; 8],
}

// Sums and differences of opposite rows.
#[tactic(auto, using(crate::proofs::column::Lanewise::butterfly_law), unfolding(crate::proofs::column::Lanewise::make_side_rows))]
pub fn butterfly<S: Sample>(
    x0: [i16; 8],
    x1: [i16; 8],
    x2: [i16; 8],
    x3: [i16; 8],
    x4: [i16; 8],
    x5: [i16; 8],
    x6: [i16; 8],
    x7: [i16; 8],
) -> SideRows
    ensures { result ≡ butterfly_rows x0 x1 x2 x3 x4 x5 x6 x7 }
{
    let d0 = subs(x0, x7);
    let s0 = adds(x7, x0);
    let d2 = subs(x2, x5);
    let s2 = adds(x5, x2);
    let d3 = subs(x3, x4);
    let s3 = adds(x4, x3);
    let d1 = subs(x1, x6);
    let s1 = adds(x6, x1);
    let tm03 = subs(s0, s3);
    let tm12 = subs(s1, s2);
    let s3_twice = adds(s3, s3);
    let s2_twice = adds(s2, s2);
    let tp03 = adds(s3_twice, tm03);
    let tp12 = adds(s2_twice, tm12);
    SideRows {
        tp03,
        tp12,
        tm03,
        tm12,
        d0,
        d1,
        d2,
        d3,
    }
}

// Rows 0, 2, 4 and 6.
#[tactic(auto, using(crate::proofs::column::Lanewise::even_law), unfolding(crate::proofs::column::Lanewise::make_even_rows))]
pub fn even<S: Sample>(
    tp03: [i16; 8],
    tp12: [i16; 8],
    tm03: [i16; 8],
    tm12: [i16; 8],
    shift: u32,
) -> EvenRows
    requires { shift < 15 }
    ensures { result ≡ forward_even_rows shift tp03 tp12 tm03 tm12 }
{
    let tan2 = splat(FDCT_TAN2);
    let rounder = splat(FDCT_ROUND1);
    let p03 = slli16(tp03, shift);
    let p12 = slli16(tp12, shift);
    let m03 = slli16(tm03, shift);
    let m12 = slli16(tm12, shift);
    let c4 = subs(p03, p12);
    let p12_twice = adds(p12, p12);
    let c0 = adds(p12_twice, c4);
    let m03_tan2 = mulhi(tan2, m03);
    let c6_even = subs(m03_tan2, m12);
    let m12_tan2 = mulhi(tan2, m12);
    let c2_even = adds(m12_tan2, m03);
    let c2 = or16(c2_even, rounder);
    let c6 = or16(c6_even, rounder);
    EvenRows { c0, c2, c4, c6 }
}

// Rows 1, 3, 5 and 7.
#[tactic(auto, using(crate::proofs::column::Lanewise::odd_law), unfolding(crate::proofs::column::Lanewise::make_odd_rows))]
pub fn odd<S: Sample>(d0: [i16; 8], d1: [i16; 8], d2: [i16; 8], d3: [i16; 8], shift: u32) -> OddRows
    requires { shift < 15 }
    ensures { result ≡ forward_odd_rows shift d0 d1 d2 d3 }
{
    let sqrt2 = splat(FDCT_SQRT2);
    let tan1 = splat(FDCT_TAN1);
    let tan3 = splat(FDCT_TAN3);
    let rounder = splat(FDCT_ROUND1);
    let more = shift + 1;
    let x2 = slli16(d2, more);
    let x1 = slli16(d1, more);
    let x3 = slli16(d3, shift);
    let x0 = slli16(d0, shift);
    let diff = subs(x1, x2);
    let x2_twice = adds(x2, x2);
    let sum = adds(x2_twice, diff);
    let tp65_even = mulhi(sum, sqrt2);
    let tm65 = mulhi(diff, sqrt2);
    let tp65 = or16(tp65_even, rounder);
    let tm465 = subs(x3, tm65);
    let tm765 = subs(x0, tp65);
    let tp765 = adds(tp65, x0);
    let tp465 = adds(tm65, x3);
    let tm465_tan3 = mulhi(tm465, tan3);
    let tmp3 = adds(tm465_tan3, tm465);
    let tmp4 = mulhi(tp465, tan1);
    let tm765_tan3 = mulhi(tm765, tan3);
    let tmp5 = adds(tm765_tan3, tm765);
    let tmp6 = mulhi(tp765, tan1);
    let c1 = adds(tmp4, tp765);
    let c3 = subs(tm765, tmp3);
    let c5 = adds(tm465, tmp5);
    let c7 = subs(tmp6, tp465);
    OddRows { c1, c3, c5, c7 }
}
