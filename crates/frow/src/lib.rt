// The row pass of the forward transform (dct.rs, fdct_row): each coefficient is a sum of four products, rounded, shifted and saturated.
#![tactic(auto)]

mod factors;
pub mod rounding;
pub mod sides;
pub mod steps;

ghost use Rattle.std.specs.Prelude.{◌≡◌};
ghost use Rattle.frow.specs.Rows.{forward_rows_of};

use crate::rounding::ends;
use crate::sides::sides;
use crate::steps::{pairs, swapped};
use sample::Sample;

// The row pass of a block. Each depth has its own: so the compiler makes it part of the plane's loop.
pub fn row_pass<S: Sample>(c: [i16; 64]) -> [i16; 64]
    ensures { result ≡ forward_rows_of c }
{
    let v = sides::<S>(c);
    let s = v.sums;
    let d = v.diffs;
    let m0 = pairs(s, factors::EVEN_NEAR);
    let m1 = pairs(swapped(s), factors::EVEN_FAR);
    let m2 = pairs(d, factors::ODD_NEAR);
    let m3 = pairs(swapped(d), factors::ODD_FAR);
    ends::<S>(m0, m1, m2, m3)
}
