// The forward transform of one 8 by 8 block (dct.rs, fdct_quant_zig, up to the quantiser): lanes row by row to coefficients in natural order.
#![tactic(auto)]

pub mod column;
pub mod level_shift;
pub mod load;

ghost use Rattle.std.specs.Prelude.{◌≡◌, ◌<◌};
ghost use Rattle.lanes.specs.rows.Block.{block_of};
ghost use Rattle.fdct.specs.column.Rows.{rows_of};
ghost use Rattle.fdct.specs.Forward.{forward_columns_of, transform_of};

use crate::column::{EvenRows, OddRows, butterfly, even, odd};
use crate::level_shift::level;
use lanes::rows::{put, row};
use sample::Sample;

// Even and odd rows in turn.
#[tactic(auto, using(crate::proofs::column::Puts::eight_put))]
fn joined<S: Sample>(e: EvenRows, o: OddRows) -> [i16; 64]
    ensures { result ≡ block_of (rows_of e o) }
{
    let mut c = [0i16; 64];
    put(&mut c, 0, e.c0);
    put(&mut c, 1, o.c1);
    put(&mut c, 2, e.c2);
    put(&mut c, 3, o.c3);
    put(&mut c, 4, e.c4);
    put(&mut c, 5, o.c5);
    put(&mut c, 6, e.c6);
    put(&mut c, 7, o.c7);
    c
}

// The column pass, all eight columns at once.
#[tactic(auto, using(crate::proofs::column::Columns::columns_law))]
pub fn columns<S: Sample>(b: [i16; 64], shift: u32) -> [i16; 64]
    requires { shift < 15 }
    ensures { result ≡ forward_columns_of shift b }
{
    let s = butterfly::<S>(
        row(&b, 0),
        row(&b, 1),
        row(&b, 2),
        row(&b, 3),
        row(&b, 4),
        row(&b, 5),
        row(&b, 6),
        row(&b, 7),
    );
    let e = even::<S>(s.tp03, s.tp12, s.tm03, s.tm12, shift);
    let o = odd::<S>(s.d0, s.d1, s.d2, s.d3, shift);
    joined::<S>(e, o)
}

// The forward transform: add is the level shift, shift is 3 for 8-bit samples and 1 for 10-bit samples. Each depth has its own: so the
// compiler makes it part of the plane's loop.
#[tactic(auto, unfolding(crate::specs::Forward::transform_of))]
pub fn fdct<S: Sample>(block: [i16; 64], add: i16, shift: u32) -> [i16; 64]
    requires { shift < 15 }
    ensures { result ≡ transform_of shift add block }
{
    frow::row_pass::<S>(columns::<S>(level(block, add), shift))
}
