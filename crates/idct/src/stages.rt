// The columns of the inverse transform, in stages: the listed order of steps of dct.rs on rows of eight lanes. The steps that the odd and the even rows
// share nothing in are two stages, the third joins them. Each depth has its own instance, and each function one caller there: so the
// compiler makes the transform part of that depth's loop over blocks.
ghost use Rattle.std.specs.Prelude.{◌≡◌, pos};
ghost use Rattle.lanes.specs.rows.Block.{block_of};
ghost use Rattle.idct.specs.column.Rows.{inverse_odd_rows, inverse_even_rows, inverse_join_rows};
ghost use Rattle.idct.specs.columns.Columns.{inverse_columns_of};

use crate::Four;
use lanes::products::mulhi;
use lanes::rows::{put, row};
use lanes::shifts::{or16, srai16};
use lanes::splat;
use lanes::sums::{adds, subs};
use sample::Sample;

const TG_1_16: i16 = 13036;

const TG_2_16: i16 = 27146;

const TG_3_16: i16 = -21746;

const COS_4_16: i16 = -19195;

// The odd rows' stage. S makes an instance for each depth.
fn odd<S: Sample>(x1: [i16; 8], x3: [i16; 8], x5: [i16; 8], x7: [i16; 8]) -> Four
    ensures { result ≡ inverse_odd_rows x1 x3 x5 x7 }
{
    let tan1 = splat(TG_1_16);
    let tan3 = splat(TG_3_16);
    let cos4 = splat(COS_4_16);
    let one = splat(1);
    let m5 = mulhi(x5, tan3);
    let m3 = mulhi(tan3, x3);
    let m7 = mulhi(x7, tan1);
    let a5 = adds(m5, x5);
    let m1 = mulhi(tan1, x1);
    let a3 = adds(m3, x3);
    let s35 = adds(a5, x3);
    let d35 = subs(x5, a3);
    let d17 = subs(m1, x7);
    let s17 = adds(m7, x1);
    let t0 = adds(s35, s17);
    let o0 = adds(t0, one);
    let u = subs(s17, s35);
    let v0 = subs(d17, d35);
    let v = adds(v0, one);
    let o3 = adds(d17, d35);
    let p = adds(u, v);
    let mp = mulhi(cos4, p);
    let q = subs(u, v);
    let mq = mulhi(cos4, q);
    let p1 = adds(p, mp);
    let o1 = or16(p1, one);
    let q1 = adds(mq, q);
    let o2 = or16(q1, one);
    Four {
        r0: o0,
        r1: o1,
        r2: o2,
        r3: o3,
    }
}

// The even rows' stage: the sums and the differences have their own rounding.
fn even<S: Sample>(x0: [i16; 8], x2: [i16; 8], x4: [i16; 8], x6: [i16; 8]) -> Four
    ensures { result ≡ inverse_even_rows S.COL_ROUND S.COL_CORR x0 x2 x4 x6 }
{
    let tan2 = splat(TG_2_16);
    let round = S::COL_ROUND;
    let corr = S::COL_CORR;
    let rnd = splat(round);
    let cor = splat(corr);
    let m6 = mulhi(x6, tan2);
    let m2 = mulhi(tan2, x2);
    let s26 = adds(m6, x2);
    let d26 = subs(m2, x6);
    let s04 = adds(x4, x0);
    let d04 = subs(x0, x4);
    let a0 = adds(s04, s26);
    let e0 = adds(a0, rnd);
    let a3 = subs(s04, s26);
    let a1 = adds(d04, d26);
    let e1 = adds(a1, rnd);
    let a2 = subs(d04, d26);
    let e2 = adds(a2, cor);
    let e3 = adds(a3, cor);
    Four {
        r0: e0,
        r1: e1,
        r2: e2,
        r3: e3,
    }
}

// Both stages joined: the upper four rows are sums, the lower four differences.
fn joined<S: Sample>(o: Four, e: Four) -> [i16; 64]
    ensures { result ≡ block_of (inverse_join_rows S.COL_SHIFT o e) }
{
    let Four {
        r0: o0,
        r1: o1,
        r2: o2,
        r3: o3,
    } = o;
    let Four {
        r0: e0,
        r1: e1,
        r2: e2,
        r3: e3,
    } = e;
    let shift = S::COL_SHIFT;
    let mut y = [0i16; 64];
    let y0 = srai16(adds(o0, e0), shift);
    put(&mut y, 0, y0);
    let y1 = srai16(adds(e1, o1), shift);
    put(&mut y, 1, y1);
    let y2 = srai16(adds(e2, o2), shift);
    put(&mut y, 2, y2);
    let y3 = srai16(adds(o3, e3), shift);
    put(&mut y, 3, y3);
    let y4 = srai16(subs(e3, o3), shift);
    put(&mut y, 4, y4);
    let y5 = srai16(subs(e2, o2), shift);
    put(&mut y, 5, y5);
    let y6 = srai16(subs(e1, o1), shift);
    put(&mut y, 6, y6);
    let y7 = srai16(subs(e0, o0), shift);
    put(&mut y, 7, y7);
    y
}

// All columns, the level not added.
pub fn columns<S: Sample>(w: [i16; 64]) -> [i16; 64]
    ensures { result ≡ inverse_columns_of S.COL_ROUND S.COL_CORR S.COL_SHIFT (pos 0) w }
{
    let o = odd::<S>(row(&w, 1), row(&w, 3), row(&w, 5), row(&w, 7));
    let e = even::<S>(row(&w, 0), row(&w, 2), row(&w, 4), row(&w, 6));
    joined::<S>(o, e)
}
