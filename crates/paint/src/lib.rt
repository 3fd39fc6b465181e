// The block writers: each receives the rows from the block's corner on and stores 8 by 8 samples at the stride.
// Corner names the fact that rows and stride fit: a struct of both would be made for each block of a plane, and be taken apart here.
#![tactic(auto)]

pub mod flat_sample;
pub mod row;

ghost use Rattle.std.specs.Prelude.{◌≡◌, length};
ghost use Rattle.sample.specs.Depth.{is_ten};
ghost use Rattle.paint.specs.Paint.{Corner, Stored, store_block};
ghost use Rattle.paint.specs.Samples.{flat_sample_of};

use crate::flat_sample::flat;
use crate::row::put;
use sample::Sample;

// Stores the 8 by 8 samples of a block into the rows from its corner on.
pub fn store<T: Copy>(rows: &mut [T], stride: usize, p: &[T; 64])
    requires { Corner stride (length rows.old) }
    ensures { Stored stride p.now rows.old rows.new }
{
    for i in 0..8 {
        put(rows, i * stride, p, i * 8);
    }
}

// Fills the 8 by 8 samples at the corner with the block's DC.
pub fn broadcast_dc<S: Sample>(rows: &mut [S], stride: usize, dc: i16, level: i16)
    requires { Corner stride (length rows.old) }
    ensures { S.samples rows.new ≡ store_block stride (λ i. flat_sample_of (is_ten S.depth) level dc) (S.samples rows.old) }
{
    let v = flat::<S>(dc, level);
    let p = [v; 64];
    store(rows, stride, &p);
}
