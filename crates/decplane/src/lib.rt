// The storing pass over a plane (decode_plane of slice.rs) whose streams were judged good: blocks left to right, upper eight rows first;
// each block is read from both streams and painted into the rows from its corner on.
#![tactic(auto)]

ghost use Rattle.calls.specs.Arguments.{buffers};
ghost use Rattle.calls.specs.Views.{settings_by, plane_by, positions_by};
ghost use Rattle.decplane.specs.Storing.{PlaneGood, PlaneStored};

use acplaces::Tables;
use calls::{Positions, Settings, Shape};
use sample::Sample;

// Stores a plane, read from these positions on; where its streams end. Two loops over a block's place (row j, column k), as in encplane:
// std's iterators cut rows into parts that lie one after the other, and a block is eight parts of eight rows, a stride apart.
pub fn plane<S: Sample>(
    rows: &mut [S],
    h: Shape,
    s: Settings,
    dc: &[u8],
    ac: &[u8],
    at: Positions,
) -> Positions
    requires { PlaneGood (settings_by S.depth s) (plane_by h (S.samples rows.old)) (buffers dc.now ac.now) (positions_by at) }
    ensures { PlaneStored (settings_by S.depth s) (plane_by h (S.samples rows.old)) (buffers dc.now ac.now)
        (positions_by at) (positions_by result) (S.samples rows.new) }
{
    let place = h.place;
    let stride = h.stride;
    let preset = s.preset;
    let shift = s.shift;
    let v = planes::lane::<S>(place);
    let q = tables::decode_numbers(preset);
    let t = Tables::new();
    let cols = stride / 8;
    let mut stand = blockread::begin(dc, at);
    for j in 0..2 {
        for k in 0..cols {
            let g = blockread::block::next_block::<S>(dc, ac, stand, shift, &t);
            let c = planes::corner(stride, j, k);
            let nat = g.nat;
            let flat = g.flat;
            write_block::paint(&mut rows[c..], stride, nat, !flat, &q, v);
            let next = g.next;
            stand = next;
        }
    }
    blockread::ends(stand)
}
