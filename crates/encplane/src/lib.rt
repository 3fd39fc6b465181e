// Codes a plane of samples (encode_plane of slice.rs): each block is transformed, quantised and put in scan order, then coded into both streams.
#![tactic(auto)]

ghost use Rattle.calls.specs.Arguments.{buffers};
ghost use Rattle.calls.specs.Views.{settings_by, plane_by, positions_by};
ghost use Rattle.encplane.specs.Coding.{PlaneOk, PlaneDone};

use calls::{Positions, Settings, Shape};
use entropy::short::ShortCodes;
use quant::Quantiser;
use sample::Sample;

// Codes a plane, each stream from its position on. Two loops over a block's place (row j, column i): std's iterators cut rows into parts that
// lie one after the other, and a block is eight parts of eight rows. The buffers are two parameters as in entropy::coder.
pub fn plane<S: Sample>(
    rows: &[S],
    h: Shape,
    s: Settings,
    dcs: &mut [u8],
    acs: &mut [u8],
    at: Positions,
) -> Positions
    requires { PlaneOk (settings_by S.depth s) (plane_by h (S.samples rows.now)) (buffers dcs.old acs.old) (positions_by at) }
    ensures { PlaneDone (settings_by S.depth s) (plane_by h (S.samples rows.now)) (buffers dcs.old acs.old) (positions_by at)
        (positions_by result) (buffers dcs.new acs.new) }
{
    let stride = h.stride;
    let v = planes::level::<S>(h.place);
    let k = Quantiser::new(s.preset);
    let codes = ShortCodes::new();
    let cols = stride / 8;
    let mut w = entropy::plane::begin(at);
    for j in 0..2 {
        for i in 0..cols {
            let c = planes::corner(stride, j, i);
            let z = dct::forward::fdct_quant_zig(&rows[c..], stride, v, &k);
            w = entropy::coder::code_block::<S>(w, &z, s.shift, &codes, dcs, acs);
        }
    }
    entropy::plane::end(w, dcs, acs)
}
