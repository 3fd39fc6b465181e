// The two streams of a plane, block by block (encode_plane of slice.rs without the transform): where they begin and where they end
// (one block: coder).
ghost use Rattle.std.specs.Prelude.{◌≡◌};
ghost use Rattle.calls.specs.Views.{positions_by};
ghost use Rattle.entropy.specs.plane.Coded.{start_of, EndRoom, Ended};

use bitwriter::BitAcc;
use calls::Positions;

// Both writers, the zeros that wait to be coded as a run, and the coded DC of the block before.
#[derive(Clone, Copy, Debug, PartialEq, Eq, Hash)]
pub struct PlaneState {
    pub dc: BitAcc,
    pub ac: BitAcc,
    pub run: u32,
    pub pred: i16,
}

// A plane's start: nothing waits, and the prediction is 0.
pub fn begin(at: Positions) -> PlaneState
    ensures { result ≡ start_of (positions_by at) }
{
    PlaneState {
        dc: BitAcc::starting_at(at.dc),
        ac: BitAcc::starting_at(at.ac),
        run: 0,
        pred: 0,
    }
}

// Ends both streams: the zeros that wait become a run, and zero bits fill the last bytes.
pub fn end(s: PlaneState, dcs: &mut [u8], acs: &mut [u8]) -> Positions
    requires { EndRoom s dcs.old acs.old }
    ensures { Ended s dcs.old acs.old (positions_by result) dcs.new acs.new }
{
    let a = bitwriter::align(bitwriter::put_run(s.ac, s.run, acs), acs);
    let d = bitwriter::align(s.dc, dcs);
    Positions {
        dc: d.pos,
        ac: a.pos,
    }
}
