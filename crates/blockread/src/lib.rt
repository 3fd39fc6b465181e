// A plane's blocks, read one by one from both streams (slice.rs, decode_plane without the transform). The bounds of places stay clauses:
// begin's are of bytes (2 ^ 30), ends' of bits (2 ^ 62) after all blocks, so no two are one fact that a type could keep.
#![tactic(auto)]

pub mod block;
pub mod dc;

ghost use Rattle.std.specs.Prelude.{◌≡◌, ◌^◌, ◌<◌};
ghost use Rattle.bits.specs.Bits.{bytes_for};
ghost use Rattle.calls.specs.Views.{positions_by};
ghost use Rattle.blockread.specs.On.{Begun};

use bitreader::AcCursor;
use calls::Positions;

// Between two blocks: where each stream is read next, the zeros of a run that are still to come, the AC bits that the block before
// took (nothing read depends on them), its DC.
#[derive(Clone, Copy, Debug, PartialEq, Eq, Hash)]
pub struct Stand {
    pub dc: AcCursor,
    pub ac: usize,
    pub pending: u64,
    pub before: usize,
    pub last: i16,
}

// A block: its 64 coefficients in natural order, whether no AC symbol was read for it, and what follows.
#[derive(Clone, Copy, Debug, PartialEq, Eq, Hash)]
pub struct BlockGot {
    pub next: Stand,
    pub flat: bool,
    pub nat: [i16; 64],
}

// A plane's start: the streams from these positions on.
pub fn begin(dc: &[u8], at: Positions) -> Stand
    requires { (at.dc < 2 ^ 30) × (at.ac < 2 ^ 30) }
    ensures { Begun dc.now (positions_by at) result }
{
    Stand {
        dc: bitreader::cursor(dc, 8 * at.dc),
        ac: 8 * at.ac,
        pending: 0,
        before: 0,
        last: 0,
    }
}

// The bytes after both streams' codes.
pub fn ends(s: Stand) -> Positions
    requires { (s.dc.pos < 2 ^ 62) × (s.ac < 2 ^ 62) }
    ensures { (result.dc ≡ bytes_for s.dc.pos) × (result.ac ≡ bytes_for s.ac) }
{
    let c = s.dc;
    Positions {
        dc: bitreader::end_byte(c),
        ac: (s.ac + 7) / 8,
    }
}
