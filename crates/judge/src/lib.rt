// Is there a bad code in what a reading call reaches? Judged before any sample is stored.
// A stream without six zero bytes in a row holds none (bitreader::scan); only another is read through. Each stream is judged by itself.
// How far a position may be is said by each contract, and by no type: 2 ^ 30 where a call begins, 2 ^ 31 behind a plane that was read; and
// `Positions` are also what a refused call hands back, any numbers. `columns ≤ 960` is a stride's limit in samples, asked by `questions`.
#![tactic(auto)]

pub mod verdict;

ghost use Rattle.std.specs.Prelude.{◌≡◌, List, ℕ, ◌*◌, ◌^◌, ◌≤◌, ◌<◌};
ghost use Rattle.ask.specs.Limits.{stride_max};
ghost use Rattle.calls.specs.Arguments.{Plane, buffers};
ghost use Rattle.calls.specs.Views.{positions_by};
ghost use Rattle.calls.specs.ReadPlane.{read_plane};
ghost use Rattle.slice.specs.Calls.{read_planes};
ghost use Rattle.acread.specs.through.Through.{end_says};
ghost use Rattle.blockread.specs.On.{good_plane};
ghost use Rattle.judge.specs.Good.{good_planes, strides, first_strides, StridesFit, stream_plane, good_in_turn};

use ask::Refusal;
use calls::{Four, Positions};

// Where one of a plane's streams ends, the DC or the AC stream.
fn through(dc: bool, bytes: &[u8], at: usize, stride: usize) -> Result<usize, Refusal>
    requires { (at < 2 ^ 31) × (stride ≤ stride_max) }
    ensures { end_says result ≡ stream_plane dc bytes.now stride at }
{
    if dc {
        acread::through::through_dc(bytes, at, stride / 8)
    } else {
        acread::through::through_ac(bytes, at, stride / 8)
    }
}

// No bad code in the DC or the AC stream of the first of four planes, from the byte `from` on.
fn stream_good(dc: bool, bytes: &[u8], from: usize, f: Four) -> bool
    requires { (from < 2 ^ 30) × StridesFit f }
    ensures { result ≡ good_in_turn (stream_plane dc bytes.now) (first_strides f) from }
{
    if bitreader::scan::no_six_zeros(bytes, from) {
        return true;
    }
    let mut at = from;
    for stride in f.strides() {
        let Ok(end) = through(dc, bytes, at, *stride) else {
            return false;
        };
        at = end;
    }
    true
}

// No bad code in a plane's two streams, from these positions on.
pub fn plane(dc: &[u8], ac: &[u8], columns: usize, at: Positions) -> bool
    requires { (at.dc < 2 ^ 30) × (at.ac < 2 ^ 30) × (columns ≤ 960) }
    ensures { (shift : ℕ) → result ≡ good_plane (read_plane shift (2 * columns) dc.now ac.now at.dc at.ac) }
{
    acread::through::dc_good(dc, at.dc, columns) && acread::through::ac_good(ac, at.ac, columns)
}

// No bad code in the streams of the first of four planes, from these positions on.
pub fn slice(dc: &[u8], ac: &[u8], f: Four, at: Positions) -> bool
    requires { (at.dc < 2 ^ 30) × (at.ac < 2 ^ 30) × StridesFit f }
    ensures { (shift : ℕ) (ps : List Plane) → strides ps ≡ first_strides f
        → result ≡ good_planes (read_planes shift ps (buffers dc.now ac.now) (positions_by at)) }
{
    stream_good(true, dc, at.dc, f) && stream_good(false, ac, at.ac, f)
}
