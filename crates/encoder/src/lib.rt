// The coding calls of planes and slices: the questions in their order, then the coder. Any arguments whatever are allowed:
// a call that meets a "no" answers its number and the positions that it was given, and has written nothing.
// The buffers of both streams and the rows of four planes are parameters of their own, as C lends them (crate vmx).
#![tactic(auto)]

ghost use Rattle.std.specs.Prelude.{◌≡◌};
ghost use Rattle.calls.specs.Arguments.{buffers};
ghost use Rattle.calls.specs.Views.{plane_call, slice_call, positions_by};
ghost use Rattle.slice.specs.Calls.{encode};
ghost use Rattle.questions.specs.answers.Code.{code_says, code_told};
ghost use Rattle.encoder.specs.Coding.{SliceOk, SliceDone};

use calls::{Four, Positions, Settings, Shape, Streams};
use questions::answers::{Refused, refused_at};
use sample::Sample;

// Codes a plane, each stream from its position on.
pub fn encode_plane<S: Sample>(
    rows: &[S],
    h: Shape,
    s: Settings,
    dcs: &mut [u8],
    acs: &mut [u8],
    at: Positions,
) -> Result<Positions, Refused>
    ensures { code_says result dcs.new acs.new
        ≡ code_told (encode (plane_call S.depth s h (S.samples rows.now)) (buffers dcs.old acs.old) (positions_by at)) }
{
    let streams = Streams::of(dcs, acs, at);
    let asked = questions::of_call::coding_plane(s, h, rows.len(), streams);
    refused_at(asked, at)?;
    Ok(encplane::plane(rows, h, s, dcs, acs, at))
}

// The slice coder on planes that the questions let through: each plane starts where the streams of the plane before end.
// The planes' places are their index.
fn slice<S: Sample>(
    p0: &[S],
    p1: &[S],
    p2: &[S],
    p3: &[S],
    f: Four,
    s: Settings,
    dcs: &mut [u8],
    acs: &mut [u8],
    at: Positions,
) -> Positions
    requires { SliceOk (slice_call S.depth s f (S.samples p0.now) (S.samples p1.now) (S.samples p2.now) (S.samples p3.now))
        (buffers dcs.old acs.old) (positions_by at) }
    ensures { SliceDone (slice_call S.depth s f (S.samples p0.now) (S.samples p1.now) (S.samples p2.now) (S.samples p3.now))
        (buffers dcs.old acs.old) (positions_by at) (positions_by result) (buffers dcs.new acs.new) }
{
    let planes = [p0, p1, p2, p3];
    let mut end = at;
    for place in 0..f.count {
        end = encplane::plane(planes[place], f.shape(place), s, dcs, acs, end);
    }
    end
}

// Codes the first `count` of four planes, places 0 to 3, each stream from its position on.
pub fn encode_slice<S: Sample>(
    p0: &[S],
    p1: &[S],
    p2: &[S],
    p3: &[S],
    f: Four,
    s: Settings,
    dcs: &mut [u8],
    acs: &mut [u8],
    at: Positions,
) -> Result<Positions, Refused>
    ensures { code_says result dcs.new acs.new
        ≡ code_told (encode (slice_call S.depth s f (S.samples p0.now) (S.samples p1.now) (S.samples p2.now) (S.samples p3.now))
        (buffers dcs.old acs.old) (positions_by at)) }
{
    let rows = [p0.len(), p1.len(), p2.len(), p3.len()];
    let streams = Streams::of(dcs, acs, at);
    let asked = questions::of_call::coding_slice(s, f, rows, streams);
    refused_at(asked, at)?;
    Ok(slice(p0, p1, p2, p3, f, s, dcs, acs, at))
}
