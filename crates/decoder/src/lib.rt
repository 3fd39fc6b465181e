// The reading calls (decode_one_slice of decoder.rs): the verdict (questions in their order, then the judge), then the storing pass.
// Any arguments whatever are allowed: a call that meets a "no", or a bad code, answers its number and the positions that it was given,
// and has stored nothing.
#![tactic(auto)]

ghost use Rattle.std.specs.Prelude.{◌≡◌, [], ◌∷◌};
ghost use Rattle.calls.specs.Arguments.{buffers};
ghost use Rattle.calls.specs.Views.{plane_call, slice_call, positions_by};
ghost use Rattle.slice.specs.Calls.{decode};
ghost use Rattle.questions.specs.answers.Read.{read_says, read_told};
ghost use Rattle.decoder.specs.Storing.{SliceGood, SliceStored};

use calls::{Four, Positions, Settings, Shape};
pub use questions::answers::Refused;
use questions::answers::refused_at;
use sample::Sample;

// Reads a plane into its rows, from these positions on.
pub fn decode_plane<S: Sample>(
    rows: &mut [S],
    h: Shape,
    s: Settings,
    dc: &[u8],
    ac: &[u8],
    at: Positions,
) -> Result<Positions, Refused>
    ensures { read_says result (S.samples rows.new ∷ [])
        ≡ read_told (decode (plane_call S.depth s h (S.samples rows.old)) (buffers dc.now ac.now) (positions_by at)) }
{
    let asked = judge::verdict::plane(s, h, rows.len(), dc, ac, at);
    refused_at(asked, at)?;
    Ok(decplane::plane(rows, h, s, dc, ac, at))
}

// The storing pass over a slice whose streams were judged good: the first planes in order, each from where the streams of the plane
// before end. The planes' places are their index. A straight line: four lent slices of their own lengths are no array to go over here.
fn slice<S: Sample>(
    p0: &mut [S],
    p1: &mut [S],
    p2: &mut [S],
    p3: &mut [S],
    f: Four,
    s: Settings,
    dc: &[u8],
    ac: &[u8],
    at: Positions,
) -> Positions
    requires { SliceGood (slice_call S.depth s f (S.samples p0.old) (S.samples p1.old) (S.samples p2.old) (S.samples p3.old))
        (buffers dc.now ac.now) (positions_by at) }
    ensures { SliceStored (slice_call S.depth s f (S.samples p0.old) (S.samples p1.old) (S.samples p2.old) (S.samples p3.old))
        (buffers dc.now ac.now) (positions_by at) (positions_by result)
        (S.samples p0.new ∷ S.samples p1.new ∷ S.samples p2.new ∷ S.samples p3.new ∷ []) }
{
    let count = f.count;
    let h0 = f.shape(0);
    let e0 = decplane::plane(p0, h0, s, dc, ac, at);
    if count < 2 {
        return e0;
    }
    let h1 = f.shape(1);
    let e1 = decplane::plane(p1, h1, s, dc, ac, e0);
    if count < 3 {
        return e1;
    }
    let h2 = f.shape(2);
    let e2 = decplane::plane(p2, h2, s, dc, ac, e1);
    if count < 4 {
        return e2;
    }
    let h3 = f.shape(3);
    decplane::plane(p3, h3, s, dc, ac, e2)
}

// Reads the first of four planes into their rows; their places are their index.
pub fn decode_slice<S: Sample>(
    p0: &mut [S],
    p1: &mut [S],
    p2: &mut [S],
    p3: &mut [S],
    f: Four,
    s: Settings,
    dc: &[u8],
    ac: &[u8],
    at: Positions,
) -> Result<Positions, Refused>
    ensures { read_says result (S.samples p0.new ∷ S.samples p1.new ∷ S.samples p2.new ∷ S.samples p3.new ∷ [])
        ≡ read_told (decode (slice_call S.depth s f (S.samples p0.old) (S.samples p1.old) (S.samples p2.old) (S.samples p3.old))
        (buffers dc.now ac.now) (positions_by at)) }
{
    let rows = [p0.len(), p1.len(), p2.len(), p3.len()];
    let asked = judge::verdict::slice(s, f, rows, dc, ac, at);
    refused_at(asked, at)?;
    Ok(slice(p0, p1, p2, p3, f, s, dc, ac, at))
}
