// What a reading call is refused with: the first "no" among the questions, question 8 for a bad code in what it reaches.
// It is known before anything is stored.
ghost use Rattle.ask.specs.Refusals.{given};
ghost use Rattle.calls.specs.Arguments.{buffers};
ghost use Rattle.calls.specs.Views.{positions_by};
ghost use Rattle.judge.specs.verdict.Verdict.{PlaneVerdict, SliceVerdict};

use ask::{Refusal, ask};
use calls::{Four, Positions, Settings, Shape, Streams};
use questions::of_call;

// Of a plane whose rows have so many samples.
pub fn plane(
    s: Settings,
    h: Shape,
    rows: usize,
    dc: &[u8],
    ac: &[u8],
    at: Positions,
) -> Result<(), Refusal>
    ensures { PlaneVerdict s h rows (buffers dc.now ac.now) (positions_by at) (given result) }
{
    of_call::reading_plane(s, h, rows, Streams::of(dc, ac, at))?;
    ask(crate::plane(dc, ac, h.stride / 8, at), Refusal::Code)
}

// Of a slice whose planes' rows have so many samples.
pub fn slice(
    s: Settings,
    f: Four,
    rows: [usize; 4],
    dc: &[u8],
    ac: &[u8],
    at: Positions,
) -> Result<(), Refusal>
    ensures { SliceVerdict s f rows (buffers dc.now ac.now) (positions_by at) (given result) }
{
    of_call::reading_slice(s, f, rows, Streams::of(dc, ac, at))?;
    ask(crate::slice(dc, ac, f, at), Refusal::Code)
}
