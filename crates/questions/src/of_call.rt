// The questions 1 to 7 to calls on planes and slices, over numbers: each call's first "no".
// Rows and streams are named by their lengths. Any numbers whatever are allowed; no sum or product overflows.
ghost use Rattle.ask.specs.Refusals.{given};
ghost use Rattle.calls.specs.Questions.{reading_questions};
ghost use Rattle.questions.specs.of_call.Numbers.{PlaneNumber, SliceNumber};
ghost use Rattle.slice.specs.Room.{coding_questions};

use ask::Refusal;
use calls::{Four, Settings, Shape, Streams};

// To a call that codes one plane.
pub fn coding_plane(s: Settings, h: Shape, rows: usize, streams: Streams) -> Result<(), Refusal>
    ensures { PlaneNumber coding_questions s h rows streams (given result) }
{
    let which = ask::place_ok(h.place);
    let strides = ask::stride_ok(h.stride);
    let long = ask::rows_ok(h.stride, rows);
    crate::order::coding(s, which, strides, long, h.stride / 8, streams)
}

// To a call that reads one plane.
pub fn reading_plane(s: Settings, h: Shape, rows: usize, streams: Streams) -> Result<(), Refusal>
    ensures { PlaneNumber reading_questions s h rows streams (given result) }
{
    let which = ask::place_ok(h.place);
    let strides = ask::stride_ok(h.stride);
    let long = ask::rows_ok(h.stride, rows);
    crate::order::reading(s, which, strides, long, streams)
}

// To a call that codes the first of four planes; the others are not asked about.
pub fn coding_slice(s: Settings, f: Four, rows: [usize; 4], streams: Streams) -> Result<(), Refusal>
    ensures { SliceNumber coding_questions s f rows streams (given result) }
{
    let which = ask::count_ok(f.count);
    let strides = crate::four::strides_ok(f);
    let long = crate::four::rows_ok(f, rows);
    let columns = crate::four::columns(f);
    crate::order::coding(s, which, strides, long, columns, streams)
}

// To a call that reads the first of four planes.
pub fn reading_slice(
    s: Settings,
    f: Four,
    rows: [usize; 4],
    streams: Streams,
) -> Result<(), Refusal>
    ensures { SliceNumber reading_questions s f rows streams (given result) }
{
    let which = ask::count_ok(f.count);
    let strides = crate::four::strides_ok(f);
    let long = crate::four::rows_ok(f, rows);
    crate::order::reading(s, which, strides, long, streams)
}
