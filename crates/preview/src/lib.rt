// The preview of a plane, from its DC stream alone (slice.rs, decode_plane_preview).
// The stream is judged before a byte is stored.
#![tactic(auto)]

pub mod report;
pub mod row;

ghost use Rattle.std.specs.Prelude.{◌≡◌};
ghost use Rattle.ask.specs.Refusals.{given};
ghost use Rattle.calls.specs.Previews.{preview};
ghost use Rattle.preview.specs.Answer.{PreviewNumber, preview_says, preview_told};

use ask::{Refusal, ask};
use calls::{Shape, Stream};

// The questions; the two outputs have room for so many bytes.
#[tactic(auto, unfolding(ask::specs::Ask::first_no, calls::specs::Questions::preview_questions))]
fn preview_asked(
    shift: u32,
    h: Shape,
    upper: usize,
    lower: usize,
    dc: Stream,
) -> Result<(), Refusal>
    ensures { PreviewNumber shift h upper lower dc (given result) }
{
    let columns = h.stride / 8;
    ask(ask::shift_ok(shift), Refusal::Shift)?;
    ask(ask::place_ok(h.place), Refusal::Plane)?;
    ask(ask::stride_ok(h.stride), Refusal::Stride)?;
    ask(columns <= upper && columns <= lower, Refusal::Rows)?;
    ask(
        ask::start_ok(dc.at) && ask::dc_read_ok(dc.len),
        Refusal::Start,
    )
}

// One byte a block, two output rows; and the byte where the plane's DC stream ends.
pub fn preview(
    shift: u32,
    h: Shape,
    upper: &mut [u8],
    lower: &mut [u8],
    dc: &[u8],
    at: usize,
) -> Result<usize, Refusal>
    ensures { preview_says at result upper.new lower.new
        ≡ preview_told (preview shift h.place h.stride upper.old lower.old dc.now at) }
{
    preview_asked(shift, h, upper.len(), lower.len(), Stream::of(dc, at))?;
    let columns = h.stride / 8;
    ask(acread::through::dc_good(dc, at, columns), Refusal::Code)?;
    Ok(crate::row::store_preview(shift, h.place, columns, upper, lower, dc, at))
}
