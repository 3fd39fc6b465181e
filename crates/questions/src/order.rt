// The order of the questions and what each is refused with; some come answered.
ghost use Rattle.std.specs.Prelude.{◌≡◌};
ghost use Rattle.ask.specs.Ask.{first_no};
ghost use Rattle.ask.specs.Refusals.{given};
ghost use Rattle.calls.specs.Questions.{first_five};
ghost use Rattle.calls.specs.Views.{lengths_by, starts_by};
ghost use Rattle.questions.specs.order.Order.{coding_by, reading_by};

use ask::limits::{AC_COLUMN_BYTES, DC_COLUMN_BYTES};
use ask::{Refusal, ask};
use calls::{Settings, Streams};

// Questions 1 to 5, which coding and reading calls share.
#[tactic(auto, unfolding(ask::specs::Ask::first_no))]
fn first_five(s: Settings, which: bool, strides: bool, rows: bool) -> Result<(), Refusal>
    ensures { given result ≡ first_no (first_five s.preset s.shift which strides rows) }
{
    ask(ask::preset_ok(s.preset), Refusal::Preset)?;
    ask(ask::shift_ok(s.shift), Refusal::Shift)?;
    ask(which, Refusal::Plane)?;
    ask(strides, Refusal::Stride)?;
    ask(rows, Refusal::Rows)
}

// A coding call.
#[tactic(auto, using(crate::proofs::order::Laws::early, crate::proofs::order::Laws::late), unfolding(ask::specs::Ask::first_no))]
pub fn coding(
    s: Settings,
    which: bool,
    strides: bool,
    rows: bool,
    columns: usize,
    streams: Streams,
) -> Result<(), Refusal>
    ensures { given result ≡ first_no (coding_by s.preset s.shift which strides rows columns (lengths_by streams) (starts_by streams)) }
{
    first_five(s, which, strides, rows)?;
    let Streams { dc, ac } = streams;
    let dc_room = ask::room_ok(dc.at, DC_COLUMN_BYTES, columns, dc.len);
    let ac_room = ask::room_ok(ac.at, AC_COLUMN_BYTES, columns, ac.len);
    ask(dc_room && ac_room, Refusal::Room)?;
    ask(ask::start_ok(dc.at) && ask::start_ok(ac.at), Refusal::Start)
}

// A reading call.
#[tactic(auto, using(crate::proofs::order::Laws::early, crate::proofs::order::Laws::late), unfolding(ask::specs::Ask::first_no))]
pub fn reading(
    s: Settings,
    which: bool,
    strides: bool,
    rows: bool,
    streams: Streams,
) -> Result<(), Refusal>
    ensures { given result ≡ first_no (reading_by s.preset s.shift which strides rows (lengths_by streams) (starts_by streams)) }
{
    first_five(s, which, strides, rows)?;
    let Streams { dc, ac } = streams;
    let starts = ask::start_ok(dc.at) && ask::start_ok(ac.at);
    let lengths = ask::dc_read_ok(dc.len) && ask::ac_read_ok(ac.len);
    ask(starts && lengths, Refusal::Start)
}
