// The places of all streams of a frame at once, in a lent table: two numbers each.
#![tactic(auto)]

pub mod both;
pub mod walk;

ghost use Rattle.std.specs.Prelude.{◌≡◌, ◌∷◌, ◌*◌, ◌≤◌, leb, length, IfOk};
ghost use Rattle.ask.specs.Ask.{first_no};
ghost use Rattle.ask.specs.Refusals.{given};
ghost use Rattle.layout.specs.Geometry.{size_question, slice_count};
ghost use Rattle.parser.specs.head.Header.{header_questions};
ghost use Rattle.parser.specs.Views.{frame_says};
ghost use Rattle.views.specs.Table.{table_question, views_as, all_views_of};

use ask::{Refusal, ask};
use layout::FrameSize;
use parser::head::Header;

// Whether the table has two numbers for each stream, four for each slice.
fn table_ok(size: FrameSize, room: usize) -> bool
    ensures { result ≡ leb (4 * slice_count size.height) room }
{
    4 * layout::slice_count(size.height) <= room
}

// Question 9, the table's question and those about the header; the frame's size.
#[tactic(auto, unfolding(ask::specs::Ask::first_no))]
fn views_asked(width: usize, height: usize, frame: &[u8], room: usize) -> Result<FrameSize, Refusal>
    ensures asked { given result ≡ first_no (size_question width height ∷ table_question height room ∷ header_questions width height frame.now) }
    ensures legal { IfOk result (λ size. (size.width ≡ width) × (size.height ≡ height) × (5 ≤ length frame.now)) }
{
    let size = FrameSize::new(width, height)?;
    ask(table_ok(size, room), Refusal::Rows)?;
    parser::head::header_asked(width, height, frame)
}

// All views of a frame into the table, and what its header says.
#[tactic(auto, using(crate::proofs::Laws::views_no, crate::proofs::Laws::views_yes, crate::proofs::Laws::tabled))]
pub fn all_views(
    width: usize,
    height: usize,
    frame: &[u8],
    table: &mut [u32],
) -> Result<Header, Refusal>
    ensures { views_as (frame_says result) table.new ≡ all_views_of width height frame.now table.old }
{
    let size = views_asked(width, height, frame, table.len())?;
    let ac = both::walk_any(size, frame, table)?;
    Ok(parser::head::header_of(size.height, frame, ac))
}
