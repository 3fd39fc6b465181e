// The size calls: a length that each stream of a plane, or of a slice, is at most: 4 bytes a block for DC, 197 for AC.
ghost use Rattle.std.specs.Prelude.{◌≡◌, ◌≤◌};
ghost use Rattle.ask.specs.Ask.{first_no};
ghost use Rattle.ask.specs.Refusals.{given};
ghost use Rattle.calls.specs.Questions.{plane_size_questions, slice_size_questions};
ghost use Rattle.calls.specs.Previews.{plane_size, slice_size, first_of_four};
ghost use Rattle.calls.specs.Views.{stride_by};
ghost use Rattle.questions.specs.answers.Size.{lengths_said, size_says};
ghost use Rattle.questions.specs.order.Order.{room_of};

use crate::answers::Lengths;
use ask::limits::{AC_COLUMN_BYTES, DC_COLUMN_BYTES};
use ask::{Refusal, ask};
use calls::Four;

// The questions to the size call of a plane.
#[tactic(auto, unfolding(ask::specs::Ask::first_no, calls::specs::Questions::plane_size_questions))]
fn plane_asked(stride: usize) -> Result<(), Refusal>
    ensures { given result ≡ first_no (plane_size_questions stride) }
{
    ask(ask::stride_ok(stride), Refusal::Stride)
}

// The questions to the size call of a slice.
#[tactic(auto, using(crate::proofs::sizes::Laws::strides), unfolding(ask::specs::Ask::first_no, calls::specs::Questions::slice_size_questions))]
fn slice_asked(f: Four) -> Result<(), Refusal>
    ensures { given result ≡ first_no (slice_size_questions f.count (first_of_four f.count (stride_by f 0) (stride_by f 1) (stride_by f 2) (stride_by f 3))) }
{
    ask(ask::count_ok(f.count), Refusal::Plane)?;
    ask(crate::four::strides_ok(f), Refusal::Stride)
}

// Of so many columns of blocks.
fn lengths(columns: usize) -> Lengths
    requires { columns ≤ 3840 }
    ensures { lengths_said result ≡ room_of columns }
{
    Lengths {
        dc: DC_COLUMN_BYTES * columns,
        ac: AC_COLUMN_BYTES * columns,
    }
}

// Of one plane.
#[tactic(auto, using(crate::proofs::sizes::Laws::plane_no, crate::proofs::sizes::Laws::plane_columns, crate::proofs::sizes::Laws::plane_sized))]
pub fn plane_size(stride: usize) -> Result<Lengths, Refusal>
    ensures { size_says result ≡ plane_size stride }
{
    plane_asked(stride)?;
    Ok(lengths(stride / 8))
}

// Of the first of four planes together.
#[tactic(auto, using(crate::proofs::sizes::Laws::slice_no, crate::proofs::sizes::Laws::slice_columns, crate::proofs::sizes::Laws::slice_sized))]
pub fn slice_size(f: Four) -> Result<Lengths, Refusal>
    ensures { size_says result ≡ slice_size f.count (stride_by f 0) (stride_by f 1) (stride_by f 2) (stride_by f 3) }
{
    slice_asked(f)?;
    Ok(lengths(crate::four::columns(f)))
}
