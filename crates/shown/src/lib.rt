// Shown rows: of two lent pictures, the new one and the held one, what a viewer sees of a slice.
//
// The verdict of a slice is the number that its reading call gave, and not a `Refusal`: C hands it over, and any number but 0
// is a refused slice. A slice that was accepted (0) is shown out of the new picture, any other out of the held one: old and
// new blocks never stand side by side under one time.
#![tactic(auto)]

ghost use Rattle.std.specs.Prelude.{◌≡◌, leb};
ghost use Rattle.ask.specs.Ask.{first_no};
ghost use Rattle.ask.specs.Refusals.{answer, given};
ghost use Rattle.shown.specs.Shown.{up_to_end, shown_questions, shown_of, picked, was_accepted, time_of};

use ask::limits::{ROWS, SLICES_MAX};
use ask::{Refusal, ask};

// Whether a picture of n samples reaches the end of the slice. Compared by division: no product overflows.
#[tactic(auto, using(crate::proofs::Laws::reach, crate::proofs::Laws::reach_none))]
fn reaches(n: usize, stride: usize, slice: usize) -> bool
    ensures { result ≡ leb (up_to_end stride slice) n }
{
    if stride == 0 {
        return true;
    }
    slice < n / ROWS / stride
}

// The questions in their order; the pictures have so many samples.
#[tactic(auto, unfolding(crate::specs::Shown::shown_questions, ask::specs::Ask::first_no))]
pub fn shown_asked(new: usize, held: usize, stride: usize, slice: usize) -> Result<(), Refusal>
    ensures { given result ≡ first_no (shown_questions stride slice new held) }
{
    ask(ask::stride_ok(stride), Refusal::Stride)?;
    ask(
        reaches(new, stride, slice) && reaches(held, stride, slice),
        Refusal::Rows,
    )?;
    ask(slice < SLICES_MAX, Refusal::Turn)
}

// The new one if the slice was accepted, the held one if not.
fn picked<T: Copy>(new: T, held: T, verdict: u32) -> T
    ensures { result ≡ picked (was_accepted verdict) new held }
{
    if verdict == 0 { new } else { held }
}

// The slice's sixteen rows, out of the new picture if it was accepted, out of the held one if not.
#[tactic(auto, using(crate::proofs::Laws::shows, crate::proofs::Laws::in_picture, crate::proofs::Laws::shown, ask::proofs::Asked::asked_no), unfolding(crate::specs::Shown::shown_of))]
pub fn shown_rows<'a, T>(
    new: &'a [T],
    held: &'a [T],
    stride: usize,
    slice: usize,
    verdict: u32,
) -> Result<&'a [T], Refusal>
    ensures { answer (λ part. part.now) result ≡ shown_of stride slice verdict new.now held.now }
{
    shown_asked(new.len(), held.len(), stride, slice)?;
    let n = ROWS * stride;
    let start = slice * n;
    let picture = picked(new, held, verdict);
    Ok(&picture[start..start + n])
}

// The time that is shown: the new one if the slice was accepted, the held one if not.
#[tactic(auto, unfolding(crate::specs::Shown::time_of))]
pub fn shown_time(new: u64, held: u64, verdict: u32) -> u64
    ensures { result ≡ time_of verdict new held }
{
    picked(new, held, verdict)
}
