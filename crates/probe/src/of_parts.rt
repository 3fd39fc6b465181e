// Parts of lent memory that inner functions hand back, copied out: a stream of a frame (crate parser), a slice's rows (crate shown).
// `number` is a place that C lends for the answer's number: an export hands back no Result.
use ask::{Refusal, number_given};
use layout::Kind;

// Copies a part to the buffer's start, where there is room for all of it. Its length, 0 of none, and the number of the answer. It is a
// loop, since copy_from_slice would be a call of memmove, which the archive would then need from outside.
fn copied<T: Copy>(answer: Result<&[T], Refusal>, number: &mut u32, out: &mut [T]) -> usize {
    *number = number_given(answer.map(|_| ()));
    let part = answer.unwrap_or(&[]);
    if part.len() <= out.len() {
        for (to, from) in out.iter_mut().zip(part) {
            *to = *from;
        }
    }
    part.len()
}

// The DC or the AC stream of a slice, and the number of the answer.
pub fn probe_parts_stream(
    width: usize,
    height: usize,
    frame: &[u8],
    ac: bool,
    slice: usize,
    number: &mut u32,
    out: &mut [u8],
) -> usize {
    let kind = if ac { Kind::Ac } else { Kind::Dc };
    copied(
        parser::stream(width, height, frame, kind, slice),
        number,
        out,
    )
}

// A slice's shown rows, and the number of the answer.
pub fn probe_parts_rows<'a, T: Copy>(
    new: &'a [T],
    held: &'a [T],
    stride: usize,
    slice: usize,
    verdict: u32,
    number: &mut u32,
    out: &mut [T],
) -> usize {
    copied(
        shown::shown_rows(new, held, stride, slice, verdict),
        number,
        out,
    )
}
