// Parts of lent memory that inner functions hand back, copied out: a stream of a frame (crate parser), a slice's rows (crate shown).

// The DC or the AC stream of a slice, and the number of the answer.
#[unsafe(no_mangle)]
pub extern "C" fn probe_parts_stream(
    width: usize,
    height: usize,
    frame: &[u8],
    ac: bool,
    slice: usize,
    number: &mut u32,
    out: &mut [u8],
) -> usize {
    probe::of_parts::probe_parts_stream(width, height, frame, ac, slice, number, out)
}

// A slice's shown rows of 8-bit samples, and the number of the answer.
#[unsafe(no_mangle)]
pub extern "C" fn probe_parts_rows8<'a>(
    new: &'a [u8],
    held: &'a [u8],
    stride: usize,
    slice: usize,
    verdict: u32,
    number: &mut u32,
    out: &mut [u8],
) -> usize {
    probe::of_parts::probe_parts_rows(new, held, stride, slice, verdict, number, out)
}

// The same of 10-bit samples.
#[unsafe(no_mangle)]
pub extern "C" fn probe_parts_rows10<'a>(
    new: &'a [u16],
    held: &'a [u16],
    stride: usize,
    slice: usize,
    verdict: u32,
    number: &mut u32,
    out: &mut [u16],
) -> usize {
    probe::of_parts::probe_parts_rows(new, held, stride, slice, verdict, number, out)
}
