// The header of a frame (layout.rs).
//
// It is a format byte, the quality and the slice count modulo 256; a format byte of 3 is followed by the DC shift and a
// second format byte.
//
// That five bytes are there stands in each contract, and in no type: `format_at` and `header_of` may be called for any height.
ghost use Rattle.std.specs.Prelude.{◌≡◌, ◌≤◌, length, IfOk};
ghost use Rattle.ask.specs.Ask.{first_no};
ghost use Rattle.ask.specs.Refusals.{given};
ghost use Rattle.parser.specs.head.Header.{format_at, format_ok, shift_in, is_interlaced, slice_count_ok, header_questions, frame_read};
ghost use Rattle.parser.specs.head.Views.{header_says};

use ask::{Refusal, ask};
use layout::FrameSize;

// What is read of a frame's header, and whether AC streams follow.
#[derive(Clone, Copy, Debug, PartialEq, Eq, Hash)]
pub struct Header {
    pub interlaced: bool,
    pub quality: u8,
    pub dc_shift: u8,
    pub header_len: usize,
    pub ac: bool,
}

// Where the format byte that says progressive or interlaced stands.
pub fn format_at(f: &[u8]) -> usize
    requires { 5 ≤ length f.now }
    ensures { result ≡ format_at f.now }
{
    if f[0] == 3 { 2 } else { 0 }
}

fn is_interlaced(f: &[u8], height: usize) -> bool
    requires { 5 ≤ length f.now }
    ensures { result ≡ is_interlaced height f.now }
{
    f[format_at(f)] != 1 && layout::interlace_capable(height)
}

// Whether the slice count in the header is the layout's, modulo 256.
fn slice_count_ok(size: FrameSize, f: &[u8]) -> bool
    requires { 5 ≤ length f.now }
    ensures { result ≡ slice_count_ok size.height f.now }
{
    usize::from(f[format_at(f) + 2]) == layout::slice_count(size.height) % 256
}

// The DC shift that the header names, 0 where it names none.
fn shift_in(f: &[u8]) -> u8
    requires { 5 ≤ length f.now }
    ensures { result ≡ shift_in f.now }
{
    if f[0] == 3 { f[1] } else { 0 }
}

// Whether the first byte is 1, 2 or 3.
fn format_ok(f: &[u8]) -> bool
    requires { 5 ≤ length f.now }
    ensures { result ≡ format_ok f.now }
{
    1 <= f[0] && f[0] <= 3
}

// The questions about the header; the frame's size. The bytes are asked about only where the size is legal and five bytes are
// there.
#[tactic(auto, unfolding(crate::specs::head::Header::header_questions, ask::specs::Ask::first_no))]
pub fn header_asked(width: usize, height: usize, f: &[u8]) -> Result<FrameSize, Refusal>
    ensures asked { given result ≡ first_no (header_questions width height f.now) }
    ensures legal { IfOk result (λ size. (size.width ≡ width) × (size.height ≡ height) × (5 ≤ length f.now)) }
{
    let size = FrameSize::new(width, height)?;
    ask(5 <= f.len(), Refusal::Bytes)?;
    ask(format_ok(f), Refusal::Format)?;
    ask(ask::shift_ok(u32::from(shift_in(f))), Refusal::Shift)?;
    ask(slice_count_ok(size, f), Refusal::Count)?;
    Ok(size)
}

// What the header says.
pub fn header_of(height: usize, f: &[u8], ac: bool) -> Header
    requires { 5 ≤ length f.now }
    ensures { header_says result ≡ frame_read height f.now ac }
{
    let at = format_at(f);
    Header {
        interlaced: is_interlaced(f, height),
        quality: f[at + 1],
        dc_shift: shift_in(f),
        header_len: at + 3,
        ac,
    }
}
