// Building a frame (layout.rs, `write`): the header, then the streams one by one, each named by its kind and slice number
// (module builder::streams).
//
// The builder is a state by value over a lent buffer: whose turn it is, and a place. A frame's limits are not in it: each
// call finds them from width and height. It refuses a buffer without room; a refusal changes no byte.
#![tactic(auto)]

pub mod streams;

ghost use Rattle.std.specs.Prelude.{◌≡◌, ◌+◌, ◌≤◌, leb, length, IfOk};
ghost use Rattle.ask.specs.Ask.{first_no};
ghost use Rattle.ask.specs.Refusals.{given};
ghost use Rattle.ask.specs.Limits.{shift_max};
ghost use Rattle.bits.specs.Lay.{lay};
ghost use Rattle.builder.specs.Build.{format_byte, header_bytes, header_size, start_questions, header_of};
ghost use Rattle.builder.specs.Views.{shift_says, builder_says, HeaderCall};

use ask::{Refusal, ask};
use layout::FrameSize;

// Whose turn it is, and where the next byte goes.
#[derive(Clone, Copy, Debug, PartialEq, Eq, Hash)]
pub struct Builder {
    // whether the AC streams have their turn
    ac_turn: bool,
    // the slice number whose stream comes next
    next: usize,
    at: usize,
}

impl Builder {
    // The state out of the numbers that a caller held.
    pub fn new(ac_turn: bool, next: usize, at: usize) -> Builder
        ensures { builder_says result ≡ record { ac_turn = ac_turn; next = next; at = at } }
    {
        Builder { ac_turn, next, at }
    }

    // The three numbers, as a caller holds them between calls.
    pub fn ac_turn(self) -> bool
        ensures { result ≡ (builder_says self).ac_turn }
    {
        self.ac_turn
    }

    pub fn next(self) -> usize
        ensures { result ≡ (builder_says self).next }
    {
        self.next
    }

    pub fn at(self) -> usize
        ensures { result ≡ (builder_says self).at }
    {
        self.at
    }
}

// Whether the bytes that are needed fit from `at` on.
fn fits(out: &[u8], at: usize, needed: usize) -> bool
    ensures { result ≡ leb (at + needed) (length out.now) }
{
    out.get(at..).is_some_and(|rest| needed <= rest.len())
}

fn header_size(shift: u32) -> usize
    ensures { (result ≡ header_size shift) × (result ≤ 5) }
{
    if shift == 0 { 3 } else { 5 }
}

// The questions about the header; the frame's size.
#[tactic(auto, unfolding(crate::specs::Build::start_questions, ask::specs::Ask::first_no))]
fn start_asked(
    width: usize,
    height: usize,
    shift: u32,
    out: &[u8],
    at: usize,
) -> Result<FrameSize, Refusal>
    ensures asked { given result ≡ first_no (start_questions width height shift (length out.now) at) }
    ensures legal { IfOk result (λ size. size.height ≡ height) }
{
    ask(ask::shift_ok(shift), Refusal::Shift)?;
    ask(fits(out, at, header_size(shift)), Refusal::Room)?;
    FrameSize::new(width, height)
}

fn format_byte(interlaced: bool) -> u8
    ensures { result ≡ format_byte interlaced }
{
    if interlaced { 2 } else { 1 }
}

// Stores the header at `at`.
#[tactic(auto, using(crate::proofs::Laws::five, crate::proofs::Laws::short_header, crate::proofs::Laws::long_header, bits::proofs::LayLaw::lay_lay))]
fn put_header(out: &mut [u8], at: usize, interlaced: bool, quality: u8, shift: u32, count: u8)
    requires { (at + header_size shift ≤ length out.old) × (shift ≤ shift_max) }
    ensures { out.new ≡ lay out.old at (header_bytes interlaced quality shift count) }
{
    let f = format_byte(interlaced);
    if shift == 0 {
        copy::put3(out, at, f, quality, count);
    } else {
        copy::put2(out, at, 3, shift as u8);
        copy::put3(out, at + 2, f, quality, count);
    }
}

// Writes the header at `at`, and is then ready for the first DC stream. Where no DC shift is named it writes 0.
#[tactic(auto, using(crate::proofs::Laws::starts, crate::proofs::Laws::header_refused, crate::proofs::Laws::header_yes, crate::proofs::Laws::frame_built))]
pub fn start_frame(
    width: usize,
    height: usize,
    interlaced: bool,
    quality: u8,
    shift: Option<u32>,
    out: &mut [u8],
    at: usize,
) -> Result<Builder, Refusal>
    ensures { HeaderCall result out.old out.new
        (header_of width height interlaced quality (shift_says shift) out.old at) }
{
    let shift = shift.unwrap_or(0);
    let size = start_asked(width, height, shift, out, at)?;
    let slices = layout::slice_count(size.height);
    put_header(out, at, interlaced, quality, shift, (slices % 256) as u8);
    Ok(Builder {
        ac_turn: false,
        next: 0,
        at: at + header_size(shift),
    })
}
