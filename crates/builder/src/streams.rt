// Building a frame, its streams (layout.rs, `write`): one by one, each after its length.
//
// It refuses a buffer without room, a size that no frame has, a stream longer than its limit and a stream out of turn; a
// refusal hands the state back as it came and changes no byte. Slice count and limits are those of width and height, found
// anew for each stream: no caller can name others.
ghost use Rattle.std.specs.Prelude.{◌≡◌, ◌+◌, ◌≤◌, ◌<◌, ◌^◌, length, IfOk};
ghost use Rattle.ask.specs.Ask.{first_no};
ghost use Rattle.ask.specs.Refusals.{given};
ghost use Rattle.bits.specs.Lay.{lay};
ghost use Rattle.layout.specs.Geometry.{limit_of};
ghost use Rattle.layout.specs.Views.{is_ac};
ghost use Rattle.builder.specs.Views.{builder_says};
ghost use Rattle.builder.specs.streams.Put.{length_word, same, in_turn, stream_questions, stream_of, after_stream, is_complete, complete_of};
ghost use Rattle.builder.specs.streams.Views.{StreamCall, complete_says};

use crate::Builder;
use ask::{Refusal, ask};
use layout::{FrameSize, Kind};

// A stream that was refused: by which question, and the state as it came.
#[derive(Clone, Copy, Debug, PartialEq, Eq, Hash)]
pub struct Refused {
    pub no: Refusal,
    pub state: Builder,
}

// The longest stream of a kind.
fn limit_for(size: FrameSize, kind: Kind) -> usize
    ensures { result ≡ limit_of (is_ac kind) size.width }
{
    match kind {
        Kind::Dc => layout::max_dc_len(size.width),
        Kind::Ac => layout::max_ac_len(size.width),
    }
}

fn turn_of(b: Builder, kind: Kind) -> bool
    ensures { result ≡ same (is_ac kind) b.ac_turn }
{
    match kind {
        Kind::Dc => !b.ac_turn,
        Kind::Ac => b.ac_turn,
    }
}

fn in_turn(b: Builder, slices: usize, kind: Kind, slice: usize) -> bool
    ensures { result ≡ in_turn slices (is_ac kind) slice (builder_says b) }
{
    slice < slices && turn_of(b, kind) && slice == b.next
}

// The questions about a stream; the frame's size. Only a size that frames have has limits.
#[tactic(auto, unfolding(crate::specs::streams::Put::stream_questions, ask::specs::Ask::first_no))]
fn stream_asked(
    b: Builder,
    width: usize,
    height: usize,
    kind: Kind,
    slice: usize,
    s: &[u8],
    out: &[u8],
) -> Result<FrameSize, Refusal>
    ensures asked { given result ≡ first_no (stream_questions width height (builder_says b) (is_ac kind) slice (length s.now) (length out.now)) }
    ensures legal { IfOk result (λ size. size.height ≡ height) }
{
    ask(crate::fits(out, b.at, 4 + s.len()), Refusal::Room)?;
    let size = FrameSize::new(width, height)?;
    ask(s.len() <= limit_for(size, kind), Refusal::Limit)?;
    let slices = layout::slice_count(size.height);
    ask(in_turn(b, slices, kind, slice), Refusal::Turn)?;
    Ok(size)
}

// Stores a 32-bit length, low byte first.
fn put_length(out: &mut [u8], at: usize, size: u32)
    requires { at + 4 ≤ length out.old }
    ensures { out.new ≡ lay out.old at (length_word size) }
{
    copy::copy_in(out, at, &size.to_le_bytes());
}

// The state after a stream that ends at `at`, in a frame of so many slices.
fn next_state(b: Builder, slices: usize, at: usize) -> Builder
    requires { b.next < slices }
    ensures { builder_says result ≡ after_stream slices (builder_says b) at }
{
    let next = b.next + 1;
    if !b.ac_turn && next == slices {
        return Builder {
            ac_turn: true,
            next: 0,
            at,
        };
    }
    Builder {
        ac_turn: b.ac_turn,
        next,
        at,
    }
}

// Puts the stream of a slice after what was written.
#[tactic(auto, using(crate::proofs::streams::Laws::puts, crate::proofs::streams::Laws::short_stream, layout::proofs::Laws::sized, crate::proofs::streams::Laws::below_count, crate::proofs::streams::Laws::stream_refused, crate::proofs::streams::Laws::stream_done, crate::proofs::streams::Laws::stream_built, bits::proofs::LayLaw::lay_length))]
pub fn put_stream(
    width: usize,
    height: usize,
    b: Builder,
    kind: Kind,
    slice: usize,
    s: &[u8],
    out: &mut [u8],
) -> Result<Builder, Refused>
    ensures { StreamCall b result out.old out.new
        (stream_of width height (builder_says b) (is_ac kind) slice s.now out.old) }
{
    let size = match stream_asked(b, width, height, kind, slice, s, out) {
        Ok(size) => size,
        Err(no) => return Err(Refused { no, state: b }),
    };
    let slices = layout::slice_count(size.height);
    put_length(out, b.at, s.len() as u32);
    copy::copy_in(out, b.at + 4, s);
    Ok(next_state(b, slices, b.at + 4 + s.len()))
}

// Whether a frame of so many slices is complete.
fn is_complete(slices: usize, ac_turn: bool, next: usize) -> bool
    ensures { result ≡ is_complete slices ac_turn next }
{
    ac_turn && (next == 0 || next == slices)
}

// Whether the frame is complete, by whose turn it is: all DC streams are there, and the AC streams of all slices or of none.
#[tactic(auto, using(crate::proofs::streams::Laws::complete_told, crate::proofs::streams::Laws::complete_refused))]
pub fn complete(width: usize, height: usize, ac_turn: bool, next: usize) -> Result<bool, Refusal>
    ensures { complete_says result ≡ complete_of width height ac_turn next }
{
    let size = FrameSize::new(width, height)?;
    Ok(is_complete(layout::slice_count(size.height), ac_turn, next))
}
