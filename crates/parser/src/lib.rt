// Reading the compressed frame container (layout.rs).
//
// A frame is a header, then the DC streams of all slices in order, then the AC streams of all slices or of none.
#![tactic(auto)]

pub mod head;
pub mod streams;

ghost use Rattle.std.specs.Prelude.{◌≡◌, [], ◌∷◌, ◌+◌, ◌<◌, ◌≤◌, ltb, length, IfOk};
ghost use Rattle.ask.specs.Ask.{accepted, ask, asked};
ghost use Rattle.ask.specs.Numbers.{no_turn};
ghost use Rattle.ask.specs.Refusals.{answer};
ghost use Rattle.layout.specs.Views.{is_ac};
ghost use Rattle.parser.specs.streams.Streams.{streams};
ghost use Rattle.parser.specs.Frame.{parse_of, nth_stream, view_of, bytes_of};
ghost use Rattle.parser.specs.Views.{frame_says, view_says};

use crate::head::Header;
use ask::{Refusal, ask};
use layout::Kind;

// Where a stream lies in the caller's frame, and its length.
#[derive(Clone, Copy, Debug, PartialEq, Eq, Hash)]
pub struct View {
    pub offset: usize,
    pub len: usize,
}

// Reads a frame's header and walks its streams: the answer to all questions about the frame.
#[tactic(auto, using(crate::proofs::Laws::frame_no, crate::proofs::Laws::dc_no, crate::proofs::Laws::dc_only, crate::proofs::Laws::ac_no, crate::proofs::Laws::ac_too, crate::proofs::Laws::dc_walk, crate::proofs::Laws::ac_walk))]
pub fn parse(width: usize, height: usize, frame: &[u8]) -> Result<Header, Refusal>
    ensures { frame_says result ≡ parse_of width height frame.now }
{
    let size = head::header_asked(width, height, frame)?;
    let slices = layout::slice_count(size.height);
    let start = head::format_at(frame) + 3;
    let q = streams::walk(frame, slices, layout::max_dc_len(size.width), start)?;
    if q < frame.len() {
        streams::walk(frame, slices, layout::max_ac_len(size.width), q)?;
        return Ok(head::header_of(height, frame, true));
    }
    Ok(head::header_of(height, frame, false))
}

// Of the n streams at p: where the one after `skip` others begins, if it is one of them, and the place after them all.
#[tactic(auto, using(crate::proofs::Laws::past, crate::proofs::Laws::past_no))]
fn walk_past(
    f: &[u8],
    n: usize,
    limit: usize,
    p: usize,
    skip: usize,
) -> Result<(usize, usize), Refusal>
    requires { p ≤ length f.now }
    ensures after { answer (λ places. places.1) result ≡ streams n limit f.now p }
    ensures noted { IfOk result (λ places. skip < n → streams skip limit f.now p ≡ accepted places.0) }
    ensures inside { IfOk result (λ places. (places.0 ≤ length f.now) × (places.1 ≤ length f.now)) }
{
    let k = skip.min(n);
    let q = streams::walk(f, k, limit, p)?;
    let end = streams::walk(f, n - k, limit, q)?;
    Ok((q, end))
}

// The part of the stream at q, which is that of a slice; refused where the slice is none of the n. A stream is read only of a
// slice that is there.
#[tactic(auto, unfolding(crate::specs::Frame::nth_stream, crate::specs::streams::Streams::streams, ask::specs::Ask::asked, ask::specs::Ask::first_no))]
fn part_at(f: &[u8], limit: usize, q: usize, slice: usize, n: usize) -> Result<View, Refusal>
    requires { slice < n → q ≤ length f.now }
    ensures view { view_says result ≡ asked (ask (ltb slice n) no_turn ∷ []) (nth_stream 0 limit f.now q) }
    ensures inside { IfOk result (λ view. view.offset + view.len ≤ length f.now) }
{
    ask(slice < n, Refusal::Turn)?;
    let end = streams::one_stream(f, limit, q)?;
    Ok(View {
        offset: q + 4,
        len: end - (q + 4),
    })
}

// Where the DC or AC stream of a slice lies in the frame, and its length: noted while all streams are judged.
#[tactic(auto, using(crate::proofs::Laws::frame_no, crate::proofs::Laws::dc_no, crate::proofs::Laws::dc_only, crate::proofs::Laws::ac_no, crate::proofs::Laws::ac_too, crate::proofs::Laws::dc_walk, crate::proofs::Laws::ac_walk, crate::proofs::Laws::nth_from, crate::proofs::Laws::dc_nth, crate::proofs::Laws::ac_nth, crate::proofs::Laws::view_no, crate::proofs::Laws::dc_wanted, crate::proofs::Laws::ac_wanted, crate::proofs::Laws::ac_missing))]
pub fn view_at(
    width: usize,
    height: usize,
    frame: &[u8],
    kind: Kind,
    slice: usize,
) -> Result<View, Refusal>
    ensures view { view_says result ≡ view_of width height frame.now (is_ac kind) slice }
    ensures inside { IfOk result (λ view. view.offset + view.len ≤ length frame.now) }
{
    let size = head::header_asked(width, height, frame)?;
    let slices = layout::slice_count(size.height);
    let start = head::format_at(frame) + 3;
    let max_dc_len = layout::max_dc_len(size.width);
    let max_ac_len = layout::max_ac_len(size.width);
    let (dc, q) = walk_past(frame, slices, max_dc_len, start, slice)?;
    if q < frame.len() {
        let (ac, _) = walk_past(frame, slices, max_ac_len, q, slice)?;
        return match kind {
            Kind::Dc => part_at(frame, max_dc_len, dc, slice, slices),
            Kind::Ac => part_at(frame, max_ac_len, ac, slice, slices),
        };
    }
    match kind {
        Kind::Dc => part_at(frame, max_dc_len, dc, slice, slices),
        Kind::Ac => Err(Refusal::Turn),
    }
}

// The DC or AC stream of a slice, as that part of the caller's frame.
pub fn stream<'a>(
    width: usize,
    height: usize,
    frame: &'a [u8],
    kind: Kind,
    slice: usize,
) -> Result<&'a [u8], Refusal>
    ensures { answer (λ part. part.now) result ≡ bytes_of frame.now (view_of width height frame.now (is_ac kind) slice) }
{
    let view = view_at(width, height, frame, kind, slice)?;
    Ok(&frame[view.offset..view.offset + view.len])
}
