// The calls about frames: geometry, reading, a slice's streams as positions, building, what is shown.
//
// A call answers document 01's number, 0 where it is accepted, and leaves the rest of its answer in the places that its
// caller lends for it. A refused call leaves them as they were; a refused part has offset 0 and length 0.
//
// Numbers stand for truth values, kinds and verdicts, and each part of an answer has a place of its own: that is the C interface.
ghost use Rattle.std.specs.Prelude.{◌≡◌};
ghost use Rattle.layout.specs.Geometry.{layout_of, interlace_capable_of, layout_row, preview_size_of};
ghost use Rattle.parser.specs.Frame.{parse_of, view_of};
ghost use Rattle.views.specs.Table.{all_views_of};
ghost use Rattle.tables.specs.Quality.{quality_preset};
ghost use Rattle.builder.specs.Build.{header_of};
ghost use Rattle.builder.specs.streams.Put.{stream_of, complete_of};
ghost use Rattle.shown.specs.Shown.{time_of};
ghost use Rattle.outs.specs.frame.Outs.{is_on, flag_of, handed, handed_by, row_places, row_parts, preview_places, preview_parts};
ghost use Rattle.outs.specs.frame.Outs.{layout_places, layout_parts, frame_places, frame_parts, view_places, view_parts, empty_part};
ghost use Rattle.outs.specs.frame.Outs.{build_places, build_parts};
ghost use Rattle.vmx.specs.Frames.{state_of, shown_at, shown_places, shown_parts, nothing_shown, streams_as, streams_by};

use ask::limits::ROWS;
use builder::Builder;
use layout::{FrameSize, Layout};

// The geometry of a frame size: strides in samples, stream limits in bytes.
pub fn vmx_layout(
    width: usize,
    height: usize,
    aligned_height: &mut usize,
    slices: &mut usize,
    luma: &mut usize,
    chroma: &mut usize,
    max_dc_len: &mut usize,
    max_ac_len: &mut usize,
) -> u32
    ensures { handed result
        (layout_places aligned_height.new slices.new luma.new chroma.new
        max_dc_len.new max_ac_len.new)
        ≡ handed_by (layout_of width height) layout_parts
        (layout_places aligned_height.old slices.old luma.old chroma.old
        max_dc_len.old max_ac_len.old) }
{
    let r = Layout::new(width, height);
    outs::frame::layout_out(
        r,
        aligned_height,
        slices,
        luma,
        chroma,
        max_dc_len,
        max_ac_len,
    )
}

// Whether a frame of this size is interlaced when it says so: 1 or 0.
#[tactic(auto, using(layout::proofs::Laws::fits))]
pub fn vmx_interlace_capable(width: usize, height: usize, capable: &mut u32) -> u32
    ensures { handed result capable.new ≡ handed_by (interlace_capable_of width height) flag_of capable.old }
{
    match FrameSize::new(width, height) {
        Err(no) => no.number(),
        Ok(size) => {
            *capable = outs::frame::flag(layout::interlace_capable(size.height));
            0
        }
    }
}

// Whether a coded row is a row of the image (1) or padding (0), and which one; of padding nothing is said.
#[tactic(auto, using(layout::proofs::Laws::fits))]
pub fn vmx_image_row(
    width: usize,
    height: usize,
    r: usize,
    interlaced: u32,
    there: &mut u32,
    row: &mut usize,
) -> u32
    ensures { handed result (row_places there.new row.new)
        ≡ handed_by (layout_row width height r (is_on interlaced)) (row_parts row.old)
        (row_places there.old row.old) }
{
    match FrameSize::new(width, height) {
        Err(no) => no.number(),
        Ok(size) => {
            let a = layout::image_row(size.height, r, 0 < interlaced);
            *there = outs::frame::row_out(a, row);
            0
        }
    }
}

// The width and the height of the 1/8 preview.
#[tactic(auto, using(layout::proofs::Laws::fits))]
pub fn vmx_preview_size(
    width: usize,
    height: usize,
    interlaced: u32,
    preview_width: &mut usize,
    preview_height: &mut usize,
) -> u32
    ensures { handed result (preview_places preview_width.new preview_height.new)
        ≡ handed_by (preview_size_of width height (is_on interlaced)) preview_parts
        (preview_places preview_width.old preview_height.old) }
{
    match FrameSize::new(width, height) {
        Err(no) => no.number(),
        Ok(size) => {
            *preview_width = layout::preview_width(size.width);
            *preview_height = layout::preview_height(size.height, 0 < interlaced);
            0
        }
    }
}

// The quality that is in force for a quality asked, and its preset.
pub fn vmx_quality_preset(quality: u8, kept: &mut u8, preset: &mut usize)
    ensures { (kept.new ≡ (quality_preset quality).quality) × (preset.new ≡ (quality_preset quality).index) }
{
    outs::frame::quality_out(quality, kept, preset);
}

// What a frame's header says, after all questions about the frame.
pub fn vmx_parse(
    width: usize,
    height: usize,
    frame: &[u8],
    interlaced: &mut u32,
    quality: &mut u32,
    dc_shift: &mut u32,
    header_len: &mut usize,
    ac: &mut u32,
) -> u32
    ensures { handed result
        (frame_places interlaced.new quality.new dc_shift.new header_len.new ac.new)
        ≡ handed_by (parse_of width height frame.now) frame_parts
        (frame_places interlaced.old quality.old dc_shift.old header_len.old ac.old) }
{
    let r = parser::parse(width, height, frame);
    outs::frame::frame_out(r, interlaced, quality, dc_shift, header_len, ac)
}

// The same, and where all streams of the frame lie: two numbers each, offset and length, the DC streams of all slices in
// order, then the AC streams of all slices; 0 and 0 for each AC stream of a frame without.
pub fn vmx_streams(
    width: usize,
    height: usize,
    frame: &[u8],
    views: &mut [u32],
    interlaced: &mut u32,
    quality: &mut u32,
    dc_shift: &mut u32,
    header_len: &mut usize,
    ac: &mut u32,
) -> u32
    ensures { streams_as views.new (handed result
        (frame_places interlaced.new quality.new dc_shift.new header_len.new ac.new))
        ≡ streams_by (all_views_of width height frame.now views.old)
        (frame_places interlaced.old quality.old dc_shift.old header_len.old ac.old) }
{
    let r = views::all_views(width, height, frame, views);
    outs::frame::frame_out(r, interlaced, quality, dc_shift, header_len, ac)
}

// Where the DC stream (ac 0) or the AC stream (any other) of a slice lies in the frame, and its length.
pub fn vmx_stream(
    width: usize,
    height: usize,
    frame: &[u8],
    ac: u32,
    slice: usize,
    offset: &mut usize,
    len: &mut usize,
) -> u32
    ensures { handed result (view_places offset.new len.new)
        ≡ handed_by (view_of width height frame.now (is_on ac) slice) view_parts empty_part }
{
    let kind = outs::frame::kind_of(ac);
    let r = parser::view_at(width, height, frame, kind, slice);
    outs::frame::view_out(r, offset, len)
}

// Writes a frame's header at `at`, and hands out the state in which the first DC stream has its turn.
pub fn vmx_frame_start(
    width: usize,
    height: usize,
    interlaced: u32,
    quality: u8,
    dc_shift: u32,
    out: &mut [u8],
    ac_turn: &mut u32,
    next: &mut usize,
    at: &mut usize,
) -> u32
    ensures { handed result
        (build_places out.new ac_turn.new next.new at.new)
        ≡ handed_by (header_of width height (is_on interlaced) quality dc_shift out.old at.old) build_parts
        (build_places out.old ac_turn.old next.old at.old) }
{
    let start = *at;
    let r = builder::start_frame(
        width,
        height,
        0 < interlaced,
        quality,
        Some(dc_shift),
        out,
        start,
    );
    outs::frame::header_out(r, ac_turn, next, at)
}

// Puts the DC stream (ac 0) or the AC stream (any other) of a slice after what was written.
pub fn vmx_frame_put(
    width: usize,
    height: usize,
    ac: u32,
    slice: usize,
    stream: &[u8],
    out: &mut [u8],
    ac_turn: &mut u32,
    next: &mut usize,
    at: &mut usize,
) -> u32
    ensures { handed result
        (build_places out.new ac_turn.new next.new at.new)
        ≡ handed_by (stream_of width height (state_of ac_turn.old next.old at.old)
        (is_on ac) slice stream.now out.old) build_parts
        (build_places out.old ac_turn.old next.old at.old) }
{
    let kind = outs::frame::kind_of(ac);
    let turn = 0 < *ac_turn;
    let first = *next;
    let start = *at;
    let b = Builder::new(turn, first, start);
    let r = builder::streams::put_stream(width, height, b, kind, slice, stream, out);
    outs::frame::stream_out(r, ac_turn, next, at)
}

// Whether the frame is complete (1) or not (0), by whose turn it is: all DC streams are there, and the AC streams of all
// slices or of none.
pub fn vmx_frame_complete(
    width: usize,
    height: usize,
    ac_turn: u32,
    next: usize,
    complete: &mut u32,
) -> u32
    ensures { handed result complete.new
        ≡ handed_by (complete_of width height (is_on ac_turn) next) flag_of complete.old }
{
    let r = builder::streams::complete(width, height, 0 < ac_turn, next);
    outs::frame::complete_out(r, complete)
}

// In which of two pictures of so many samples the slice's sixteen rows lie (1 the new one, 0 the held one), and where.
#[tactic(auto, using(shown::proofs::Laws::shows, crate::proofs::Laws::shown_refused, crate::proofs::Laws::shown_there))]
pub fn vmx_shown_rows(
    new: usize,
    held: usize,
    stride: usize,
    slice: usize,
    verdict: u32,
    from_new: &mut u32,
    offset: &mut usize,
    len: &mut usize,
) -> u32
    ensures { handed result (shown_places from_new.new offset.new len.new)
        ≡ handed_by (shown_at stride slice verdict new held) shown_parts (nothing_shown from_new.old) }
{
    match shown::shown_asked(new, held, stride, slice) {
        Err(no) => {
            *offset = 0;
            *len = 0;
            no.number()
        }
        Ok(()) => {
            let n = ROWS * stride;
            *from_new = outs::frame::from_new(verdict);
            *offset = slice * n;
            *len = n;
            0
        }
    }
}

// The time that is shown: the new one if the slice was accepted, the held one if not.
pub fn vmx_shown_time(new: u64, held: u64, verdict: u32) -> u64
    ensures { result ≡ time_of verdict new held }
{
    shown::shown_time(new, held, verdict)
}
