// Frame geometry (layout.rs): the sizes of a frame's planes and streams, and which image row is where.
#![tactic(auto)]

ghost use Rattle.std.specs.Prelude.{◌≡◌, [], ◌∷◌, ◌≤◌, IfOk};
ghost use Rattle.ask.specs.Ask.{first_no};
ghost use Rattle.ask.specs.Refusals.{given};
ghost use Rattle.ask.specs.Limits.{width_max, height_max};
ghost use Rattle.layout.specs.Geometry.{align_up, width_ok, height_ok, size_ok, size_question, layout_of, field_row};
ghost use Rattle.layout.specs.Geometry.{aligned_height, slice_count, max_dc_len, max_ac_len, interlace_capable, image_row_of, preview_width, preview_height};
ghost use Rattle.layout.specs.Views.{layout_says, row_says};

use ask::limits::{HEIGHT_MAX, ROWS, SIDE_MIN, WIDTH_MAX};
use ask::{Refusal, ask};

// Bytes that a stream may have for each sample of plane 0's stride.
const DC_PER_SAMPLE: usize = 32;

const AC_PER_SAMPLE: usize = 56;

// The geometry of one frame size: strides in samples, stream limits in bytes.
#[derive(Clone, Copy, Debug, PartialEq, Eq, Hash)]
pub struct Layout {
    pub width: usize,
    pub height: usize,
    pub aligned_height: usize,
    pub slices: usize,
    // planes 0 and 3
    pub luma: usize,
    // planes 1 and 2
    pub chroma: usize,
    pub max_dc_len: usize,
    pub max_ac_len: usize,
}

// A size that frames have: question 9 is answered yes.
#[derive(Clone, Copy, Debug, PartialEq, Eq, Hash)]
pub struct FrameSize {
    pub width: usize,
    pub height: usize,
    ghost wide: { width ≤ width_max },
    ghost high: { height ≤ height_max },
}

impl FrameSize {
    // The size, or refusal 9.
    #[tactic(auto, using(crate::proofs::Laws::sized_alone))]
    pub fn new(width: usize, height: usize) -> Result<FrameSize, Refusal>
        ensures asked { given result ≡ first_no (size_question width height ∷ []) }
        ensures same { IfOk result (λ size. (size.width ≡ width) × (size.height ≡ height)) }
    {
        size_asked(width, height)?;
        Ok(FrameSize { width, height })
    }
}

fn width_ok(width: usize) -> bool
    ensures { result ≡ width_ok width }
{
    width % 2 == 0 && SIDE_MIN <= width && width <= WIDTH_MAX
}

fn height_ok(height: usize) -> bool
    ensures { result ≡ height_ok height }
{
    SIDE_MIN <= height && height <= HEIGHT_MAX
}

// Whether question 9 is answered yes: width even, 16 to 7,680, height 16 to 4,320.
pub fn size_ok(width: usize, height: usize) -> bool
    ensures { result ≡ size_ok width height }
{
    width_ok(width) && height_ok(height)
}

// Question 9, put alone.
#[tactic(auto, unfolding(ask::specs::Ask::first_no))]
pub fn size_asked(width: usize, height: usize) -> Result<(), Refusal>
    ensures { given result ≡ first_no (size_question width height ∷ []) }
{
    ask(size_ok(width, height), Refusal::Size)
}

// Below, a width's or a height's limit stands in each contract, and in no type: a caller may have one of the two, `FrameSize` has both.

// v rounded up to a multiple of 8.
fn align8(v: usize) -> usize
    requires { v ≤ width_max }
    ensures { result ≡ align_up v 8 }
{
    (v + 7) / 8 * 8
}

// h rounded up to whole slices of 16 rows.
pub fn aligned_height(height: usize) -> usize
    requires { height ≤ height_max }
    ensures { result ≡ aligned_height height }
{
    (height + (ROWS - 1)) / ROWS * ROWS
}

// How many slices a frame has.
pub fn slice_count(height: usize) -> usize
    requires { height ≤ height_max }
    ensures { result ≡ slice_count height }
{
    aligned_height(height) / ROWS
}

// The longest DC stream that a slice may have.
pub fn max_dc_len(width: usize) -> usize
    requires { width ≤ width_max }
    ensures { result ≡ max_dc_len width }
{
    align8(width) * DC_PER_SAMPLE
}

// The longest AC stream that a slice may have.
pub fn max_ac_len(width: usize) -> usize
    requires { width ≤ width_max }
    ensures { result ≡ max_ac_len width }
{
    align8(width) * AC_PER_SAMPLE
}

impl Layout {
    // The geometry of a frame size, or refusal 9.
    #[tactic(auto, using(crate::proofs::Laws::fits, crate::proofs::Laws::no_size_lem))]
    pub fn new(width: usize, height: usize) -> Result<Layout, Refusal>
        ensures { layout_says result ≡ layout_of width height }
    {
        let size = FrameSize::new(width, height)?;
        Ok(Layout {
            width,
            height,
            aligned_height: aligned_height(size.height),
            slices: slice_count(size.height),
            luma: align8(size.width),
            chroma: align8(size.width / 2),
            max_dc_len: max_dc_len(size.width),
            max_ac_len: max_ac_len(size.width),
        })
    }
}

// Whether a frame of this height is interlaced when it says so.
pub fn interlace_capable(height: usize) -> bool
    ensures { result ≡ interlace_capable height }
{
    height == 480 || height == 576 || height == 1080
}

// The image row of a field's row: the top field (parity 0) has the even rows, the bottom field (1) the odd ones.
fn field_row(height: usize, f: usize, parity: usize) -> Option<usize>
    requires { (height ≤ height_max) × (parity ≤ 1) }
    ensures { row_says result ≡ field_row height f parity }
{
    if f < height / 2 {
        return Some(2 * f + parity);
    }
    None
}

// The image row that lies in row r of the coded planes; none of a padding row.
#[tactic(auto, unfolding(crate::specs::Geometry::image_row_of))]
pub fn image_row(height: usize, r: usize, interlaced: bool) -> Option<usize>
    requires { height ≤ height_max }
    ensures { row_says result ≡ image_row_of height r interlaced }
{
    if interlaced {
        let half = aligned_height(height) / 2;
        if r < half {
            return field_row(height, r, 0);
        }
        return field_row(height, r - half, 1);
    }
    if r < height { Some(r) } else { None }
}

// The width of the 1/8 preview.
#[tactic(auto, unfolding(crate::specs::Geometry::preview_width))]
pub fn preview_width(width: usize) -> usize
    ensures { result ≡ preview_width width }
{
    (width / 8 + 1) / 2 * 2
}

// The height of the 1/8 preview.
#[tactic(auto, unfolding(crate::specs::Geometry::preview_height))]
pub fn preview_height(height: usize, interlaced: bool) -> usize
    ensures { result ≡ preview_height height interlaced }
{
    let h = height / 8;
    if interlaced { h - h % 2 } else { h }
}

// The streams of a slice: its DC stream or its AC stream.
#[derive(Clone, Copy, Debug, PartialEq, Eq, Hash)]
pub enum Kind {
    Dc,
    Ac,
}
