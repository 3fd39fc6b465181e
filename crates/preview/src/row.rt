// The rows of a preview, of a DC stream that was judged good (slice.rs, decode_plane_preview).
// `shift < 16` and `columns ≤ 960` are said by both contracts, and by no type: a call's shift and stride are any numbers until they were
// asked (`preview_asked`), and only these two functions stand behind the questions.
ghost use Rattle.std.specs.Prelude.{◌≡◌, true, ◌*◌, ◌^◌, ◌≤◌, ◌<◌, length};
ghost use Rattle.ask.specs.Limits.{start_max};
ghost use Rattle.bits.specs.Bits.{bit_at};
ghost use Rattle.bitreader.specs.Cursor.{At};
ghost use Rattle.calls.specs.ReadPlane.{read_steps};
ghost use Rattle.preview.specs.row.Row.{RowDone, Stored};
ghost use Rattle.acread.specs.through.Codes.{good_steps};

use bitreader::AcCursor;

// What a row of blocks leaves: the cursor after its last code, and its last DC.
#[derive(Clone, Copy, Debug, PartialEq, Eq, Hash)]
pub struct RowEnd {
    pub c: AcCursor,
    pub last: i16,
}

// Stores one row of blocks, of a stream that was judged good. The prediction goes on into the next row.
fn preview_row(
    dc: &[u8],
    c0: AcCursor,
    shift: u32,
    level: i16,
    prior: i16,
    columns: usize,
    out: &mut [u8],
) -> RowEnd
    requires { At dc.now c0 × (c0.pos < 2 ^ 58) × (shift < 16) × (columns ≤ 960) × (columns ≤ length out.old)
        × (good_steps (read_steps columns (bit_at dc.now) c0.pos) ≡ true) }
    ensures { RowDone dc.now shift level columns c0.pos prior out.old out.new result }
{
    let mut c = c0;
    let mut last = prior;
    for byte in out[..columns].iter_mut() {
        let g = bitreader::next_dc(dc, c).unwrap();
        last = blockread::dc::settled(g.run, g.num, shift, 0, last);
        *byte = blockread::dc::preview_byte(last, level);
        c = g.c;
    }
    RowEnd { c, last }
}

// Stores both rows of a stream that was judged good; the byte after its codes.
pub fn store_preview(
    shift: u32,
    place: usize,
    columns: usize,
    upper: &mut [u8],
    lower: &mut [u8],
    dc: &[u8],
    at: usize,
) -> usize
    requires { (shift < 16) × (columns ≤ 960) × (columns ≤ length upper.old) × (columns ≤ length lower.old) × (at ≤ start_max)
        × (good_steps (read_steps (2 * columns) (bit_at dc.now) (8 * at)) ≡ true) }
    ensures { Stored shift place columns upper.old upper.new lower.old lower.new
        (read_steps (2 * columns) (bit_at dc.now) (8 * at)) result }
{
    let c = bitreader::cursor(dc, 8 * at);
    let level = planes::lane::<u8>(place);
    let row = preview_row(dc, c, shift, level, 0, columns, upper);
    let d = row.c;
    let last = row.last;
    let end = preview_row(dc, d, shift, level, last, columns, lower);
    bitreader::end_byte(end.c)
}
