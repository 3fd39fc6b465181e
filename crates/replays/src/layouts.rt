// What follows from a frame's size, as the Rust answered it. A record of 80 bytes (oracle/ANSWERS.md): what is asked, the
// refusal's number, a flag given and one answered, width, height, a row, and up to six numbers answered.
use ask::Refusal;
use ask::limits::HEIGHT_MAX;
use layout::Layout;
use replay::Record;

pub const LENGTH: usize = 80;

// Heights, slices, strides and limits, or the refusal.
fn sizes(record: Record<'_>) -> bool {
    let width = record.position(8);
    let height = record.position(16);
    let stored = Layout {
        width,
        height,
        aligned_height: record.position(32),
        slices: record.position(40),
        luma: record.position(48),
        chroma: record.position(56),
        max_dc_len: record.position(64),
        max_ac_len: record.position(72),
    };
    Layout::new(width, height).map_err(Refusal::number) == record.answer(1, stored)
}

// The image row in a row of the coded planes, or none. A byte but 0 and 1 says neither.
fn image_row(record: Record<'_>) -> bool {
    let height = record.position(16);
    let stored = record.flag(3).then_some(record.position(32));
    record.byte(3) < 2
        && height <= HEIGHT_MAX
        && layout::image_row(height, record.position(24), record.flag(2)) == stored
}

// The size of the preview, and whether such a height may be interlaced.
fn preview(record: Record<'_>) -> bool {
    let width = record.position(8);
    let height = record.position(16);
    record.byte(3) == u8::from(layout::interlace_capable(height))
        && record.position(32) == layout::preview_width(width)
        && record.position(40) == layout::preview_height(height, record.flag(2))
}

pub fn holds(record: Record<'_>) -> bool {
    match record.byte(0) {
        0 => sizes(record),
        1 => image_row(record),
        _ => preview(record),
    }
}
