// The Rust's answers to small frames, whole, cut and changed. A record of 148 bytes (oracle/ANSWERS.md): width, height, the
// frame's length, a stream that is asked for, the header and the stream's place as the Rust answered them, the frame.
use ask::Refusal;
use ask::limits::{HEIGHT_MAX, SLICES_MAX};
use layout::Kind;
use parser::View;
use parser::head::Header;
use replay::{Record, part};
use vmx::container::vmx_stream;

pub const LENGTH: usize = 148;
// The streams that the table lent for them has room for: two for each slice, and two more.
const VIEWS: usize = 2 * SLICES_MAX + 2;

// A frame, and the stream of it that is asked for.
#[derive(Clone, Copy)]
struct Frame<'a> {
    record: Record<'a>,
    width: usize,
    height: usize,
    bytes: &'a [u8],
    ac: bool,
    slice: usize,
}

// A kind of stream, AC or DC.
pub fn kind_of(ac: bool) -> Kind {
    if ac { Kind::Ac } else { Kind::Dc }
}

// A header's numbers, as they are stored.
fn numbers(header: Header) -> [usize; 5] {
    [
        usize::from(header.interlaced),
        usize::from(header.quality),
        usize::from(header.dc_shift),
        header.header_len,
        usize::from(header.ac),
    ]
}

impl<'a> Frame<'a> {
    fn of(record: Record<'a>) -> Frame<'a> {
        Frame {
            record,
            width: record.size(0),
            height: record.size(2),
            bytes: record.part(20..20 + record.small(4)),
            ac: record.flag(5),
            slice: record.small(6),
        }
    }

    // The numbers of the stored header, or its refusal.
    fn stored_header(self) -> Result<[usize; 5], u32> {
        let numbers: [u8; 5] = self.record.numbers(8);
        self.record.answer(7, numbers.map(usize::from))
    }

    // Where the stream lies.
    fn view(self) -> View {
        View {
            offset: self.record.small(14),
            len: self.record.small(15),
        }
    }

    // The header, or its refusal.
    fn header(self) -> bool {
        parser::parse(self.width, self.height, self.bytes)
            .map(numbers)
            .map_err(Refusal::number)
            == self.stored_header()
    }

    // The place of the stream, or its refusal.
    fn place(self) -> bool {
        let kind = kind_of(self.ac);
        parser::view_at(self.width, self.height, self.bytes, kind, self.slice).map_err(
            Refusal::number,
        ) == self.record.answer(13, self.view())
    }

    // The stream itself, a part of the frame.
    fn stream(self) -> bool {
        let kind = kind_of(self.ac);
        let offset = self.record.small(14);
        let stored = part(self.bytes, offset..offset + self.record.small(15));
        parser::stream(self.width, self.height, self.bytes, kind, self.slice).map_err(
            Refusal::number,
        ) == self.record.answer(13, stored)
    }

    // The exported call: where the stream lies.
    fn exported(self) -> bool {
        let mut offset = 7;
        let mut len = 7;
        let number = vmx_stream(
            self.width,
            self.height,
            self.bytes,
            u32::from(self.record.byte(5)),
            self.slice,
            &mut offset,
            &mut len,
        );
        number == u32::from(self.record.byte(13)) && View { offset, len } == self.view()
    }

    // The place asked for in the table: 0 and 0 where the frame has no AC. Of a slice that is not there it says nothing.
    fn in_table(self, table: &[[u32; 2]]) -> bool {
        if HEIGHT_MAX < self.height {
            return false;
        }
        let slices = layout::slice_count(self.height);
        if slices <= self.slice {
            return true;
        }
        let view = if self.ac {
            slices + self.slice
        } else {
            self.slice
        };
        table.get(view) == Some(&self.record.numbers::<u8, 2>(14).map(u32::from))
    }

    // Header and table, or the refusal.
    fn tabled(self) -> bool {
        let mut table = [[7; 2]; VIEWS];
        let lent = table.as_flattened_mut();
        let header = views::all_views(self.width, self.height, self.bytes, lent)
            .map(numbers)
            .map_err(Refusal::number);
        let told = match header {
            Ok(_) => self.in_table(&table),
            Err(_) => table[0] == [7; 2],
        };
        header == self.stored_header() && told
    }
}

pub fn holds(record: Record<'_>) -> bool {
    let frame = Frame::of(record);
    frame.header() && frame.place() && frame.stream() && frame.exported() && frame.tabled()
}
