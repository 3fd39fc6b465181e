// The questions to calls on planes and slices over numbers alone, and the size calls: no memory is lent, so lengths and starts
// are any. A record of 144 bytes (oracle/ANSWERS.md): the call, its number, its arguments, the lengths that a size call names.
// Its arguments are read here and not by arguments::Call, whose numbers take two bytes each where these take eight.
use ask::Refusal;
use calls::{Four, Settings, Shape, Stream, Streams};
use questions::answers::Lengths;
use questions::{of_call, sizes};
use replay::Record;

pub const LENGTH: usize = 144;

fn settings(record: Record<'_>) -> Settings {
    Settings {
        preset: record.position(8),
        shift: record.number(16),
    }
}

// Of one plane: its place, and plane 0's stride.
fn shape(record: Record<'_>) -> Shape {
    Shape {
        place: record.position(24),
        stride: record.position(32),
    }
}

// Of a slice.
fn four(record: Record<'_>) -> Four {
    Four {
        count: record.position(24),
        strides: record.numbers(32),
    }
}

fn stream(record: Record<'_>, at: usize) -> Stream {
    let [len, at]: [usize; 2] = record.numbers(at);
    Stream { len, at }
}

// What a call that codes or reads is asked before question 8. `rows` is how many samples the rows of each plane have.
fn asked(record: Record<'_>) -> Result<(), Refusal> {
    let settings = settings(record);
    let rows: [usize; 4] = record.numbers(64);
    let streams = Streams {
        dc: stream(record, 96),
        ac: stream(record, 112),
    };
    match record.byte(0) {
        0 => of_call::coding_plane(settings, shape(record), rows[0], streams),
        1 => of_call::reading_plane(settings, shape(record), rows[0], streams),
        2 => of_call::coding_slice(settings, four(record), rows, streams),
        _ => of_call::reading_slice(settings, four(record), rows, streams),
    }
}

// Whether a size call answers as stored: the lengths of DC and AC, or its refusal.
fn sized(record: Record<'_>, answer: Result<Lengths, Refusal>) -> bool {
    let lengths: [usize; 2] = record.numbers(128);
    answer.map(|l| [l.dc, l.ac]).map_err(Refusal::number) == record.answer(1, lengths)
}

pub fn holds(record: Record<'_>) -> bool {
    match record.byte(0) {
        4 => sized(record, sizes::plane_size(record.position(32))),
        5 => sized(record, sizes::slice_size(four(record))),
        _ => asked(record).map_err(Refusal::number) == record.answer(1, ()),
    }
}
