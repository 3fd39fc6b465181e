// Frames that are built stream by stream. A record of 1,120 bytes (oracle/ANSWERS.md): the header's arguments, the streams
// that are handed over, each call's number and whether the frame is complete after it, and the frame as the Rust's `write`
// writes the streams accepted.
use crate::frames::kind_of;
use ask::Refusal;
use builder::Builder;
use builder::streams::{Refused, complete, put_stream};
use replay::{Record, cut, part};
use std::array;

pub const LENGTH: usize = 1120;
// A record has room for so many streams.
const STREAMS: usize = 8;

// A stream that is handed over: twelve bytes.
#[derive(Clone, Copy)]
struct Stream<'a> {
    record: Record<'a>,
    width: usize,
    height: usize,
}

impl<'a> Stream<'a> {
    fn new(record: Record<'a>) -> Stream<'a> {
        Stream {
            record,
            width: record.size(8),
            height: record.size(10),
        }
    }

    // Hands it over; its bytes lie among these.
    fn hand_over(self, state: Builder, bytes: &[u8], out: &mut [u8]) -> Result<Builder, Refused> {
        let kind = kind_of(self.record.flag(0));
        let start = self.record.size(4);
        let stream = part(bytes, start..start + self.record.size(6));
        let slice = self.record.small(1);
        put_stream(self.width, self.height, state, kind, slice, stream, out)
    }

    // Whether this is what is said of the frame after it: complete (1) or not (0), or a refusal's number.
    fn said(self, state: Builder) -> bool {
        let said = complete(self.width, self.height, state.ac_turn(), state.next());
        said.map_or_else(Refusal::number, u32::from) == u32::from(self.record.byte(3))
    }

    // The state after it, where the answer and what is said of the frame are those that are stored.
    fn after(self, state: Builder, bytes: &[u8], out: &mut [u8]) -> Option<Builder> {
        let (answer, next) = match self.hand_over(state, bytes, out) {
            Ok(next) => (Ok(()), next),
            Err(Refused { no, state }) => (Err(no.number()), state),
        };
        (answer == self.record.answer(2, ()) && self.said(next)).then_some(next)
    }
}

// The state after all streams, where each is answered as stored. Of a ninth one no answer is stored.
fn streams(record: Record<'_>, started: Builder, out: &mut [u8]) -> Option<Builder> {
    if STREAMS < record.size(14) {
        return None;
    }
    // The bytes that streams are taken from: 32, repeated.
    let bytes: [u8; 1024] = array::from_fn(|k| record.byte(128 + k % 32));
    let mut state = started;
    for twelve in record.part(32..128).chunks(12).take(record.size(14)) {
        state = Stream::new(Record::new(twelve)).after(state, &bytes, out)?;
    }
    Some(state)
}

// The header and the streams, into a buffer of the record's length, and where the last accepted stream ends.
fn frame(record: Record<'_>, out: &mut [u8]) -> bool {
    let started = builder::start_frame(
        record.size(0),
        record.size(2),
        record.flag(4),
        record.byte(5),
        (record.size(8) == 1).then_some(u32::from(record.number::<u16>(10))),
        out,
        record.position(16),
    );
    match (started, record.answer(6, ())) {
        (Ok(state), Ok(())) => {
            streams(record, state, out).is_some_and(|last| last.at() == record.position(24))
        }
        (Err(no), Err(number)) => no.number() == number,
        _ => false,
    }
}

pub fn holds(record: Record<'_>) -> bool {
    let filled = record.byte(7);
    let places = record.position(16)..record.position(24);
    let mut out = [filled; 1100];
    frame(record, cut(&mut out, record.size(12)))
        && replay::holds(&out, filled, places, record.part(160..1120))
}
