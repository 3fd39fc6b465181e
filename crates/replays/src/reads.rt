// The Rust's reading calls on small planes and slices, previews and block reports. A record of 808 bytes (oracle/ANSWERS.md):
// the call's arguments, its answer, both streams, and what the rows hold after the call.
use crate::arguments::Call;
use crate::depths::Depth;
use calls::Positions;
use questions::answers::Refused;
use replay::{LONGEST, Record, cut, part};

pub const LENGTH: usize = 808;
// Document 01's lengths of the longest streams that may be read, not those of crate ask: a wrong one there is to be seen.
const LONGEST_DC: usize = 245760;

const LONGEST_AC: usize = 430080;
// One byte more than the longest AC stream.
const ONES: usize = LONGEST_AC + 1;
// The samples that each plane has room for.
const ROOM: usize = 280;
// The stored rows begin here; zeros follow them.
const ROWS: usize = 296;
// The samples of 8 bits from there on, and those of 10 bits.
const STORED8: usize = LONGEST - ROWS;

const STORED10: usize = STORED8 / 2;

// A stored call and the streams that it reads.
#[derive(Clone, Copy)]
struct Reading<'a> {
    call: Call<'a>,
    dc: &'a [u8],
    ac: &'a [u8],
}

impl Reading<'_> {
    // Rows as they are before the call.
    fn room<T: Depth>(self) -> [T; ROOM] {
        [self.call.filled(); ROOM]
    }

    // The samples that are stored.
    fn stored<T: Depth, const N: usize>(self) -> [T; N] {
        self.call.record.numbers(ROWS)
    }

    // How many samples the rows of each plane have.
    fn counts(self) -> [usize; 4] {
        self.call.rows().map(|place| place.len())
    }

    // Whether planes hold what is stored of each, and what they were filled with after it.
    fn hold<T: Depth>(self, planes: &[&[T]], stored: &[T]) -> bool {
        let filled: T = self.call.filled();
        planes.iter().zip(self.call.rows()).all(|(rows, place)| {
            let (read, rest) = rows.split_at(place.len().min(rows.len()));
            let missing = T::missing(filled);
            replay::holds(read, missing, 0..read.len(), part(stored, place))
                && rest.iter().all(|sample| *sample == filled)
        })
    }

    fn plane<T: Depth>(self, rows: &mut [T], stored: &[T]) -> bool {
        let call = self.call;
        let [n, ..] = self.counts();
        let answer = decoder::decode_plane(
            cut(rows, n),
            call.shape(),
            call.settings(),
            self.dc,
            self.ac,
            call.positions(),
        );
        call.answered(answer) && self.hold(&[&*rows], stored)
    }

    fn slice<T: Depth>(
        self,
        p0: &mut [T],
        p1: &mut [T],
        p2: &mut [T],
        p3: &mut [T],
        stored: &[T],
    ) -> bool {
        let call = self.call;
        let [n0, n1, n2, n3] = self.counts();
        let answer = decoder::decode_slice(
            cut(p0, n0),
            cut(p1, n1),
            cut(p2, n2),
            cut(p3, n3),
            call.four(),
            call.settings(),
            self.dc,
            self.ac,
            call.positions(),
        );
        call.answered(answer) && self.hold(&[&*p0, &*p1, &*p2, &*p3], stored)
    }

    // A preview, into the rows of two planes.
    fn preview(self) -> bool {
        let call = self.call;
        let mut upper: [u8; ROOM] = self.room();
        let mut lower: [u8; ROOM] = self.room();
        let [n0, n1, ..] = self.counts();
        let start = call.positions();
        let answer = preview::preview(
            call.settings().shift,
            call.shape(),
            cut(&mut upper, n0),
            cut(&mut lower, n1),
            self.dc,
            start.dc,
        );
        let ends = answer
            .map(|dc| Positions { dc, ac: start.ac })
            .map_err(|no| Refused { no, start });
        call.answered(ends)
            && self.hold(
                &[upper.as_slice(), lower.as_slice()],
                &self.stored::<u8, STORED8>(),
            )
    }

    // A block report, into one plane's rows.
    fn report(self) -> bool {
        let call = self.call;
        let mut rows: [u8; ROOM] = self.room();
        let [n, ..] = self.counts();
        let start = call.positions();
        let stride = call.shape().stride;
        let answer = preview::report::block_report(stride, cut(&mut rows, n), self.ac, start.ac);
        let ends = answer
            .map(|ac| Positions { dc: start.dc, ac })
            .map_err(|no| Refused { no, start });
        call.answered(ends) && self.hold(&[rows.as_slice()], &self.stored::<u8, STORED8>())
    }

    // The call that the record names.
    fn holds(self) -> bool {
        match self.call.record.byte(0) {
            0 => self.plane::<u8>(&mut self.room(), &self.stored::<u8, STORED8>()),
            1 => self.plane::<u16>(&mut self.room(), &self.stored::<u16, STORED10>()),
            2 => self.slice::<u8>(
                &mut self.room(),
                &mut self.room(),
                &mut self.room(),
                &mut self.room(),
                &self.stored::<u8, STORED8>(),
            ),
            3 => self.slice::<u16>(
                &mut self.room(),
                &mut self.room(),
                &mut self.room(),
                &mut self.room(),
                &self.stored::<u16, STORED10>(),
            ),
            4 => self.preview(),
            _ => self.report(),
        }
    }
}

// On streams of ones, as long as may be read, or with a byte more.
fn holds_on_ones(call: Call<'_>, longer_dc: bool, longer_ac: bool) -> bool {
    let ones = [255; ONES];
    let dc = part(&ones, 0..LONGEST_DC + usize::from(longer_dc));
    let ac = part(&ones, 0..LONGEST_AC + usize::from(longer_ac));
    Reading { call, dc, ac }.holds()
}

pub fn holds(record: Record<'_>) -> bool {
    let call = Call { record };
    match record.byte(3) {
        0 => {
            let dc = record.part(72..72 + record.size(10));
            let ac = record.part(96..96 + record.size(12));
            Reading { call, dc, ac }.holds()
        }
        ones => holds_on_ones(call, ones == 2, ones == 3),
    }
}
