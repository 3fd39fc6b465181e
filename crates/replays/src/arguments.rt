// A stored call on a plane or on a slice, and its answer: the first 72 bytes of a record of planes or of reads.
use crate::depths::Depth;
use calls::{Four, Positions, Settings, Shape};
use questions::answers::Refused;
use replay::Record;
use std::array;
use std::ops::Range;

#[derive(Clone, Copy)]
pub struct Call<'a> {
    pub record: Record<'a>,
}

impl<'a> Call<'a> {
    pub fn settings(self) -> Settings {
        Settings {
            preset: self.record.size(4),
            shift: u32::from(self.record.number::<u16>(6)),
        }
    }

    // Of one plane: its place, and plane 0's stride.
    pub fn shape(self) -> Shape {
        Shape {
            place: self.record.size(8),
            stride: self.record.size(16),
        }
    }

    // Of a slice.
    pub fn four(self) -> Four {
        Four {
            count: self.record.size(8),
            strides: self.record.numbers::<u16, 4>(16).map(usize::from),
        }
    }

    pub fn positions(self) -> Positions {
        Positions {
            dc: self.record.position(40),
            ac: self.record.position(48),
        }
    }

    // Where each plane's samples lie.
    pub fn rows(self) -> [Range<usize>; 4] {
        array::from_fn(|k| {
            let start = self.record.size(24 + 2 * k);
            start..start + self.record.size(32 + 2 * k)
        })
    }

    // The positions after the call.
    pub fn ends(self) -> Positions {
        Positions {
            dc: self.record.position(56),
            ac: self.record.position(64),
        }
    }

    // What the buffers and the rows were filled with before the call.
    pub fn filled<T: Depth>(self) -> T {
        T::of_byte(self.record.byte(1))
    }

    // Whether this is the stored answer. A refused call leaves both positions as they were.
    pub fn answered(self, answer: Result<Positions, Refused>) -> bool {
        let (asked, at) = match answer {
            Ok(ends) => (Ok(()), ends),
            Err(Refused { no, start }) => (Err(no.number()), start),
        };
        asked == self.record.answer(2, ()) && at == self.ends()
    }
}
