// A record of stored answers.
ghost use Rattle.std.specs.Prelude.{◌<◌};

use crate::buffers::part;
use crate::stored::Stored;
use std::array;
use std::ops::Range;

// A record's bytes; zeros follow.
#[derive(Clone, Copy)]
pub struct Record<'a> {
    bytes: &'a [u8],
}

impl<'a> Record<'a> {
    pub fn new(bytes: &'a [u8]) -> Record<'a> {
        Record { bytes }
    }

    // The bytes from `at` on.
    fn rest(self, at: usize) -> &'a [u8] {
        self.bytes.get(at..).unwrap_or(&[])
    }

    // The number that begins at a byte.
    pub fn number<T: Stored>(self, at: usize) -> T {
        T::first(self.rest(at)).map_or(T::default(), |(number, _)| number)
    }

    // Numbers in a row.
    pub fn numbers<T: Stored, const N: usize>(self, at: usize) -> [T; N] {
        let mut rest = self.rest(at);
        array::from_fn(|_| match T::first(rest) {
            Some((number, after)) => {
                rest = after;
                number
            }
            None => T::default(),
        })
    }

    pub fn byte(self, at: usize) -> u8 {
        self.number(at)
    }

    // A byte that says yes or no.
    pub fn flag(self, at: usize) -> bool {
        self.byte(at) == 1
    }

    // A number of one byte as a size.
    pub fn small(self, at: usize) -> usize
        ensures { result < 256 }
    {
        usize::from(self.byte(at))
    }

    // A number of two bytes as a size.
    pub fn size(self, at: usize) -> usize
        ensures { result < 65536 }
    {
        usize::from(self.number::<u16>(at))
    }

    // A number of eight bytes: a position, a size that may be any.
    pub fn position(self, at: usize) -> usize {
        self.number(at)
    }

    // What a call answers: this, where the number at a byte is 0, and else that number, of what the call is refused with.
    pub fn answer<T: Drop>(self, at: usize, accepted: T) -> Result<T, u32> {
        match self.byte(at) {
            0 => Ok(accepted),
            number => Err(u32::from(number)),
        }
    }

    // The bytes in these places; none where they are not all there.
    pub fn part(self, places: Range<usize>) -> &'a [u8] {
        part(self.bytes, places)
    }
}
