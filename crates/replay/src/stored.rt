// Numbers as the records store them: low byte first, signed ones as two's complement.
// Each type has its own two lines: one function for all would take `from_le_bytes` as a closure of [u8; N], and a bound on a closure
// that names a const parameter gets no proof.
ghost use Rattle.std.specs.Prelude.{◌+◌, ◌≤◌, length, IfSome};

use std::default::Default;

// A number that a record stores.
pub trait Stored: Copy + Default + PartialEq {
    // The number that the bytes begin with, and the bytes after it.
    fn first(bytes: &[u8]) -> Option<(Self, &[u8])>
        ensures { IfSome result (λ found. length found.1.now + 1 ≤ length bytes.now) };
}

impl Stored for u8 {
    fn first(bytes: &[u8]) -> Option<(u8, &[u8])> {
        let (byte, rest) = bytes.split_first()?;
        Some((*byte, rest))
    }
}

impl Stored for u16 {
    fn first(bytes: &[u8]) -> Option<(u16, &[u8])> {
        let (number, rest) = bytes.split_first_chunk()?;
        Some((u16::from_le_bytes(*number), rest))
    }
}

impl Stored for u32 {
    fn first(bytes: &[u8]) -> Option<(u32, &[u8])> {
        let (number, rest) = bytes.split_first_chunk()?;
        Some((u32::from_le_bytes(*number), rest))
    }
}

impl Stored for u64 {
    fn first(bytes: &[u8]) -> Option<(u64, &[u8])> {
        let (number, rest) = bytes.split_first_chunk()?;
        Some((u64::from_le_bytes(*number), rest))
    }
}

impl Stored for usize {
    fn first(bytes: &[u8]) -> Option<(usize, &[u8])> {
        let (number, rest) = bytes.split_first_chunk()?;
        Some((usize::from_le_bytes(*number), rest))
    }
}

impl Stored for i16 {
    fn first(bytes: &[u8]) -> Option<(i16, &[u8])> {
        let (number, rest) = bytes.split_first_chunk()?;
        Some((i16::from_le_bytes(*number), rest))
    }
}

impl Stored for i32 {
    fn first(bytes: &[u8]) -> Option<(i32, &[u8])> {
        let (number, rest) = bytes.split_first_chunk()?;
        Some((i32::from_le_bytes(*number), rest))
    }
}
