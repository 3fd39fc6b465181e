// What the records know of both kinds of samples.
use replay::Stored;
use sample::Sample;

pub trait Depth: Stored + Sample {
    // The sample all of whose bytes are this one.
    fn of_byte(byte: u8) -> Self;

    // The sample of a number of 16 bits.
    fn of_number(number: u16) -> Self;

    // What stands for samples that lie past a record's end, of rows that were filled with this one.
    fn missing(filled: Self) -> Self;
}

impl Depth for u8 {
    fn of_byte(byte: u8) -> u8 {
        byte
    }

    // The high half.
    fn of_number(number: u16) -> u8 {
        let [_, high] = number.to_le_bytes();
        high
    }

    fn missing(filled: u8) -> u8 {
        filled
    }
}

impl Depth for u16 {
    fn of_byte(byte: u8) -> u16 {
        u16::from_le_bytes([byte, byte])
    }

    fn of_number(number: u16) -> u16 {
        number
    }

    fn missing(_filled: u16) -> u16 {
        0
    }
}
