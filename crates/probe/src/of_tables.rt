// The quantiser numbers and the scan (crate tables).
use ask::limits::PRESET_MAX;

// Number i of a preset's 192: the corrections, the reciprocals, the scales of its 64 places (`encode` of QuantTables).
pub fn probe_tables_encode(preset: usize, i: usize) -> u16 {
    if PRESET_MAX < preset {
        return 0;
    }
    let numbers = tables::reciprocals::encode_numbers(preset);
    numbers.get(i).copied().unwrap_or(0)
}

// A preset's divisor at place i (`decode` of QuantTables).
pub fn probe_tables_decode(preset: usize, i: usize) -> u16 {
    if PRESET_MAX < preset {
        return 0;
    }
    let divisors = tables::decode_numbers(preset);
    divisors.get(i).copied().unwrap_or(0)
}

// The natural place of scan place i.
pub fn probe_tables_zigzag(i: usize) -> u8 {
    tables::zigzag_order().get(i).copied().unwrap_or(255)
}
