// The Rust's quantiser numbers, scan and presets of a quality. A record of 12 bytes (oracle/ANSWERS.md): the kind, a preset or a
// quality, a place, a byte without meaning, and four numbers that the Rust answered.
use ask::limits::PRESET_MAX;
use probe::of_tables::{probe_tables_decode, probe_tables_encode, probe_tables_zigzag};
use replay::Record;
use tables::quality::quality_preset;

pub const LENGTH: usize = 12;

// The divisor of a preset's place, and its numbers for coding: correction, reciprocal and scale.
fn numbers(record: Record<'_>) -> bool {
    let preset = record.small(1);
    let place = record.small(2);
    preset <= PRESET_MAX
        && place < 64
        && record.numbers(4)
            == [
                probe_tables_decode(preset, place),
                probe_tables_encode(preset, place),
                probe_tables_encode(preset, 64 + place),
                probe_tables_encode(preset, 128 + place),
            ]
}

// The natural place of a place of the scan.
fn scan(record: Record<'_>) -> bool {
    let place = record.small(2);
    place < 64 && u16::from(probe_tables_zigzag(place)) == record.number(4)
}

// The quality in force, and its preset.
fn quality(record: Record<'_>) -> bool {
    let preset = quality_preset(record.byte(1));
    u16::from(preset.quality) == record.number(4) && preset.index == record.size(6)
}

pub fn holds(record: Record<'_>) -> bool {
    match record.byte(0) {
        0 => numbers(record),
        1 => scan(record),
        _ => quality(record),
    }
}
