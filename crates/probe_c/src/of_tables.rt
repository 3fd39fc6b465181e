// The quantiser numbers and the scan (crate tables).

// Number i of a preset's 192: the corrections, the reciprocals, the scales of its 64 places (`encode` of QuantTables).
#[unsafe(no_mangle)]
pub extern "C" fn probe_tables_encode(preset: usize, i: usize) -> u16 {
    probe::of_tables::probe_tables_encode(preset, i)
}

// A preset's divisor at place i (`decode` of QuantTables).
#[unsafe(no_mangle)]
pub extern "C" fn probe_tables_decode(preset: usize, i: usize) -> u16 {
    probe::of_tables::probe_tables_decode(preset, i)
}

// The natural place of scan place i.
#[unsafe(no_mangle)]
pub extern "C" fn probe_tables_zigzag(i: usize) -> u8 {
    probe::of_tables::probe_tables_zigzag(i)
}
