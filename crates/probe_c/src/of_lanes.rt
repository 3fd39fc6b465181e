// The lane operations (crate lanes).

// Two rows to one.
#[unsafe(no_mangle)]
pub extern "C" fn probe_lanes_two(op: u32, a: &[i16], b: &[i16], out: &mut [i16]) {
    probe::of_lanes::probe_lanes_two(op, a, b, out);
}

// One row and a number to a row.
#[unsafe(no_mangle)]
pub extern "C" fn probe_lanes_one(op: u32, a: &[i16], n: u8, out: &mut [i16]) {
    probe::of_lanes::probe_lanes_one(op, a, n, out);
}

// Two wide rows and a number to a wide row.
#[unsafe(no_mangle)]
pub extern "C" fn probe_lanes_two32(op: u32, a: &[i32], b: &[i32], n: u8, out: &mut [i32]) {
    probe::of_lanes::probe_lanes_two32(op, a, b, n, out);
}

#[unsafe(no_mangle)]
pub extern "C" fn probe_lanes_madd(a: &[i16], b: &[i16], out: &mut [i32]) {
    probe::of_lanes::probe_lanes_madd(a, b, out);
}

#[unsafe(no_mangle)]
pub extern "C" fn probe_lanes_packs32(a: &[i32], b: &[i32], out: &mut [i16]) {
    probe::of_lanes::probe_lanes_packs32(a, b, out);
}

#[unsafe(no_mangle)]
pub extern "C" fn probe_lanes_splat(v: i16, out: &mut [i16]) {
    probe::of_lanes::probe_lanes_splat(v, out);
}

#[unsafe(no_mangle)]
pub extern "C" fn probe_lanes_splat32(v: i32, out: &mut [i32]) {
    probe::of_lanes::probe_lanes_splat32(v, out);
}

#[unsafe(no_mangle)]
pub extern "C" fn probe_lanes_load_u(t: &[u16], out: &mut [i16]) {
    probe::of_lanes::probe_lanes_load_u(t, out);
}

// Byte k of a row's eight.
#[unsafe(no_mangle)]
pub extern "C" fn probe_lanes_packus8(a: &[i16], k: usize) -> u8 {
    probe::of_lanes::probe_lanes_packus8(a, k)
}
