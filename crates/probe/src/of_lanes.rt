// The lane operations (crate lanes). C names one by a number (`op`), so a match finds it.
use crate::arrays::{array, put};

// The operations of two rows.
fn two(op: u32, a: [i16; 8], b: [i16; 8]) -> [i16; 8] {
    match op {
        0 => lanes::sums::adds(a, b),
        1 => lanes::sums::subs(a, b),
        2 => lanes::sums::add16(a, b),
        3 => lanes::products::mulhi(a, b),
        4 => lanes::products::mulhi_u(a, b),
        5 => lanes::products::mullo(a, b),
        6 => lanes::shifts::or16(a, b),
        7 => lanes::signs::sign16(a, b),
        8 => lanes::signs::min16(a, b),
        _ => lanes::signs::max16(a, b),
    }
}

// The operations of one row, two of them with a shift below 16.
fn one(op: u32, a: [i16; 8], n: u8) -> [i16; 8] {
    match op {
        0 => lanes::shifts::srai16(a, u32::from(n % 16)),
        1 => lanes::shifts::slli16(a, u32::from(n % 16)),
        _ => lanes::signs::abs16(a),
    }
}

// The operations of wide rows, the last with a shift below 32.
fn two32(op: u32, a: [i32; 4], b: [i32; 4], n: u8) -> [i32; 4] {
    match op {
        0 => lanes::wide::add32(a, b),
        1 => lanes::wide::sub32(a, b),
        _ => lanes::wide::srai32(a, u32::from(n % 32)),
    }
}

// Two rows to one.
pub fn probe_lanes_two(op: u32, a: &[i16], b: &[i16], out: &mut [i16]) {
    put(out, &two(op, array(a), array(b)));
}

// One row and a number to a row.
pub fn probe_lanes_one(op: u32, a: &[i16], n: u8, out: &mut [i16]) {
    put(out, &one(op, array(a), n));
}

// Two wide rows and a number to a wide row.
pub fn probe_lanes_two32(op: u32, a: &[i32], b: &[i32], n: u8, out: &mut [i32]) {
    put(out, &two32(op, array(a), array(b), n));
}

pub fn probe_lanes_madd(a: &[i16], b: &[i16], out: &mut [i32]) {
    put(out, &lanes::products::madd(array(a), array(b)));
}

pub fn probe_lanes_packs32(a: &[i32], b: &[i32], out: &mut [i16]) {
    put(out, &lanes::packs::packs32(array(a), array(b)));
}

pub fn probe_lanes_splat(v: i16, out: &mut [i16]) {
    put(out, &lanes::splat(v));
}

pub fn probe_lanes_splat32(v: i32, out: &mut [i32]) {
    put(out, &lanes::splat32(v));
}

pub fn probe_lanes_load_u(t: &[u16], out: &mut [i16]) {
    put(out, &lanes::load_u(array(t)));
}

// Byte k of a row's eight.
pub fn probe_lanes_packus8(a: &[i16], k: usize) -> u8 {
    let bytes = lanes::packs::packus8(array(a));
    bytes.get(k).copied().unwrap_or(0)
}
