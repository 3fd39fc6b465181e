// The lane operations and the shuffles, as the Rust answered them. A record of 50 bytes (oracle/ANSWERS.md): the operation, a
// shift or a shuffle's pattern, two rows, and the row that the Rust answered.
use probe::{of_lanes, of_shuffles};
use replay::{Record, Stored};
use std::array;

pub const LENGTH: usize = 50;

// Both rows.
fn rows<T: Stored, const N: usize>(record: Record<'_>) -> [[T; N]; 2] {
    [record.numbers(2), record.numbers(18)]
}

// Of the operations whose answer is a row of eight lanes.
fn eight(record: Record<'_>, operation: u8) -> [i16; 8] {
    let [a, b]: [[i16; 8]; 2] = rows(record);
    let n = record.byte(1);
    let mut r = [0; 8];
    match operation {
        0..=9 => of_lanes::probe_lanes_two(u32::from(operation), &a, &b, &mut r),
        10..=12 => of_lanes::probe_lanes_one(u32::from(operation - 10), &a, n, &mut r),
        13..=15 => of_shuffles::probe_shuffles_row(u32::from(operation - 13), &a, n, &mut r),
        16..=19 => of_shuffles::probe_shuffles_unpacklo32(&a, &b, &mut r),
        31 => {
            let [a, b]: [[i32; 4]; 2] = rows(record);
            of_lanes::probe_lanes_packs32(&a, &b, &mut r)
        }
        40 => of_lanes::probe_lanes_splat(a[0], &mut r),
        _ => of_lanes::probe_lanes_load_u(&record.numbers::<u16, 8>(2), &mut r),
    }
    r
}

// Of those whose answer is a row of four wide lanes.
fn four(record: Record<'_>, operation: u8) -> [i32; 4] {
    let [a, b]: [[i32; 4]; 2] = rows(record);
    let n = record.byte(1);
    let mut r = [0; 4];
    match operation {
        20..=22 => of_lanes::probe_lanes_two32(u32::from(operation - 20), &a, &b, n, &mut r),
        23..=29 => of_shuffles::probe_shuffles_wide(&a, n, &mut r),
        30 => {
            let [a, b]: [[i16; 8]; 2] = rows(record);
            of_lanes::probe_lanes_madd(&a, &b, &mut r)
        }
        _ => of_lanes::probe_lanes_splat32(a[0], &mut r),
    }
    r
}

// Eight lanes as bytes.
fn packus8(record: Record<'_>) -> [u8; 8] {
    let a: [i16; 8] = record.numbers(2);
    array::from_fn(|k| of_lanes::probe_lanes_packus8(&a, k))
}

// A number that is no operation is taken as the one before it, and from 32 on as the last.
pub fn holds(record: Record<'_>) -> bool {
    match record.byte(0) {
        operation @ (0..=19 | 31 | 40 | 42) => eight(record, operation) == record.numbers(34),
        operation @ (20..=30 | 41) => four(record, operation) == record.numbers(34),
        _ => packus8(record) == record.numbers(34),
    }
}
