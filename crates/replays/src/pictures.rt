// Shown rows and shown time. A record of 320 bytes (oracle/ANSWERS.md): the kind, the answer, both pictures' lengths and first
// samples, stride, slice and verdict, where the rows lie, and the rows.
use crate::depths::Depth;
use ask::Refusal;
use replay::{Record, part};
use vmx::container::{vmx_shown_rows, vmx_shown_time};

pub const LENGTH: usize = 320;
// The samples of the longest picture: 271 slices of stride 8.
const MOST: usize = 34688;

// What is asked: which rows are shown, out of pictures of these lengths.
#[derive(Clone, Copy)]
struct Asked<'a> {
    record: Record<'a>,
    new: usize,
    held: usize,
    stride: usize,
    slice: usize,
    verdict: u32,
}

// Makes a picture, by its first sample: neighbours differ.
fn make<T: Depth>(samples: &mut [T], first: u16) {
    let mut number = first;
    for sample in samples.iter_mut() {
        *sample = T::of_number(number);
        number = number.wrapping_add(40503);
    }
}

impl<'a> Asked<'a> {
    fn of(record: Record<'a>) -> Asked<'a> {
        Asked {
            record,
            new: record.position(8),
            held: record.position(16),
            stride: record.position(24),
            slice: record.position(32),
            verdict: record.number(56),
        }
    }

    // The exported call: the number, out of which picture, where. A refused call leaves it unsaid out of which.
    fn exported(self) -> bool {
        let mut from_new = 7;
        let mut offset = 7;
        let mut len = 7;
        let number = vmx_shown_rows(
            self.new,
            self.held,
            self.stride,
            self.slice,
            self.verdict,
            &mut from_new,
            &mut offset,
            &mut len,
        );
        let named = if number == 0 {
            u32::from(self.record.byte(2))
        } else {
            7
        };
        number == u32::from(self.record.byte(1))
            && from_new == named
            && offset == self.record.position(40)
            && len == self.record.position(48)
    }

    // By the pictures' lengths alone.
    fn by_lengths(self) -> bool {
        shown::shown_asked(self.new, self.held, self.stride, self.slice).map_err(Refusal::number)
            == self.record.answer(1, ())
            && self.exported()
    }

    // The rows themselves, as a part of one of the two pictures.
    fn rows<T: Depth>(self, new: &[T], held: &[T], stored: &[T]) -> bool {
        let new = part(new, 0..self.new);
        let held = part(held, 0..self.held);
        let stored = part(stored, 0..self.record.position(48));
        shown::shown_rows(new, held, self.stride, self.slice, self.verdict).map_err(Refusal::number)
            == self.record.answer(1, stored)
    }

    // The same, out of the record's pictures, which are made in this room.
    fn rows_in<T: Depth>(self, new: &mut [T], held: &mut [T], stored: &[T]) -> bool {
        let [first_new, first_held]: [u16; 2] = self.record.numbers(4);
        make(new, first_new);
        make(held, first_held);
        self.rows(new, held, stored)
    }

    // Of 8-bit samples. A function pays for all its room at each call, so each depth has one of its own.
    fn eight(self) -> bool {
        self.rows_in(&mut [0; MOST], &mut [0; MOST], self.record.part(64..320))
    }

    // Of 10-bit samples.
    fn ten(self) -> bool {
        let stored: [u16; 128] = self.record.numbers(64);
        self.rows_in(&mut [0; MOST], &mut [0; MOST], &stored)
    }
}

// The time, by the exported call and the inner one.
fn time(record: Record<'_>) -> bool {
    let new = record.number(8);
    let held = record.number(16);
    let verdict = record.number(56);
    let stored: u64 = record.number(40);
    shown::shown_time(new, held, verdict) == stored && vmx_shown_time(new, held, verdict) == stored
}

pub fn holds(record: Record<'_>) -> bool {
    let asked = Asked::of(record);
    match record.byte(0) {
        0 => asked.by_lengths(),
        1 => asked.by_lengths() && asked.eight(),
        2 => asked.by_lengths() && asked.ten(),
        _ => time(record),
    }
}
