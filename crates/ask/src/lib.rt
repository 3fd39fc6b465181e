// The questions of document 01: what a "no" refuses with, their limits, and how they are answered one by one.
// Each call puts its own questions in their order and ends with the refusal of the first "no" (`ask` and `?`).
#![tactic(auto)]

pub mod limits;
pub mod refusal;

ghost use Rattle.std.specs.Prelude.{◌≡◌, ◌&&◌, ◌+◌, ◌*◌, ◌<◌, leb};
ghost use Rattle.ask.specs.Limits.{preset_ok, shift_ok, place_ok, count_ok, stride_ok, rows_needed, start_ok, dc_read_ok, ac_read_ok};

pub use crate::refusal::{Refusal, ask, number_given};
use limits::{
    AC_READ_MAX, DC_READ_MAX, PLACE_MAX, PLANES_MAX, PRESET_MAX, ROWS, SHIFT_MAX, START_MAX,
    STRIDE_MAX,
};

// Question 1.
pub fn preset_ok(preset: usize) -> bool
    ensures { result ≡ preset_ok preset }
{
    preset <= PRESET_MAX
}

// Question 2.
pub fn shift_ok(shift: u32) -> bool
    ensures { result ≡ shift_ok shift }
{
    shift <= SHIFT_MAX
}

// Question 3 of a plane.
pub fn place_ok(place: usize) -> bool
    ensures { result ≡ place_ok place }
{
    place <= PLACE_MAX
}

// Question 3 of a slice: 1 to 4 planes.
pub fn count_ok(count: usize) -> bool
    ensures { result ≡ count_ok count }
{
    1 <= count && count <= PLANES_MAX
}

// Question 4: a multiple of 8 from 8 to 7,680.
pub fn stride_ok(stride: usize) -> bool
    ensures { result ≡ stride_ok stride }
{
    stride % 8 == 0 && 8 <= stride && stride <= STRIDE_MAX
}

// Question 5: n samples are at least 16 rows. Compared by division: no product overflows.
pub fn rows_ok(stride: usize, n: usize) -> bool
    ensures { result ≡ leb (rows_needed stride) n }
{
    stride <= n / ROWS
}

// Question 6: so many columns of blocks, of so many bytes each, fit after `at` in a buffer of n bytes.
pub fn room_ok(at: usize, bytes: usize, columns: usize, n: usize) -> bool
    requires { 0 < bytes }
    ensures { result ≡ leb (at + bytes * columns) n }
{
    if n < at {
        return false;
    }
    columns <= (n - at) / bytes
}

// Question 7: where a stream is to start.
pub fn start_ok(at: usize) -> bool
    ensures { result ≡ start_ok at }
{
    at <= START_MAX
}

// Question 7 of a DC stream that is read: its length.
pub fn dc_read_ok(n: usize) -> bool
    ensures { result ≡ dc_read_ok n }
{
    n <= DC_READ_MAX
}

// Question 7 of an AC stream that is read: its length.
pub fn ac_read_ok(n: usize) -> bool
    ensures { result ≡ ac_read_ok n }
{
    n <= AC_READ_MAX
}
