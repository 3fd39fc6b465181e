// The writer of crate bitwriter through a reference to its accumulator (the Rust's &mut self): each call hands the state to the core by value and stores what comes back.
ghost use Rattle.std.specs.Prelude.{◌≡◌, ◌++◌, ◌^◌, ◌<◌, length};
ghost use Rattle.bits.specs.Bits.{bits_of, value_code, run_code, pad_to_byte};
ghost use Rattle.bits.specs.Lay.{lay};
ghost use Rattle.bitwriter.specs.Put.{Room, LastRoom, Put, flushed};

use crate::BitAcc;

// Appends the value code of c.
pub fn put_value(a: &mut BitAcc, c: u32, out: &mut [u8])
    requires { (0 < c) × Room a.old (length (value_code c)) out.old }
    ensures { Put a.old out.old (value_code c) a.new out.new }
{
    *a = crate::put_value(*a, c, out);
}

// Appends the run code of n, then the value code of c.
pub fn put_run_value(a: &mut BitAcc, n: u32, c: u32, out: &mut [u8])
    requires { (n < 2 ^ 17) × (0 < c) × (c < 2 ^ 15) × Room a.old (length (run_code n ++ value_code c)) out.old }
    ensures { Put a.old out.old (run_code n ++ value_code c) a.new out.new }
{
    *a = crate::put_run_value(*a, n, c, out);
}

// Stores the bits that wait, with zero bits up to a byte.
pub fn align(a: &mut BitAcc, out: &mut [u8])
    requires { LastRoom a.old out.old }
    ensures { (a.new ≡ flushed a.old)
        × (out.new ≡ lay out.old a.old.pos (pad_to_byte (bits_of a.old.nbits a.old.acc))) }
{
    *a = crate::align(*a, out);
}
