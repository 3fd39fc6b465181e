// The bit writer of the slice streams (BitAcc of bits.rs), highest bit first, over a buffer that the caller lends.
// The accumulator takes up to 63 bits and stores eight whole bytes when it is full; only bytes of the stream are ever stored.
//
// What stays as it is, since the new form is no plainer:
// - The accumulator by value and the buffer lent beside it. A struct that keeps the lent buffer would have to promise in each contract
//   that its field still is that buffer (`result.out.ghost_name ≡ a.out.ghost_name`); two parameters need no such clause.
// - 0 < c, c < 2 ^ 15 and n < 2 ^ 17 as clauses. A NonZero is made by a test, whose other answer can't come where a mask found the value
//   (entropy::coder); a struct of run and code would be made for one call and taken apart in it, its maker asking the same three.
// - n < 64 in put, store::join and store::low: each n counts bits of another number, and is used once, in a shift, which asks it.
#![tactic(auto)]

pub mod lent;
pub mod store;

ghost use Rattle.std.specs.Prelude.{◌≡◌, ◌++◌, ◌+◌, ◌-◌, ◌*◌, ◌/◌, ◌%◌, ◌^◌, ◌≤◌, ◌<◌, length};
ghost use Rattle.bits.specs.Bits.{bits_of, bit_length, value_code, run_code, pad_to_byte};
ghost use Rattle.bits.specs.Lay.{lay};
ghost use Rattle.bitwriter.specs.Put.{start, Room, LastRoom, Put, flushed};
ghost use Rattle.bitwriter.specs.Pairs.{pair_code};

#[derive(Clone, Copy, Debug, PartialEq, Eq, Hash)]
pub struct BitAcc {
    // The bits that wait, in the low end.
    pub acc: u64,
    // How many wait.
    pub nbits: u32,
    // Where the next byte goes.
    pub pos: usize,
}

impl BitAcc {
    // A writer at the byte pos: no bits wait.
    pub fn starting_at(pos: usize) -> BitAcc
        ensures { result ≡ start pos }
    {
        BitAcc {
            acc: 0,
            nbits: 0,
            pos,
        }
    }
}

// Appends the n bits of v.
#[tactic(auto, using(crate::proofs::Filling::below, crate::proofs::Filling::free_again, crate::proofs::Filling::top, crate::proofs::Filling::put_few, crate::proofs::Filling::put_full))]
pub fn put(a: BitAcc, v: u64, n: u32, out: &mut [u8]) -> BitAcc
    requires { (n < 64) × (v < 2 ^ n) × Room a n out.old }
    ensures { Put a out.old (bits_of n v) result out.new }
{
    let free = 64 - a.nbits;
    let pos = a.pos;
    if n < free {
        return BitAcc {
            acc: crate::store::join(a.acc, n, v),
            nbits: a.nbits + n,
            pos,
        };
    }
    let r = n - free;
    crate::store::store8(out, pos, crate::store::join(a.acc, free, v >> r));
    BitAcc {
        acc: crate::store::low(v, r),
        nbits: r,
        pos: pos + 8,
    }
}

// Appends the value code of c.
#[tactic(auto, using(crate::proofs::Words::value_fits_32, crate::proofs::Words::value_put))]
pub fn put_value(a: BitAcc, c: u32, out: &mut [u8]) -> BitAcc
    requires { (0 < c) × Room a (length (value_code c)) out.old }
    ensures { Put a out.old (value_code c) result out.new }
{
    let n = 2 * bits::bit_len(c) - 1;
    put(a, c as u64, n, out)
}

// The run code of n as a number; b is n's bit length.
#[tactic(auto, using(crate::proofs::RunWord::few, crate::proofs::RunWord::run_number))]
fn run_word(n: u32, b: u32) -> u64
    requires { (b ≡ bit_length n) × (n < 2 ^ 31) }
    ensures { result ≡ 2 ^ (2 * b) / 2 + n }
{
    ((1u64 << (2 * b)) >> 1) | n as u64
}

// Appends the run code of n: nothing for 0.
#[tactic(auto, using(crate::proofs::Words::run_fits_31, crate::proofs::Words::run_room, crate::proofs::Words::run_put))]
pub fn put_run(a: BitAcc, n: u32, out: &mut [u8]) -> BitAcc
    requires { (n < 2 ^ 31) × Room a (length (run_code n)) out.old }
    ensures { Put a out.old (run_code n) result out.new }
{
    let b = bits::bit_len(n);
    put(a, run_word(n, b), 2 * b, out)
}

// A run code and the value code after it as one number, and how many bits they are.
#[derive(Clone, Copy, Debug, PartialEq, Eq, Hash)]
pub struct PairCode {
    pub bits: u64,
    pub length: u32,
}

// The run code of n, then the value code of c: 34 bits and 29 bits at most.
#[tactic(auto, using(crate::proofs::Words::run_fits_17, crate::proofs::Words::value_fits_15))]
pub fn pair_code(n: u32, c: u32) -> PairCode
    requires { (n < 2 ^ 17) × (0 < c) × (c < 2 ^ 15) }
    ensures { result ≡ pair_code n c }
{
    let b = bits::bit_len(n);
    let k = 2 * bits::bit_len(c) - 1;
    PairCode {
        bits: crate::store::join(run_word(n, b), k, c as u64),
        length: 2 * b + k,
    }
}

// Appends the run code of n, then the value code of c, in one put.
#[tactic(auto, using(crate::proofs::Pairs::pair_asks, crate::proofs::Pairs::pair_put))]
pub fn put_run_value(a: BitAcc, n: u32, c: u32, out: &mut [u8]) -> BitAcc
    requires { (n < 2 ^ 17) × (0 < c) × (c < 2 ^ 15) × Room a (length (run_code n ++ value_code c)) out.old }
    ensures { Put a out.old (run_code n ++ value_code c) result out.new }
{
    let p = pair_code(n, c);
    put(a, p.bits, p.length, out)
}

// Stores the bits that wait, with zero bits up to a byte.
#[tactic(auto, using(crate::proofs::Filling::moved_up, crate::proofs::Filling::padding, bits::proofs::Pack::pad_word))]
pub fn align(a: BitAcc, out: &mut [u8]) -> BitAcc
    requires { LastRoom a out.old }
    ensures { (result ≡ flushed a) × (out.new ≡ lay out.old a.pos (pad_to_byte (bits_of a.nbits a.acc))) }
{
    let m = (a.nbits + 7) / 8;
    let pos = a.pos;
    let w = crate::store::join(a.acc, 8 * m - a.nbits, 0);
    crate::store::store_low(out, pos, w, m);
    BitAcc::starting_at(pos + m as usize)
}
