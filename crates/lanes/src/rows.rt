// Rows of lanes, taken out of a block by value and put into one.
// r < 8 stands in four contracts: a type for a row's number would be made of a usize by each caller and be one again in each body.
ghost use Rattle.std.specs.Prelude.{◌≡◌, ℕ, ◌+◌, ◌*◌, ◌<◌, ◌≤◌, length, slice_index_or};
ghost use Rattle.lanes.specs.rows.Block.{row_of, put_of, wide_of, numbers_of};

use crate::maps::each;

// N elements of s, from place `at` on.
pub fn part<T: Copy + Default, const N: usize>(s: &[T], at: usize) -> [T; N]
    requires { at + N ≤ length s.now }
    ensures { (k : ℕ) (x : T) → k < N → slice_index_or result k x ≡ slice_index_or s.now (at + k) x }
{
    each(
        |k| -> T
            requires { at + k < length s.now }
            ensures { (x : T) → result ≡ slice_index_or s.entry.now (at + k) x }
        { s[at + k] },
    )
}

// Row r of a block.
pub fn row(b: &[i16; 64], r: usize) -> [i16; 8]
    requires { r < 8 }
    ensures { result ≡ row_of b.now r }
{
    part(b, 8 * r)
}

// Stores row r of a block. A loop by index: maps says why.
#[tactic(auto, using(crate::proofs::rows::Stored::stores_next), unfolding(crate::specs::rows::Block::put_of, scalar::specs::Tab::tab_from))]
pub fn put(b: &mut [i16; 64], r: usize, x: [i16; 8])
    requires { r < 8 }
    ensures { b.new ≡ put_of b.old r x }
{
    for k in 0..8 {
        b[8 * r + k] = x[k];
    }
}

// The block of the rows f of their numbers.
pub fn each_row<F: Fn(usize) -> [i16; 8]>(f: F) -> [i16; 64]
    requires { (r : ℕ) → r < 8 → F.pre f r }
    ensures { (r : ℕ) → r < 8 → F.post f r (row_of result r) }
{
    let mut b = [0i16; 64];
    for r in 0..8 {
        put(&mut b, r, f(r));
    }
    b
}

// The same, two rows a turn: so the compiler works along a row, not across rows.
pub fn each_of_two<F: Fn(usize) -> [i16; 8]>(f: F) -> [i16; 64]
    requires { (r : ℕ) → r < 8 → F.pre f r }
    ensures { (r : ℕ) → r < 8 → F.post f r (row_of result r) }
{
    let mut b = [0i16; 64];
    for p in 0..4 {
        for h in 0..2 {
            put(&mut b, 2 * p + h, f(2 * p + h));
        }
    }
    b
}

// Row r of eight rows of four lanes of 32 bits.
pub fn wide(m: &[i32; 32], r: usize) -> [i32; 4]
    requires { r < 8 }
    ensures { result ≡ wide_of m.now r }
{
    part(m, 4 * r)
}

// The divisors of row r of a block.
pub fn numbers(d: &[u16; 64], r: usize) -> [u16; 8]
    requires { r < 8 }
    ensures { result ≡ numbers_of d.now (8 * r) }
{
    part(d, 8 * r)
}

// Eight of a preset's quantiser numbers, from place `at` on.
pub fn numbers_at(t: &[u16; 192], at: usize) -> [u16; 8]
    requires { at ≤ 184 }
    ensures { result ≡ numbers_of t.now at }
{
    part(t, at)
}
