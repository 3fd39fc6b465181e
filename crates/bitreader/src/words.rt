// The next bits of a stream, at the top of a word of 64 bits (BitReader of bits.rs).
// A bit position counts from the stream's start, the highest bit of a byte first; past the end every bit is one.
// `p < 2 ^ 62` is said by each contract, and by no type: a bit position is a plain number, which callers reckon (`p + z`, `8 * at`), and
// a type would be made at each call and taken apart in it.
ghost use Rattle.std.specs.Prelude.{◌≡◌, ◌+◌, ◌-◌, ◌*◌, ◌%◌, ◌^◌, ◌≤◌, ◌<◌, length, get_or};
ghost use Rattle.bits.specs.Bits.{bit_at, num};
ghost use Rattle.bitreader.specs.words.Word.{Holds, eight};

// A byte of the stream; past the end every bit is one.
fn byte(s: &[u8], i: usize) -> u8
    ensures { result ≡ get_or s.now i 255 }
{
    if i < s.len() { s[i] } else { 255 }
}

// Eight bytes put together, the first the highest: the compiler makes one load and a byte swap of it. By u64::from_be_bytes peek becomes so
// small that it is made part of next_dc and next_symbol, and these then of no loop: a preview took 49 of 100 instructions more, a report 19.
fn join8(a: u8, b: u8, c: u8, d: u8, e: u8, f: u8, g: u8, h: u8) -> u64
    ensures { result ≡ eight a b c d e f g h }
{
    ((a as u64) << 56)
        | ((b as u64) << 48)
        | ((c as u64) << 40)
        | ((d as u64) << 32)
        | ((e as u64) << 24)
        | ((f as u64) << 16)
        | ((g as u64) << 8)
        | (h as u64)
}

// Eight whole bytes of the stream as a number.
pub fn word(s: &[u8], i: usize) -> u64
    requires { i + 8 ≤ length s.now }
    ensures { result ≡ num 64 0 (bit_at s.now) (8 * i) }
{
    join8(
        s[i],
        s[i + 1],
        s[i + 2],
        s[i + 3],
        s[i + 4],
        s[i + 5],
        s[i + 6],
        s[i + 7],
    )
}

// The same anywhere. A loop by index: `u64::from_be_bytes` of eight calls written out, `byte(s, i)` to `byte(s, i + 7)`, is no plainer (and
// a smooth 8-bit plane at preset 8 takes 1.2 of 100 more instructions, a dense 10-bit one 0.5 less).
fn edge(s: &[u8], i: usize) -> u64
    requires { i < 2 ^ 62 }
    ensures { result ≡ num 64 0 (bit_at s.now) (8 * i) }
{
    let mut w: u64 = 0;
    for k in 0..8 {
        w = w * 256 + byte(s, i + k) as u64;
    }
    w
}

// The bits from p on, at the top of a word: 57 of them at least.
pub fn far(s: &[u8], p: usize) -> u64
    requires { p < 2 ^ 62 }
    ensures { Holds s.now p (64 - p % 8) result }
{
    let k = (p % 8) as u32;
    edge(s, p / 8) << k
}

// The same, by one load where eight bytes are left.
pub fn peek(s: &[u8], p: usize) -> u64
    requires { p < 2 ^ 62 }
    ensures { Holds s.now p (64 - p % 8) result }
{
    let i = p / 8;
    let k = (p % 8) as u32;
    if i + 8 <= s.len() {
        word(s, i) << k
    } else {
        far(s, p)
    }
}
