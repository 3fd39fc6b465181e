// Reading bits and symbols (bits.rs, BitReader and AcCursor). Stream and position are passed separately.
// A bit position counts from the stream's start, the highest bit of a byte first; past the end every bit is one.
// How far a cursor may stand (`c.pos < 2 ^ 62`, `2 ^ 61`, `2 ^ 60`) and that it stands in a stream (`At s.now c`) are said by each
// contract, and by no type: the limit falls from a caller to what it calls, `next_symbol` to `look` to `skip`, since each moves the cursor;
// and `At` is of a cursor and of the stream that is passed beside it.
#![tactic(auto)]

pub mod scan;
pub mod words;

ghost use Rattle.std.specs.Prelude.{◌≡◌, ℕ, ◌+◌, ◌-◌, ◌*◌, ◌/◌, ◌%◌, ◌^◌, ◌≤◌, ◌<◌};
ghost use Rattle.bits.specs.Bits.{bit_at, bytes_for};
ghost use Rattle.bits.specs.Read.{read_tail};
ghost use Rattle.bits.specs.Signed.{signed_of};
ghost use Rattle.bitreader.specs.words.Word.{number_of};
ghost use Rattle.bitreader.specs.Cursor.{At, NextSymbol, NextDc, Seen, SeenDc, long_of};

// A place in a stream, with the next bits at the top of a word.
#[derive(Clone, Copy, Debug, PartialEq, Eq, Hash)]
pub struct AcCursor {
    pub pos: usize,
    pub bits: u64,
    pub count: u32,
}

// A code that was read: the head bit (1: a run, or a zero step), the number, and the cursor after it.
#[derive(Clone, Copy, Debug, PartialEq, Eq, Hash)]
pub struct Got {
    pub run: u64,
    pub num: u64,
    pub c: AcCursor,
}

// A bad code: its head bit, and a cursor at its place.
#[derive(Clone, Copy, Debug, PartialEq, Eq, Hash)]
pub struct BadCode {
    pub run: u64,
    pub c: AcCursor,
}

// Within a block: the cursor, and the place that the next symbol is for.
#[derive(Clone, Copy, Debug, PartialEq, Eq, Hash)]
pub struct Stop {
    pub c: AcCursor,
    pub place: u64,
}

// A cursor at p.
pub fn cursor(s: &[u8], p: usize) -> AcCursor
    requires { p < 2 ^ 62 }
    ensures { At s.now result × (result.pos ≡ p) × (56 < result.count) }
{
    let k = (p % 8) as u32;
    AcCursor {
        pos: p,
        bits: crate::words::peek(s, p),
        count: 64 - k,
    }
}

// The byte at or after a cursor's place, where what was read ends.
pub fn end_byte(c: AcCursor) -> usize
    requires { c.pos < 2 ^ 62 }
    ensures { result ≡ bytes_for c.pos }
{
    (c.pos + 7) / 8
}

// n bits further.
pub fn skip(c: AcCursor, n: u32) -> AcCursor
    requires { (n ≤ c.count) × (n < 64) × (c.pos < 2 ^ 62) }
    ensures { (result.pos ≡ c.pos + n) × (result.count ≡ c.count - n) × (result.bits ≡ (c.bits * 2 ^ n) % 2 ^ 64) }
{
    AcCursor {
        pos: c.pos + n as usize,
        bits: c.bits << n,
        count: c.count - n,
    }
}

// The cursor with at least 32 bits.
fn filled(s: &[u8], c: AcCursor) -> AcCursor
    requires { At s.now c × (c.pos < 2 ^ 62) }
    ensures { At s.now result × (result.pos ≡ c.pos) × (31 < result.count) }
{
    if c.count < 32 {
        let k = (c.pos % 8) as u32;
        AcCursor {
            pos: c.pos,
            bits: crate::words::peek(s, c.pos),
            count: 64 - k,
        }
    } else {
        c
    }
}

// The y + 1 bits after the y highest.
fn digits(t: u64, y: u32) -> u64
    requires { y < 32 }
    ensures { result ≡ ((t * 2 ^ y) % 2 ^ 64) / 2 ^ (63 - y) }
{
    (t << y) >> (63 - y)
}

// The symbol at a cursor by one look at its word, the same for all three kinds: run is the head, y zeros follow.
// Nothing where it does not end before the word's last bit.
pub fn look(c: AcCursor) -> Option<Got>
    requires { (c.count ≤ 64) × (c.pos < 2 ^ 61) }
    ensures { Seen c result }
{
    let run = c.bits >> 63;
    let t = c.bits << run;
    let y = u64::leading_zeros(t);
    let n = 2 * y + 1 + run as u32;
    if c.count <= n {
        return None;
    }
    Some(Got {
        run,
        num: digits(t, y),
        c: skip(c, n),
    })
}

// The same of the DC stream, where the head's second bit counts for nothing, by 31 bits.
fn look_dc(c: AcCursor) -> Option<Got>
    requires { (31 < c.count) × (c.count ≤ 64) × (c.pos < 2 ^ 61) }
    ensures { SeenDc c result }
{
    let run = c.bits >> 63;
    let t = c.bits;
    let y = u64::leading_zeros(t);
    if y > 14 {
        return None;
    }
    Some(Got {
        run,
        num: digits(t, y),
        c: skip(c, 2 * y + 1 + run as u32),
    })
}

// The number after a head, of any length; nothing for a bad code. Long codes are seldom: a number alone comes back,
// so that where the compiler leaves this a call, nothing of a cursor goes through memory.
fn long_number(s: &[u8], p: usize) -> Option<u64>
    requires { p < 2 ^ 61 }
    ensures { result ≡ number_of (read_tail (bit_at s.now) p) }
{
    let z = u64::leading_zeros(crate::words::far(s, p));
    if z > 54 {
        return None;
    }
    Some(crate::words::far(s, p + z as usize) >> (62 - z))
}

// What was got by the number v after the head run at c: a code's length is that of its number's digits.
fn longer(c: AcCursor, run: u64, v: u64) -> Got
    requires { (c.pos < 2 ^ 60) × (run < 2) × (0 < v) }
    ensures { result ≡ long_of c run v }
{
    let n = 2 * (64 - u64::leading_zeros(v)) + run as u32 - 1;
    Got {
        run,
        num: v,
        c: AcCursor {
            pos: c.pos + n as usize,
            bits: 0,
            count: 0,
        },
    }
}

// The symbol of the AC stream at a cursor: `0` value, `10` run, `11` run of 1; or a bad code.
pub fn next_symbol(s: &[u8], c: AcCursor) -> Result<Got, BadCode>
    requires { At s.now c × (c.pos < 2 ^ 60) }
    ensures { NextSymbol s.now c result }
{
    let d = filled(s, c);
    if let Some(g) = look(d) {
        return Ok(g);
    }
    let run = d.bits >> 63;
    let Some(v) = long_number(s, d.pos + 1 + run as usize) else {
        return Err(BadCode { run, c: d });
    };
    Ok(longer(d, run, v))
}

// The code of the DC stream at a cursor: a first bit of one is a zero step; or a bad code.
pub fn next_dc(s: &[u8], c: AcCursor) -> Result<Got, BadCode>
    requires { At s.now c × (c.pos < 2 ^ 60) }
    ensures { NextDc s.now c result }
{
    let d = filled(s, c);
    if let Some(g) = look_dc(d) {
        return Ok(g);
    }
    let Some(v) = long_number(s, d.pos + 1) else {
        return Err(BadCode { run: 0, c: d });
    };
    Ok(longer(d, 0, v))
}

// The number of a value code, cut to 16 bits, wrapping: an odd code is above 0.
pub fn from_code(code: u64) -> i16
    ensures { result ≡ signed_of code }
{
    let h = ((code / 2) % 65536) as u32;
    if code % 2 == 1 {
        scalar::low(h as i32)
    } else {
        scalar::low(((65536 - h) % 65536) as i32)
    }
}
