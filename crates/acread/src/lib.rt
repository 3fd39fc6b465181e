// Reading the AC places of a block (slice.rs, the inner loop of decode_plane).
#![tactic(auto)]

pub mod through;

ghost use Rattle.std.specs.Prelude.{◌≡◌, ℕ, ◌+◌, ◌^◌, ◌≤◌, ◌<◌, length};
ghost use Rattle.acpairs.specs.Pairs.{Looks};
ghost use Rattle.bitreader.specs.Cursor.{At};
ghost use Rattle.acread.specs.Block.{span_of, flat_byte, BlockEnded};
ghost use Rattle.acread.specs.Going.{LooksIn, Onward};

use acpairs::LOOK;
use bitreader::{AcCursor, Stop};

// Where a block's places end: the cursor after the last code, and the zeros of its run that are still to come.
#[derive(Clone, Copy, Debug, PartialEq, Eq, Hash)]
pub struct BlockEnd {
    pub c: AcCursor,
    pub pending: u64,
}

// How many places a symbol takes: a value one, a run as many as its number.
pub fn span(run: u64, num: u64) -> u64
    ensures { result ≡ span_of run num }
{
    if run == 0 { 1 } else { num }
}

// 1 for a block that the zeros still to come fill, else 0.
pub fn flat(pending: u64) -> u8
    ensures { result ≡ flat_byte pending }
{
    if pending < 64 { 0 } else { 1 }
}

// Up to two symbols at a look into a table (acpairs), while the word has the bits of a look. The loop counts no index, here and in
// skip_block: what was read moves the cursor and the place.
fn by_table(a: Stop, tab: &[u32]) -> Stop
    requires { (a.c.count ≤ 64) × (a.c.pos < 2 ^ 60) × (a.place < 2 ^ 58) × (1024 ≤ length tab.now) × Looks tab.now }
    ensures { Onward a result }
{
    let mut c = a.c;
    let mut place = a.place;
    while LOOK <= c.count {
        let e = tab[(c.bits >> 54) as usize];
        let last = place + acpairs::before_last(e);
        if 64 <= last {
            break;
        }
        place += acpairs::places(e);
        c = bitreader::skip(c, acpairs::taken(e));
    }
    Stop { c, place }
}

// What is looked up where there is a table.
fn looked(a: Stop, tab: Option<&[u32]>) -> Stop
    requires { (a.c.count ≤ 64) × (a.c.pos < 2 ^ 60) × (a.place < 2 ^ 58) × LooksIn tab }
    ensures { Onward a result }
{
    match tab {
        Some(t) => by_table(a, t),
        None => a,
    }
}

// Reads the symbols of one block, after `pending` zeros, and keeps none of their values; nothing at a bad code. What is read does not
// depend on the table, which there need not be.
pub fn skip_block(s: &[u8], c0: AcCursor, pending: u64, tab: Option<&[u32]>) -> Option<BlockEnd>
    requires { At s.now c0 × (c0.pos < 2 ^ 59) × (pending < 2 ^ 57) × LooksIn tab }
    ensures { BlockEnded s.now c0.pos pending result }
{
    let mut c = c0;
    let mut place = pending;
    while place < 64 {
        let a = looked(Stop { c, place }, tab);
        c = a.c;
        place = a.place;
        if 64 <= place {
            break;
        }
        let Ok(g) = bitreader::next_symbol(s, c) else {
            return None;
        };
        c = g.c;
        place += span(g.run, g.num);
    }
    Some(BlockEnd {
        c,
        pending: place - 64,
    })
}
