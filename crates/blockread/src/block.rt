// The blocks of a plane. S makes an instance for each depth: with one caller it is made part of that depth's loop over blocks, where one for
// both would stay a call, the block and all that is between two blocks in memory.
//
// The bounds of s.dc.pos and s.ac stay clauses: each block moves both on, so a type of places below 2 ^ 58 could not keep what is handed
// back. The shift stays a number, here and in dc::settled: a type that keeps `shift < 16` would be made from a plane's settings, under the
// same clause, and opened for the one shift.
ghost use Rattle.std.specs.Prelude.{◌≡◌, ◌^◌, ◌<◌, true};
ghost use Rattle.blockread.specs.On.{Ready, NextBlock, read_on, good_plane};

use crate::{BlockGot, Stand};
use acplaces::{AcGot, Tables};
use sample::Sample;

// The next block of a plane whose codes are good: its AC places, unless the zeros still to come fill them, then its DC.
pub fn next_block<S: Sample>(dc: &[u8], ac: &[u8], s: Stand, shift: u32, t: &Tables) -> BlockGot
    requires { Ready dc.now s × (s.dc.pos < 2 ^ 58) × (s.ac < 2 ^ 58) × (shift < 16)
        × (good_plane (read_on shift 1 dc.now ac.now s) ≡ true) }
    ensures { NextBlock shift dc.now ac.now s result }
{
    let mut nat = [0i16; 64];
    let at = s.ac;
    let g = if s.pending < 64 {
        acplaces::read_block(ac, at, s.pending, s.before, t, &mut nat)
    } else {
        AcGot {
            at,
            pending: s.pending - 64,
        }
    };
    let d = s.dc;
    let h = bitreader::next_dc(dc, d).unwrap();
    let last = crate::dc::settled(h.run, h.num, shift, nat[0], s.last);
    nat[0] = last;
    let e = h.c;
    let b = g.at;
    BlockGot {
        next: Stand {
            dc: e,
            ac: b,
            pending: g.pending,
            before: b - at,
            last,
        },
        flat: 64 <= s.pending,
        nat,
    }
}
