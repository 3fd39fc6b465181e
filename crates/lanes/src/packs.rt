// Lanes narrowed: 32 bits to 16, 16 bits to 8 (lanes.rs).
ghost use Rattle.std.specs.Prelude.{◌≡◌, ◌++◌, ◌<◌};
ghost use Rattle.scalar.specs.Tab.{lane};
ghost use Rattle.lanes.specs.Lanes.{mm_packs_epi32, mm_packus_epi16};

use crate::maps::{each, map1};

// Lane k of a followed by b.
#[tactic(auto, using(crate::proofs::packs::Halves::joined_low, crate::proofs::packs::Halves::joined_high))]
pub fn joined(a: [i32; 4], b: [i32; 4], k: usize) -> i32
    requires { k < 8 }
    ensures { result ≡ lane (a ++ b) k }
{
    if k < 4 { a[k] } else { b[k - 4] }
}

// The lanes of a, then of b, saturated to 16 bits.
pub fn packs32(a: [i32; 4], b: [i32; 4]) -> [i16; 8]
    ensures { result ≡ mm_packs_epi32 a b }
{
    each(|k| scalar::sat(joined(a, b, k)))
}

// Each lane as the nearest byte.
pub fn packus8(a: [i16; 8]) -> [u8; 8]
    ensures { result ≡ mm_packus_epi16 a }
{
    map1(a, scalar::packus1)
}
