// Sums and differences of eight lanes (lanes.rs).
ghost use Rattle.std.specs.Prelude.{◌≡◌};
ghost use Rattle.lanes.specs.Lanes.{mm_adds_epi16, mm_subs_epi16, mm_add_epi16};

use crate::maps::map2;

// Sums that saturate.
pub fn adds(a: [i16; 8], b: [i16; 8]) -> [i16; 8]
    ensures { result ≡ mm_adds_epi16 a b }
{
    map2(a, b, scalar::adds1)
}

// Differences that saturate.
pub fn subs(a: [i16; 8], b: [i16; 8]) -> [i16; 8]
    ensures { result ≡ mm_subs_epi16 a b }
{
    map2(a, b, scalar::subs1)
}

// Sums that wrap.
pub fn add16(a: [i16; 8], b: [i16; 8]) -> [i16; 8]
    ensures { result ≡ mm_add_epi16 a b }
{
    map2(a, b, scalar::add1)
}
