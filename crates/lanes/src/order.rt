// The lesser and the greater of eight lanes (lanes.rs).
ghost use Rattle.std.specs.Prelude.{◌≡◌};
ghost use Rattle.lanes.specs.Lanes.{mm_min_epi16, mm_max_epi16};

use crate::maps::map2;

// The lesser of the two.
pub fn min16(a: [i16; 8], b: [i16; 8]) -> [i16; 8]
    ensures { result ≡ mm_min_epi16 a b }
{
    map2(a, b, scalar::min1)
}

// The greater of the two.
pub fn max16(a: [i16; 8], b: [i16; 8]) -> [i16; 8]
    ensures { result ≡ mm_max_epi16 a b }
{
    map2(a, b, scalar::max1)
}
