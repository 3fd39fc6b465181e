// Products of eight lanes, added in pairs (lanes.rs).
ghost use Rattle.std.specs.Prelude.{◌≡◌};
ghost use Rattle.lanes.specs.Lanes.{mm_madd_epi16};

use crate::maps::each;

// The products of each pair of lanes, added; the sum wraps at 32 bits.
pub fn madd(a: [i16; 8], b: [i16; 8]) -> [i32; 4]
    ensures { result ≡ mm_madd_epi16 a b }
{
    each(|k| scalar::madd1(a[2 * k], b[2 * k], a[2 * k + 1], b[2 * k + 1]))
}
