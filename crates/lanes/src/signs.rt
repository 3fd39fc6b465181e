// Signs and magnitudes of eight lanes (lanes.rs); the lesser and the greater are passed on.
ghost use Rattle.std.specs.Prelude.{◌≡◌};
ghost use Rattle.lanes.specs.Lanes.{mm_sign_epi16, mm_abs_epi16};

use crate::maps::{map1, map2};
pub use crate::order::{max16, min16};

// a with the signs of b, 0 where b is 0.
pub fn sign16(a: [i16; 8], b: [i16; 8]) -> [i16; 8]
    ensures { result ≡ mm_sign_epi16 a b }
{
    map2(a, b, scalar::sign1)
}

// Magnitudes; that of -32768 wraps to itself.
pub fn abs16(a: [i16; 8]) -> [i16; 8]
    ensures { result ≡ mm_abs_epi16 a }
{
    map1(a, scalar::abs1)
}
