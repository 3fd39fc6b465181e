// Bits of eight lanes: joined and shifted (lanes.rs).
// srai16 here and srai32 in wide are map1 at an operator of each type (scalar::shifts): one for both would need a trait for that operator
// and for the bound of n, with two impls of one line. n < 16 and n < 32 are what scalar's shifts ask.
ghost use Rattle.std.specs.Prelude.{◌≡◌, ◌<◌};
ghost use Rattle.lanes.specs.Lanes.{mm_or_si128, mm_srai_epi16, mm_slli_epi16};

use crate::maps::{map1, map2};

// The bits of both.
pub fn or16(a: [i16; 8], b: [i16; 8]) -> [i16; 8]
    ensures { result ≡ mm_or_si128 a b }
{
    map2(a, b, scalar::or1)
}

// Shifted right by n; rounds down.
pub fn srai16(a: [i16; 8], n: u32) -> [i16; 8]
    requires { n < 16 }
    ensures { result ≡ mm_srai_epi16 a n }
{
    map1(a, |x| scalar::sra16(x, n))
}

// Shifted left by n; the bits above drop.
pub fn slli16(a: [i16; 8], n: u32) -> [i16; 8]
    requires { n < 16 }
    ensures { result ≡ mm_slli_epi16 a n }
{
    map1(a, |x| scalar::sll16(x, n))
}
