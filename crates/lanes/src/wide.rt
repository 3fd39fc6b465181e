// Operations on four lanes of 32 bits (lanes.rs). Those that 16 bits have too are one map each at the operator of their type.
ghost use Rattle.std.specs.Prelude.{◌≡◌, ◌<◌};
ghost use Rattle.lanes.specs.Lanes.{mm_add_epi32, mm_sub_epi32, mm_srai_epi32};

use crate::maps::{map1, map2};

// Sums of 32 bits that wrap.
pub fn add32(a: [i32; 4], b: [i32; 4]) -> [i32; 4]
    ensures { result ≡ mm_add_epi32 a b }
{
    map2(a, b, scalar::add32)
}

// Differences of 32 bits that wrap.
pub fn sub32(a: [i32; 4], b: [i32; 4]) -> [i32; 4]
    ensures { result ≡ mm_sub_epi32 a b }
{
    map2(a, b, scalar::sub32)
}

// Lanes of 32 bits, shifted right by n; rounds down.
pub fn srai32(a: [i32; 4], n: u32) -> [i32; 4]
    requires { n < 32 }
    ensures { result ≡ mm_srai_epi32 a n }
{
    map1(a, |x| scalar::sra32(x, n))
}
