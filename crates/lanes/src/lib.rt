// Vectors of 128 bits as arrays of lanes. The operations of lanes.rs on them are in the modules of lanes, one call of map1 or map2 each
// (maps); the definitions of all of them (specs/Lanes.antt) are here, and how a vector is made.
// Each means what the Intel intrinsic does whose name its definition has.
// splat and splat32 are one for each intrinsic: a generic one would be [v; N] again, and its contract would name neither.
#![tactic(auto)]

pub mod maps;
pub mod order;
pub mod packs;
pub mod pair_products;
pub mod products;
pub mod rows;
pub mod shifts;
pub mod signs;
pub mod sums;
pub mod wide;

ghost use Rattle.std.specs.Prelude.{◌≡◌};
ghost use Rattle.lanes.specs.Lanes.{mm_set1_epi16, mm_set1_epi32, mm_loadu_si128};

use crate::maps::map1;

// v in each of eight lanes.
#[tactic(auto, unfolding(crate::specs::Lanes::mm_set1_epi16, scalar::specs::Tab::tab_from))]
pub fn splat(v: i16) -> [i16; 8]
    ensures { result ≡ mm_set1_epi16 v }
{
    [v; 8]
}

// v in each of four lanes.
#[tactic(auto, unfolding(crate::specs::Lanes::mm_set1_epi32, scalar::specs::Tab::tab_from))]
pub fn splat32(v: i32) -> [i32; 4]
    ensures { result ≡ mm_set1_epi32 v }
{
    [v; 4]
}

// Unsigned constants, reread as signed lanes.
pub fn load_u(t: [u16; 8]) -> [i16; 8]
    ensures { result ≡ mm_loadu_si128 t }
{
    map1(t, scalar::signed16)
}
