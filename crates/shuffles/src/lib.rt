// The operations of lanes.rs that move lanes, and the mask of a block's numbers that are not 0, passed on.
#![tactic(auto)]

pub mod mask;
pub mod places;

ghost use Rattle.std.specs.Prelude.{◌≡◌};
ghost use Rattle.shuffles.specs.Shuffles.{mm_shuffle_epi32, mm_shuffle_epi32_16, mm_shufflelo_epi16, mm_shufflehi_epi16, mm_unpacklo_epi32_16};

pub use crate::mask::nonzero_mask;
use crate::places::{high_place, low_place, pair_place, selector};
use lanes::maps::each;

// Four lanes of 32 bits, each chosen by two bits of imm.
#[tactic(auto, using(crate::proofs::places::Places::selector_lt))]
pub fn shuffle32(a: [i32; 4], imm: u8) -> [i32; 4]
    ensures { result ≡ mm_shuffle_epi32 a imm }
{
    each(|k| a[selector(imm, k)])
}

// Eight lanes of 16 bits, permuted in pairs.
#[tactic(auto, using(crate::proofs::places::Places::pair_lt))]
pub fn shuffle32_16(a: [i16; 8], imm: u8) -> [i16; 8]
    ensures { result ≡ mm_shuffle_epi32_16 a imm }
{
    each(|k| a[pair_place(imm, k)])
}

// The low four lanes permuted, the high four kept.
#[tactic(auto, using(crate::proofs::places::Places::low_lt))]
pub fn shufflelo(a: [i16; 8], imm: u8) -> [i16; 8]
    ensures { result ≡ mm_shufflelo_epi16 a imm }
{
    each(|k| a[low_place(imm, k)])
}

// The high four lanes permuted, the low four kept.
#[tactic(auto, using(crate::proofs::places::Places::high_lt))]
pub fn shufflehi(a: [i16; 8], imm: u8) -> [i16; 8]
    ensures { result ≡ mm_shufflehi_epi16 a imm }
{
    each(|k| a[high_place(imm, k)])
}

// Pairs of a and of b in turn, from the low halves.
#[tactic(auto, unfolding(crate::specs::Shuffles::mm_unpacklo_epi32_16))]
pub fn unpacklo32(a: [i16; 8], b: [i16; 8]) -> [i16; 8]
    ensures { result ≡ mm_unpacklo_epi32_16 a b }
{
    [a[0], a[1], b[0], b[1], a[2], a[3], b[2], b[3]]
}
