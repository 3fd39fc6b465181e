// Where the lanes of a shuffle come from (lanes.rs).
// k < 8 stands in three contracts: k is the place that a loop over lanes counts, and a type for it would be made at each place.
ghost use Rattle.std.specs.Prelude.{◌≡◌, ◌<◌};
ghost use Rattle.shuffles.specs.places.Chosen.{selector, pair_place, low_place, high_place};

// The lane that imm chooses for place k.
#[tactic(auto, unfolding(crate::specs::places::Chosen::selector))]
pub fn selector(imm: u8, k: usize) -> usize
    requires { k < 4 }
    ensures { result ≡ selector imm k }
{
    (imm as usize >> (2 * k)) % 4
}

// Where the 16-bit lane k of a vector comes from whose 32-bit lanes imm permutes.
#[tactic(auto, using(crate::proofs::places::Places::selector_lt), unfolding(crate::specs::places::Chosen::pair_place))]
pub fn pair_place(imm: u8, k: usize) -> usize
    requires { k < 8 }
    ensures { result ≡ pair_place imm k }
{
    2 * selector(imm, k / 2) + k % 2
}

// Where lane k comes from when imm permutes the low four.
#[tactic(auto, using(crate::proofs::places::Places::low_selects, crate::proofs::places::Places::low_keeps))]
pub fn low_place(imm: u8, k: usize) -> usize
    requires { k < 8 }
    ensures { result ≡ low_place imm k }
{
    if k < 4 { selector(imm, k) } else { k }
}

// Where lane k comes from when imm permutes the high four.
#[tactic(auto, using(crate::proofs::places::Places::selector_lt, crate::proofs::places::Places::high_selects, crate::proofs::places::Places::high_keeps))]
pub fn high_place(imm: u8, k: usize) -> usize
    requires { k < 8 }
    ensures { result ≡ high_place imm k }
{
    if k < 4 { k } else { 4 + selector(imm, k - 4) }
}
