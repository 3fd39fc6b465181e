// The products of the forward row pass. They are the one step that goes over the whole block and not row by row: the compiler
// makes pmaddwd of it so. Two pair sums added in one expression would lose that form, so they fill an array first.
ghost use Rattle.std.specs.Prelude.{◌≡◌, ◌<◌};
ghost use Rattle.lanes.specs.rows.Block.{row_of};
ghost use Rattle.frow.specs.steps.Order.{swap_row, swapped_of, forward_pairs_of};

use lanes::maps::each;
use lanes::rows::{each_row, row};
use scalar::madd1;
use shuffles::shuffle32_16;

// The pairs of each half row the other way round.
#[tactic(auto, unfolding(crate::specs::steps::Order::swap_row))]
pub fn swapped(a: [i16; 64]) -> [i16; 64]
    ensures { result ≡ swapped_of a }
{
    each_row(
        |r| -> [i16; 8]
            requires { r < 8 }
            ensures { result ≡ swap_row (row_of a r) }
        { shuffle32_16(row(&a, r), 0xb1) },
    )
}

// Products of neighbours, added in pairs. The second product stands first: so the compiler takes both factors as they lie side
// by side (pmaddwd).
pub fn pairs(x: [i16; 64], t: [i16; 64]) -> [i32; 32]
    ensures { result ≡ forward_pairs_of x t }
{
    each(|i| madd1(x[2 * i + 1], t[2 * i + 1], x[2 * i], t[2 * i]))
}
