// The rows of a block spread for their products, and the products in pairs.
ghost use Rattle.std.specs.Prelude.{◌≡◌, ◌<◌, ◌≤◌};
ghost use Rattle.shuffles.specs.Shuffles.{mm_shuffle_epi32_16};
ghost use Rattle.lanes.specs.rows.Block.{row_of};
ghost use Rattle.irow.specs.pairs.Pairs.{spread_by, inverse_pairs_of};

use lanes::maps::each;
use lanes::rows::{each_row, row};
use shuffles::shuffle32_16;

// The pairs of each row in the order that imm chooses.
pub fn spread(a: &[i16; 64], imm: u8) -> [i16; 64]
    ensures { result ≡ spread_by a.now imm }
{
    each_row(
        |r| -> [i16; 8]
            requires { r < 8 }
            ensures { result ≡ mm_shuffle_epi32_16 (row_of a.entry.now r) imm }
        { shuffle32_16(row(a, r), imm) },
    )
}

// Neighbours of x multiplied by those of the table from `from` on, and added. One loop over the block, the second product first: so the
// compiler takes both factors as they lie side by side (pmaddwd). By rows it multiplies one by one.
pub fn pairs(x: &[i16; 64], t: &[i16; 256], from: usize) -> [i32; 32]
    requires { from ≤ 192 }
    ensures { result ≡ inverse_pairs_of x.now t.now from }
{
    each(|i| {
        let k = 2 * i;
        scalar::madd1(x[k + 1], t[from + (k + 1)], x[k], t[from + k])
    })
}
