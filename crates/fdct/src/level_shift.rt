// The level shift of a block before the forward transform (dct.rs, fdct_quant_zig).
ghost use Rattle.std.specs.Prelude.{◌≡◌, ◌<◌};
ghost use Rattle.lanes.specs.Lanes.{mm_adds_epi16};
ghost use Rattle.lanes.specs.rows.Block.{row_of};
ghost use Rattle.fdct.specs.level_shift.Level.{level_shift_of};

use lanes::rows::{each_of_two, row};
use lanes::splat;
use lanes::sums::adds;

// The level shift: add on each lane, saturating.
pub fn level(b: [i16; 64], add: i16) -> [i16; 64]
    ensures { result ≡ level_shift_of add b }
{
    let adding = splat(add);
    each_of_two(
        |r| -> [i16; 8]
            requires { r < 8 }
            ensures { result ≡ mm_adds_epi16 (row_of b r) adding }
        { adds(row(&b, r), adding) },
    )
}
