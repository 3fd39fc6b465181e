// Sums and differences of opposite lanes, row by row (dct.rs, fdct_row).
ghost use Rattle.std.specs.Prelude.{◌≡◌, ◌<◌};
ghost use Rattle.lanes.specs.rows.Block.{row_of};
ghost use Rattle.frow.specs.sides.Halves.{row_sums_of, row_diffs_of, row_sides_of, sides_of};

use lanes::rows::{each_of_two, row};
use lanes::sums::{adds, subs};
use sample::Sample;
use shuffles::{shuffle32_16, shufflehi};

// Of a row, the sums of opposite lanes, twice, and their differences, twice.
#[derive(Clone, Copy, Debug, PartialEq, Eq, Hash)]
pub struct RowSides {
    pub sums: [i16; 8],
    pub diffs: [i16; 8],
}

// The same of each row of a block.
#[derive(Clone, Copy, Debug, PartialEq, Eq, Hash)]
pub struct SideBlocks {
    pub sums: [i16; 64],
    pub diffs: [i16; 64],
}

#[tactic(auto, unfolding(crate::specs::sides::Halves::row_sums_of, crate::specs::sides::Halves::row_diffs_of, crate::specs::sides::Halves::left_of, crate::specs::sides::Halves::right_of))]
pub fn row_sides(x: [i16; 8]) -> RowSides
    ensures { result ≡ row_sides_of x }
{
    let left = shuffle32_16(x, 0x44);
    let right = shuffle32_16(shufflehi(x, 0x1b), 0xee);
    let sums = adds(left, right);
    let diffs = subs(left, right);
    RowSides { sums, diffs }
}

// Of each row its sums and its differences.
pub fn sides<S: Sample>(c: [i16; 64]) -> SideBlocks
    ensures { result ≡ sides_of c }
{
    let sums = each_of_two(
        |r| -> [i16; 8]
            requires { r < 8 }
            ensures { result ≡ row_sums_of (row_of c r) }
        { row_sides(row(&c, r)).sums },
    );
    let diffs = each_of_two(
        |r| -> [i16; 8]
            requires { r < 8 }
            ensures { result ≡ row_diffs_of (row_of c r) }
        { row_sides(row(&c, r)).diffs },
    );
    SideBlocks { sums, diffs }
}
