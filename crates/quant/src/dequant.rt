// Dequantising, row by row. S makes an instance for each depth, of which each function has one caller: so the compiler makes it part of
// that depth's loop over blocks.
// The shift stays a number with the clause `shift < 16`: the contract holds at each such shift, S::DEQUANT_SHIFT in its place would leave
// two of them, and a type for it would ask the same of the caller where it is made.
ghost use Rattle.std.specs.Prelude.{◌≡◌, ◌*◌, ◌<◌};
ghost use Rattle.lanes.specs.rows.Block.{numbers_of, row_of};
ghost use Rattle.irow.specs.Stages.{pair_up_of};
ghost use Rattle.quant.specs.Paired.{dequantised_row};
ghost use Rattle.quant.specs.Quantise.{dequantise_with};

use lanes::load_u;
use lanes::products::mullo;
use lanes::rows::{each_row, numbers, row};
use lanes::shifts::srai16;
use sample::Sample;
use shuffles::{shufflehi, shufflelo};

// A row times its divisors, in the order 0 2 1 3 4 6 5 7, shifted right. The shift stands after the order, so that the compiler makes one
// shuffle of each row that is spread for its products: it would put two that follow each other together, and need three.
fn dequant_row<S: Sample>(x: [i16; 8], d: [u16; 8], shift: u32) -> [i16; 8]
    requires { shift < 16 }
    ensures { result ≡ dequantised_row shift d x }
{
    let u = load_u(d);
    let y = mullo(x, u);
    let l = shufflelo(y, 0xd8);
    let h = shufflehi(l, 0xd8);
    srai16(h, shift)
}

// The block times the divisors d, shifted right, each row in the order in which the row pass multiplies (irow::rows).
pub fn dequant<S: Sample>(n: [i16; 64], d: &[u16; 64], shift: u32) -> [i16; 64]
    requires { shift < 16 }
    ensures { result ≡ pair_up_of (dequantise_with shift d.now n) }
{
    each_row(
        |r| -> [i16; 8]
            requires { (r < 8) × (shift < 16) }
            ensures { result ≡ dequantised_row shift (numbers_of d.entry.now (8 * r)) (row_of n r) }
        { dequant_row::<S>(row(&n, r), numbers(d, r), shift) },
    )
}
