// The quantiser and dequantising, on blocks of 64 by value (the end of `fdct_quant_zig` and the start of `idct8`, `idct16` of dct.rs), and the scan,
// passed on. Both go by rows of eight lanes (dequantising: quant::dequant), the scan by 64 moves.
#![tactic(auto)]

pub mod dequant;
pub mod one;
pub mod quantiser;
pub mod scan;

ghost use Rattle.std.specs.Prelude.{◌≡◌};
ghost use Rattle.quant.specs.Rows.{RowFits, multiplied_row};

use crate::one::quant1;
pub use crate::quantiser::Quantiser;
pub use crate::scan::zigzag;

// A row over its divisors, rounded; c, r, s are their corrections, reciprocals and scales. quant1 sets the sign of each lane:
// by sign16 a block takes longer. A loop by index: Quantiser::quant says why.
pub fn quant_row(x: [i16; 8], c: [u16; 8], r: [u16; 8], s: [u16; 8]) -> [i16; 8]
    requires { RowFits c r s x }
    ensures { result ≡ multiplied_row c r s x }
{
    let mut q = [0i16; 8];
    for k in 0..8 {
        q[k] = quant1(x[k], c[k], r[k], s[k]);
    }
    q
}
