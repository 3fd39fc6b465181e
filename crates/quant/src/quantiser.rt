// The quantiser of a preset, on blocks by value (the middle of `fdct_quant_zig` of dct.rs).
ghost use Rattle.std.specs.Prelude.{◌≡◌, ◌<◌};
ghost use Rattle.tables.specs.Entries.{Encodes, EveryPreset, encode_of};
ghost use Rattle.quant.specs.Quantise.{quantise_of};

use crate::quant_row;
use lanes::rows::{numbers_at, put, row};
use sample::Sample;

// The numbers of a preset: the corrections, reciprocals and scales of its divisors. They are made once for each plane and passed by
// reference.
#[derive(Drop)]
pub struct Quantiser {
    pub numbers: [u16; 192],
    ghost encodes: { ∥ Encodes numbers ∥₁ },
}

impl Quantiser {
    // The preset stays a number with the clause `preset < 25`, as the tables take it: a type that keeps the fact would be made here from the
    // number that a plane has, under the same clause. What is kept is that the numbers are a preset's: by the ghost field.
    pub fn new(preset: usize) -> Quantiser
        requires { preset < 25 }
        ensures { result.numbers ≡ encode_of preset }
    {
        Quantiser {
            numbers: tables::reciprocals::encode_numbers(preset),
        }
    }

    // The block over the divisors of the preset, rounded. Two rows a turn: so the compiler works along a row, not across rows. Each
    // depth has its own: so the compiler makes it part of the plane's loop. Loops by index, here and in quant_row: with each_of_two here
    // and each there the compiler leaves the quantiser out of that loop, and a plane takes 18,000 to 22,000 instructions more
    // (code8-smooth-8 of tests/instructions.sh 366,366 for 348,088, above its bar).
    pub fn quant<S: Sample>(&self, w: [i16; 64]) -> [i16; 64]
        ensures { EveryPreset self.now.numbers (λ preset. result ≡ quantise_of preset w) }
    {
        let k = &self.numbers;
        let mut q = [0i16; 64];
        for p in 0..4 {
            for h in 0..2 {
                let r = 2 * p + h;
                let y = quant_row(
                    row(&w, r),
                    numbers_at(k, 8 * r),
                    numbers_at(k, 64 + 8 * r),
                    numbers_at(k, 128 + 8 * r),
                );
                put(&mut q, r, y);
            }
        }
        q
    }
}
