// Divisors, zig-zag scan and quality presets (tables.rs; `decode` of `QuantTables` of dct.rs; `quality_preset` of layout.rs).
// A preset's numbers are copied out of the constants once for each plane: a constant that a loop indexes would be built anew in each turn.
// preset < 25: a caller has it as a number. A type that holds the fact would be made of it for each call, by the same test, and opened in it.
#![tactic(auto)]

mod divisors;
pub mod quality;
pub mod reciprocals;

ghost use Rattle.std.specs.Prelude.{◌≡◌, ◌<◌};
ghost use Rattle.tables.specs.Divisor.{divisors_of};
ghost use Rattle.tables.specs.Zigzag.{zigzag};
ghost use Rattle.tables.specs.Quality.{quality_preset};

use std::array::from_fn;

// The 64 divisors of a preset, natural order (`decode` of QuantTables).
pub fn decode_numbers(preset: usize) -> [u16; 64]
    requires { preset < 25 }
    ensures { result ≡ divisors_of preset }
{
    let base = divisors::base_matrix();
    let factor = divisors::quality_factors()[preset];
    from_fn(|y| divisors::divisor(&base, factor, y))
}

const ZIGZAG: [u8; 64] = [
    0, 1, 8, 16, 9, 2, 3, 10, 17, 24, 32, 25, 18, 11, 4, 5, 12, 19, 26, 33, 40, 48, 41, 34, 27, 20,
    13, 6, 7, 14, 21, 28, 35, 42, 49, 56, 57, 50, 43, 36, 29, 22, 15, 23, 30, 37, 44, 51, 58, 59,
    52, 45, 38, 31, 39, 46, 53, 60, 61, 54, 47, 55, 62, 63,
];

// The natural place of each scan place.
#[tactic(auto, unfolding(crate::specs::Zigzag::zigzag))]
pub fn zigzag_order() -> [u8; 64]
    ensures { result ≡ zigzag }
{
    ZIGZAG
}
