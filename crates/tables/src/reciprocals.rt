// Quantiser numbers (`reciprocal` and `QuantTables` of dct.rs).
// A preset's numbers are copied out of the constant once for each plane: a constant that a loop indexes would be built anew in each turn.
mod table;

ghost use Rattle.std.specs.Prelude.{◌≡◌, ◌<◌};
ghost use Rattle.tables.specs.Entries.{encode_of};

use std::array::from_fn;

// The corrections, reciprocals and scales of a preset, natural order (`encode` of QuantTables).
pub fn encode_numbers(preset: usize) -> [u16; 192]
    requires { preset < 25 }
    ensures { result ≡ encode_of preset }
{
    let t = table::constant_table();
    from_fn(|j| table::number_in(&t, preset * 192 + j % 64 * 3 + j / 64))
}
