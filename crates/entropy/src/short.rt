// Pairs of a short run and a small value, which most pairs of a plane are: their codes by table. A table is copied out once for each
// plane: a constant that a loop indexes would be built anew in each turn. What a run and a value must be (n < 2 ^ 17, a code from 1 below
// 2 ^ 15) stands as clauses, as in crate bitwriter: the caller knows it from its mask, and no test makes it.
mod table;

ghost use Rattle.std.specs.Prelude.{◌≡◌, ◌^◌, ◌<◌};
ghost use Rattle.bits.specs.Signed.{code_of};
ghost use Rattle.bitwriter.specs.Pairs.{pair_code};
ghost use Rattle.entropy.specs.short.Tables.{place_of, code_at, run_table, value_table};

use bitwriter::PairCode;

// Where the table has a value: from -127 at place 0 on. Other values have places above 254.
fn place(v: i16) -> u32
    ensures { result ≡ place_of v }
{
    u32::from(v.cast_unsigned().wrapping_add(127))
}

// The codes of short runs and small values, made once for each plane and passed by reference.
#[derive(Drop)]
pub struct ShortCodes {
    pub runs: [u16; 64],
    pub values: [u16; 255],
    ghost runs_are: { runs ≡ run_table },
    ghost values_are: { values ≡ value_table },
}

impl ShortCodes {
    pub fn new() -> ShortCodes
        ensures { (result.runs ≡ run_table) × (result.values ≡ value_table) }
    {
        ShortCodes {
            runs: table::run_codes(),
            values: table::value_codes(),
        }
    }

    // The code of a run below 64 and of the value at a place of the table.
    fn short_pair(&self, n: u32, place: u32) -> PairCode
        requires { (n < 64) × (place < 255) }
        ensures { result ≡ pair_code n (code_at place) }
    {
        let run = self.runs[n as usize] as u32;
        let value = self.values[place as usize] as u32;
        let k = value % 256;
        PairCode {
            bits: bitwriter::store::join((run / 16) as u64, k, (value / 256) as u64),
            length: run % 16 + k,
        }
    }

    // The code of a run and a coefficient.
    #[tactic(auto, using(crate::proofs::short::Laws::place_code))]
    pub fn pair(&self, n: u32, v: i16) -> PairCode
        requires { (n < 2 ^ 17) × (0 < code_of v) × (code_of v < 2 ^ 15) }
        ensures { result ≡ pair_code n (code_of v) }
    {
        let p = place(v);
        if n < 64 && p < 255 {
            self.short_pair(n, p)
        } else {
            bitwriter::pair_code(n, crate::block::code(v))
        }
    }
}
