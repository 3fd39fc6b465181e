// Many pairs a call, so that the oracle can time the bit writer by itself: runs with values, one after the other.
// No contract beyond being safe on any arguments.
#![tactic(auto)]

ghost use Rattle.std.specs.Prelude.{◌≡◌, true, ◌^◌, ◌<◌};

use bitwriter::BitAcc;

// Whether the writer takes a run and a value together.
pub fn taken(n: u32, c: u32) -> bool
    ensures { result ≡ true → (n < 2 ^ 17) × (0 < c) × (c < 2 ^ 15) }
{
    n < 131072 && 0 < c && c < 32768
}

// Pairs from the byte `at` on, then zero bits up to a byte. Room is asked for once, eight bytes a pair. The end, or 0
// where there is less, or at a pair that the writer does not take. Two lists, since C lends each by a pointer of its own.
#[tactic(auto, using(crate::proofs::Writer::room_of_lem, crate::proofs::Writer::both_long, crate::proofs::Writer::one_less))]
pub fn probe_pairs_write(runs: &[u32], codes: &[u32], at: usize, out: &mut [u8]) -> usize {
    if codes.len() < runs.len() || out.len() < at || (out.len() - at) / 8 < runs.len() {
        return 0;
    }
    let mut acc = BitAcc::starting_at(at);
    for (run, code) in runs.iter().zip(codes) {
        if !taken(*run, *code) {
            return 0;
        }
        acc = bitwriter::put_run_value(acc, *run, *code, out);
    }
    bitwriter::align(acc, out).pos
}
