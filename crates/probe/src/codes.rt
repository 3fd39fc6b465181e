// Codes in a row by the bit writer, of which there are two: one takes its accumulator by value, to one it is lent.
ghost use Rattle.std.specs.Prelude.{◌≡◌, true, ◌++◌, ◌^◌, ◌<◌, length};
ghost use Rattle.bits.specs.Bits.{bits_of, value_code, run_code, pad_to_byte};
ghost use Rattle.bits.specs.Lay.{lay};
ghost use Rattle.bitwriter.specs.Put.{Room, LastRoom, Put, flushed};
ghost use Rattle.probe_pairs.specs.Kept.{Going, Fits};

use bitwriter::BitAcc;

// The longest run that has a code.
const RUN_MAX: u32 = 2147483647;

// What is written at a time.
#[derive(Clone, Copy)]
pub enum Code {
    Value(u32),
    Run(u32),
    RunValue(u32, u32),
}

pub trait Writer {
    // The code that C hands over as a kind, a run and a value.
    fn code(kind: u8, run: u32, value: u32) -> Code;

    // Appends a value code.
    fn put_value(acc: BitAcc, code: u32, out: &mut [u8]) -> BitAcc
        requires { (0 < code) × Room acc (length (value_code code)) out.old }
        ensures { Put acc out.old (value_code code) result out.new };

    // Appends a run code, then a value code.
    fn put_run_value(acc: BitAcc, run: u32, code: u32, out: &mut [u8]) -> BitAcc
        requires { (run < 2 ^ 17) × (0 < code) × (code < 2 ^ 15) × Room acc (length (run_code run ++ value_code code)) out.old }
        ensures { Put acc out.old (run_code run ++ value_code code) result out.new };

    // Appends a run code by itself: no call for it takes a lent accumulator.
    fn put_run(acc: BitAcc, run: u32, out: &mut [u8]) -> BitAcc
        requires { (run < 2 ^ 31) × Room acc (length (run_code run)) out.old }
        ensures { Put acc out.old (run_code run) result out.new }
    {
        bitwriter::put_run(acc, run, out)
    }

    // Stores the bits that wait, with zero bits up to a byte.
    fn align(acc: BitAcc, out: &mut [u8]) -> BitAcc
        requires { LastRoom acc out.old }
        ensures { (result ≡ flushed acc) × (out.new ≡ lay out.old acc.pos (pad_to_byte (bits_of acc.nbits acc.acc))) };
}

// Whether 63 bits more fit into a buffer.
fn fits(acc: BitAcc, out: &[u8]) -> bool
    requires { Going acc }
    ensures { result ≡ true → Fits acc out.now }
{
    16 <= out.len() && acc.pos <= out.len() - 16
}

// Appends a code that the writer takes; there is room for any.
#[tactic(auto, using(probe_pairs::proofs::Writer::room_of_lem, probe_pairs::proofs::Writer::value_long, probe_pairs::proofs::Writer::run_long, probe_pairs::proofs::Writer::both_long))]
fn put<W: Writer>(acc: BitAcc, code: Code, out: &mut [u8]) -> BitAcc
    requires { Going acc × Fits acc out.old }
    ensures { Going result }
{
    match code {
        Code::Value(value) if 0 < value => W::put_value(acc, value, out),
        Code::Run(run) if run <= RUN_MAX => W::put_run(acc, run, out),
        Code::RunValue(run, value) if probe_pairs::taken(run, value) => {
            W::put_run_value(acc, run, value, out)
        }
        _ => acc,
    }
}

// Codes in a row from the byte `at` on, then zero bits up to a byte. The end; a code that the writer does not take, or for which
// fewer than 16 bytes are left, is passed over. Three lists, since C lends each by a pointer of its own: 0 where one of the others
// is shorter than the kinds.
pub fn write<W: Writer>(
    kinds: &[u8],
    runs: &[u32],
    codes: &[u32],
    at: usize,
    out: &mut [u8],
) -> usize {
    let mut acc = BitAcc::starting_at(at);
    for ((kind, run), value) in kinds.iter().zip(runs).zip(codes) {
        // Asked before the code is made of its kind: so making it and looking at it become one choice.
        if fits(acc, out) {
            acc = put::<W>(acc, W::code(*kind, *run, *value), out);
        }
    }
    if runs.len() < kinds.len() || codes.len() < kinds.len() {
        return 0;
    }
    if fits(acc, out) {
        acc = W::align(acc, out);
    }
    acc.pos
}
