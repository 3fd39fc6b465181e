// The streams of a frame (layout.rs): one after the other, each after a 32-bit length, low byte first.
//
// A place in the frame stands beside it, and not the rest of the frame as a slice: a view's offset is counted from the frame's
// beginning, so the rest would need its own place beside it. That the place lies in the frame stands in three contracts: a type
// that keeps it would be taken apart and made anew at each stream.
ghost use Rattle.std.specs.Prelude.{◌≡◌, ◌+◌, ◌≤◌, ◌<◌, length, IfOk};
ghost use Rattle.parser.specs.streams.Streams.{length_at, one_stream, streams};
ghost use Rattle.parser.specs.streams.Views.{place_says};

use ask::{Refusal, ask};

// The length word at p.
#[tactic(auto, unfolding(crate::specs::streams::Streams::length_at))]
fn length_at(f: &[u8], p: usize) -> usize
    requires { p + 4 ≤ length f.now }
    ensures { (result ≡ length_at f.now p) × (result < 4294967296) }
{
    u32::from_le_bytes([f[p], f[p + 1], f[p + 2], f[p + 3]]) as usize
}

// The place after the stream at p. Its length word is read only where its four bytes are there.
#[tactic(auto, unfolding(crate::specs::streams::Streams::one_stream, ask::specs::Ask::asked, ask::specs::Ask::first_no))]
pub fn one_stream(f: &[u8], limit: usize, p: usize) -> Result<usize, Refusal>
    requires { p ≤ length f.now }
    ensures place { place_says result ≡ one_stream limit f.now p }
    ensures inside { IfOk result (λ end. (end ≡ p + 4 + length_at f.now p) × (end ≤ length f.now)) }
{
    ask(p + 4 <= f.len(), Refusal::Bytes)?;
    let n = length_at(f, p);
    ask(n <= limit, Refusal::Limit)?;
    let end = p + 4 + n;
    ask(end <= f.len(), Refusal::Bytes)?;
    Ok(end)
}

// The place after the n streams at p. The loop counts no place. `(0..n).try_fold(p, |at, _| one_stream(f, limit, at))` says the
// same, but its proof has to show of each turn that the closure may be called there; the loop's invariant says it at once.
#[tactic(auto, using(crate::proofs::streams::Laws::next_turn_lem, crate::proofs::streams::Laws::next_stop, crate::proofs::streams::Laws::walked, crate::proofs::streams::Laws::walk_start))]
pub fn walk(f: &[u8], n: usize, limit: usize, p: usize) -> Result<usize, Refusal>
    requires { p ≤ length f.now }
    ensures place { place_says result ≡ streams n limit f.now p }
    ensures inside { IfOk result (λ end. end ≤ length f.now) }
{
    let mut at = p;
    for _k in 0..n {
        at = one_stream(f, limit, at)?;
    }
    Ok(at)
}
