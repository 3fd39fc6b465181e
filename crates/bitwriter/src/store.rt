// Bits joined in a word, and a word's bytes stored, the highest first: what the bit writer is made of.
ghost use Rattle.std.specs.Prelude.{◌≡◌, ◌+◌, ◌-◌, ◌*◌, ◌%◌, ◌^◌, ◌≤◌, ◌<◌, length};
ghost use Rattle.bits.specs.Lay.{lay};
ghost use Rattle.bits.specs.ByteRow.{word_bytes};

// a, then the n bits of v.
#[tactic(auto, using(crate::proofs::Laid::joined))]
pub fn join(a: u64, n: u32, v: u64) -> u64
    requires { (n < 64) × (a < 2 ^ (64 - n)) × (v < 2 ^ n) }
    ensures { result ≡ a * 2 ^ n + v }
{
    (a << n) | v
}

// The n low bits of w.
#[tactic(auto, using(crate::proofs::Laid::one_up, crate::proofs::Laid::masked))]
pub fn low(w: u64, n: u32) -> u64
    requires { n < 64 }
    ensures { result ≡ w % 2 ^ n }
{
    w & ((1 << n) - 1)
}

// Stores the eight bytes of w at p, the highest first.
#[tactic(auto, using(crate::proofs::Laid::copied, crate::proofs::Laid::eight, bits::proofs::Pack::word_length))]
pub fn store8(out: &mut [u8], p: usize, w: u64)
    requires { p + 8 ≤ length out.old }
    ensures { out.new ≡ lay out.old p (word_bytes 8 w) }
{
    out[p..p + 8].copy_from_slice(&w.to_be_bytes());
}

// Stores the m low bytes of w at p, the highest first. A copy out of w's array of bytes would be a call of memcpy, which an archive for C
// would then need from outside.
pub fn store_low(out: &mut [u8], p: usize, w: u64, m: u32)
    requires { (m ≤ 8) × (p + m ≤ length out.old) }
    ensures { out.new ≡ lay out.old p (word_bytes m w) }
{
    let mut k = m;
    for byte in out[p..p + m as usize].iter_mut() {
        k -= 1;
        *byte = ((w >> (8 * k)) % 256) as u8;
    }
}
