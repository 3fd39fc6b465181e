// The mask of a block's numbers that are not 0 (lanes.rs, nonzero_mask).
ghost use Rattle.std.specs.Prelude.{◌≡◌, ◌+◌, ◌*◌, ◌%◌, ◌≤◌};
ghost use Rattle.shuffles.specs.mask.Mask.{flag, nonzero_mask, weighed, Light, eight_from, half_from};

// w where x is not 0, else 0.
#[tactic(auto, using(crate::proofs::mask::Weights::weigh_zero, crate::proofs::mask::Weights::weigh_other))]
fn weigh(x: i16, w: u8) -> u8
    ensures { result ≡ flag x * w }
{
    if x == 0 { 0 } else { w }
}

// A byte for each number of a block: bit k % 8 where number k is not 0.
fn weigh_all(zz: [i16; 64]) -> [u8; 64]
    ensures { result ≡ weighed zz }
{
    lanes::maps::each(|i| weigh(zz[i], 1 << (i % 8)))
}

// The sum of eight of them. In this form, with bytes, the compiler makes a psadbw of it.
fn eight(f: &[u8; 64], p: usize) -> u8
    requires { (p % 8 ≡ 0) × (p + 8 ≤ 64) × Light f.now }
    ensures { result ≡ eight_from f.now p }
{
    f[p] + f[p + 1] + f[p + 2] + f[p + 3] + f[p + 4] + f[p + 5] + f[p + 6] + f[p + 7]
}

// Four such sums put together, the first the lowest.
fn half(f: &[u8; 64], p: usize) -> u32
    requires { (p % 8 ≡ 0) × (p + 32 ≤ 64) × Light f.now }
    ensures { result ≡ half_from f.now p }
{
    eight(f, p) as u32
        + 256 * (eight(f, p + 8) as u32)
        + 65536 * (eight(f, p + 16) as u32)
        + 16777216 * (eight(f, p + 24) as u32)
}

// Bit k is set when number k of the block is not 0.
pub fn nonzero_mask(zz: [i16; 64]) -> u64
    ensures { result ≡ nonzero_mask zz }
{
    let f = weigh_all(zz);
    half(&f, 0) as u64 + 4294967296 * (half(&f, 32) as u64)
}
