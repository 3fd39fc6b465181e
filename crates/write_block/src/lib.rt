// One block painted into the rows from its corner on (write_block of slice.rs). The divisors are those of tables::decode_numbers: a caller
// makes them once for a plane.
#![tactic(auto)]

ghost use Rattle.std.specs.Prelude.{◌≡◌, ◌&&◌, not, length};
ghost use Rattle.sample.specs.Numbers.{fills_flat};
ghost use Rattle.sample.specs.Depth.{is_ten};
ghost use Rattle.paint.specs.Paint.{Corner, store_block};
ghost use Rattle.paint.specs.Samples.{flat_sample_of};
ghost use Rattle.quant.specs.Quantise.{coefficient};
ghost use Rattle.write_block.specs.Block.{natural, Painted};

use sample::Sample;

// Whether a block is filled flat: an 8-bit block for which no AC symbol was read.
fn filled<S: Sample>(has_ac: bool) -> bool
    ensures { result ≡ fills_flat S.depth && not has_ac }
{
    S::FILLS_FLAT && !has_ac
}

// Fills a block flat with its DC. A function of its own, given the whole block: read in paint, the DC would be taken out of each
// 10-bit block, where nothing is filled, and put into its first row again (5 instructions a block).
fn fill<S: Sample>(rows: &mut [S], stride: usize, nat: [i16; 64], v: i16)
    requires { Corner stride (length rows.old) }
    ensures { S.samples rows.new ≡ store_block stride (λ i. flat_sample_of (is_ten S.depth) v (coefficient nat 0)) (S.samples rows.old) }
{
    dct::inverse::broadcast_dc(rows, stride, nat[0], v);
}

// Paints a block at the corner of rows. An 8-bit block is filled flat when no AC symbol was read for it; any other, and each 10-bit block,
// goes through the inverse transform.
pub fn paint<S: Sample>(
    rows: &mut [S],
    stride: usize,
    nat: [i16; 64],
    has_ac: bool,
    q: &[u16; 64],
    v: i16,
)
    requires { Corner stride (length rows.old) }
    ensures { Painted S.depth stride q.now v (natural has_ac nat) (S.samples rows.old) (S.samples rows.new) }
{
    if filled::<S>(has_ac) {
        fill(rows, stride, nat, v);
    } else {
        let p = dct::inverse::idct_core::<S>(nat, q);
        dct::inverse::store(rows, stride, p, v);
    }
}
