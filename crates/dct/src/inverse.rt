// A block of coefficients becomes 8 by 8 samples in the rows from its corner on: dequantising and the inverse transform (idct8 and idct16 of
// dct.rs), then the block writer. The divisors are those of tables::decode_numbers: a caller makes them once for a plane.
// Rows and stride go beside each other, under Corner, as in paint.
ghost use Rattle.std.specs.Prelude.{◌≡◌, pos, length};
ghost use Rattle.sample.specs.Depth.{is_ten};
ghost use Rattle.paint.specs.Paint.{Corner, store_block};
ghost use Rattle.paint.specs.Samples.{flat_sample_of};
ghost use Rattle.quant.specs.Quantise.{dequant_shift, dequantise_with};
ghost use Rattle.idct.specs.Inverse.{inverse_of};
ghost use Rattle.dct.specs.Decode.{number_sample};

use sample::Sample;

// The numbers of a block of coefficients in natural order: dequantised by the divisors d and transformed, the level not added.
pub fn idct_core<S: Sample>(nat: [i16; 64], d: &[u16; 64]) -> [i16; 64]
    ensures { result ≡ inverse_of (is_ten S.depth) (pos 0) (dequantise_with (dequant_shift (is_ten S.depth)) d.now nat) }
{
    let shift = S::DEQUANT_SHIFT;
    let b = quant::dequant::dequant::<S>(nat, d, shift);
    idct::inverse::<S>(b)
}

// The samples of a block's numbers.
pub fn store<S: Sample>(rows: &mut [S], stride: usize, v: [i16; 64], level: i16)
    requires { Corner stride (length rows.old) }
    ensures { S.samples rows.new ≡ store_block stride (number_sample (is_ten S.depth) level v) (S.samples rows.old) }
{
    let p = idct::samples::<S>(v, level);
    paint::store(rows, stride, &p);
}

// Fills a block flat with its DC.
pub fn broadcast_dc<S: Sample>(rows: &mut [S], stride: usize, dc: i16, level: i16)
    requires { Corner stride (length rows.old) }
    ensures { S.samples rows.new ≡ store_block stride (λ i. flat_sample_of (is_ten S.depth) level dc) (S.samples rows.old) }
{
    paint::broadcast_dc(rows, stride, dc, level);
}
