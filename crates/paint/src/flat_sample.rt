// The sample that fills a flat block.
ghost use Rattle.std.specs.Prelude.{◌≡◌};
ghost use Rattle.sample.specs.Depth.{is_ten};
ghost use Rattle.paint.specs.Samples.{flat_sample_of};

use sample::Sample;

// The sample that fills a block flat: its DC plus 4, shifted right by 3, plus the level, clamped.
pub fn flat<S: Sample>(dc: i16, level: i16) -> S
    ensures { S.number result ≡ flat_sample_of (is_ten S.depth) level dc }
{
    let s = scalar::sra16(scalar::add1(dc, 4), 3);
    S::from_number(scalar::add1(s, level))
}
