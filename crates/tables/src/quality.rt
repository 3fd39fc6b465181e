// The preset of a quality.
ghost use Rattle.std.specs.Prelude.{◌≡◌};
ghost use Rattle.tables.specs.Quality.{quality_preset};

// The quality that is in force, and its preset.
#[derive(Clone, Copy)]
pub struct Preset {
    pub quality: u8,
    pub index: usize,
}

// The first preset whose factor is at least 100 - q; below quality 36 there is none, and it is preset 0 with the quality unchanged.
pub fn quality_preset(q: u8) -> Preset
    ensures { (result.quality ≡ (quality_preset q).quality) × (result.index ≡ (quality_preset q).index) }
{
    let factors = crate::divisors::quality_factors();
    let least = u16::from(100u8.saturating_sub(q));
    match factors.iter().position(|&factor| least <= factor) {
        Some(index) => Preset {
            quality: (100 - factors[index]) as u8,
            index,
        },
        None => Preset {
            quality: q,
            index: 0,
        },
    }
}
