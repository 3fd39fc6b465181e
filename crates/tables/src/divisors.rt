// The divisors: a base matrix times a factor for each preset.
ghost use Rattle.std.specs.Prelude.{◌≡◌, ◌<◌, ◌≤◌, ℕ, get_or};
ghost use Rattle.tables.specs.Divisor.{base_matrix, quality_factors, divisor};

const DEFAULT_QUANTIZATION_MATRIX: [u16; 64] = [
    16, 16, 19, 22, 26, 27, 29, 34, 16, 16, 22, 24, 27, 29, 34, 37, 19, 22, 26, 27, 29, 34, 34, 38,
    22, 22, 26, 27, 29, 34, 37, 40, 22, 26, 27, 29, 32, 35, 40, 48, 26, 27, 29, 32, 35, 40, 48, 58,
    26, 27, 29, 34, 38, 46, 56, 69, 27, 29, 35, 38, 46, 56, 69, 83,
];

const QUALITY: [u16; 25] = [
    1, 2, 3, 4, 5, 6, 7, 8, 10, 12, 14, 16, 18, 20, 22, 24, 28, 32, 36, 40, 44, 48, 52, 56, 64,
];

// The base matrix, natural order.
#[tactic(auto, unfolding(crate::specs::Divisor::base_matrix))]
pub fn base_matrix() -> [u16; 64]
    ensures { result ≡ base_matrix }
{
    DEFAULT_QUANTIZATION_MATRIX
}

// The factor of each preset.
#[tactic(auto, unfolding(crate::specs::Divisor::quality_factors))]
pub fn quality_factors() -> [u16; 25]
    ensures { result ≡ quality_factors }
{
    QUALITY
}

// The divisor of place y, out of the base matrix and the factor of a preset.
pub fn divisor(base: &[u16; 64], factor: u16, y: usize) -> u16
    requires { (y < 64) × (base.now ≡ base_matrix) × (factor ≤ 64) }
    ensures { (preset : ℕ) → factor ≡ get_or quality_factors preset 0 → result ≡ divisor preset y }
{
    if y == 0 { 16 } else { base[y] * factor }
}
