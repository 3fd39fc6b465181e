// What coding and reading a plane share: its level, and where its blocks have their corners.
#![tactic(auto)]

ghost use Rattle.std.specs.Prelude.{◌≡◌, ◌+◌, ◌*◌, ◌<◌, ◌≤◌, pos};
ghost use Rattle.ask.specs.Limits.{stride_max};
ghost use Rattle.calls.specs.Grid.{columns_of, level};

use sample::Sample;

// The level of a plane as a lane.
pub fn lane<S: Sample>(place: usize) -> i16
    ensures { result ≡ level S.depth place }
{
    if place == 0 || place == 3 {
        S::MIDDLE
    } else {
        0
    }
}

// The level of a plane.
pub fn level<S: Sample>(place: usize) -> u16
    ensures { (pos result ≡ level S.depth place) × (result < 32768) }
{
    lane::<S>(place) as u16
}

// Where the block in block row j and block column i has its corner.
pub fn corner(stride: usize, j: usize, i: usize) -> usize
    requires { (j < 2) × (stride ≤ stride_max) × (i < columns_of stride_max) }
    ensures { result ≡ 8 * j * stride + 8 * i }
{
    8 * j * stride + 8 * i
}
