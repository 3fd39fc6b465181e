// Where blocks lie in rows.
ghost use Rattle.std.specs.Prelude.{◌≡◌, true};
ghost use Rattle.paint.specs.Paint.{Corner};

use ask::limits::STRIDE_MAX;

// Whether a block fits into rows of so many samples, from their corner on.
pub fn fits(stride: usize, room: usize) -> bool
    ensures { result ≡ true → Corner stride room }
{
    8 <= stride && stride <= STRIDE_MAX && 7 * stride + 8 <= room
}
