// The end of the forward row pass: pairs of products added, rounded, shifted and saturated, four coefficients at a time.
ghost use Rattle.std.specs.Prelude.{◌≡◌, ◌<◌};
ghost use Rattle.frow.specs.rounding.Tail.{rounded_of, weave_of, end_row, ends_of};

use lanes::packs::packs32;
use lanes::rows::{each_row, wide};
use lanes::splat32;
use lanes::wide::{add32, srai32};
use sample::Sample;

// Two pairs added, rounded and shifted by 16.
#[tactic(auto, unfolding(crate::specs::rounding::Tail::rounded_of))]
pub fn rounded(near: [i32; 4], far: [i32; 4]) -> [i32; 4]
    ensures { result ≡ rounded_of near far }
{
    srai32(add32(add32(near, far), splat32(32768)), 16)
}

// The lanes of both halves of a row in turn.
#[tactic(auto, unfolding(crate::specs::rounding::Tail::weave_of))]
pub fn weave(a: [i16; 8]) -> [i16; 8]
    ensures { result ≡ weave_of a }
{
    [a[0], a[4], a[1], a[5], a[2], a[6], a[3], a[7]]
}

// Even and odd coefficients of each row, from their pairs. The pairs stay four arguments: only row_pass makes them and only this takes
// them, so a struct would be filled there and taken apart here, and its four fields named as often as m0 to m3 are.
#[tactic(auto, unfolding(crate::specs::rounding::Tail::end_row))]
pub fn ends<S: Sample>(m0: [i32; 32], m1: [i32; 32], m2: [i32; 32], m3: [i32; 32]) -> [i16; 64]
    ensures { result ≡ ends_of m0 m1 m2 m3 }
{
    each_row(
        |r| -> [i16; 8]
            requires { r < 8 }
            ensures { result ≡ end_row m0 m1 m2 m3 r }
        {
            let even = rounded(wide(&m0, r), wide(&m1, r));
            let odd = rounded(wide(&m2, r), wide(&m3, r));
            weave(packs32(even, odd))
        },
    )
}
