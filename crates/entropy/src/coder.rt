// A block in both streams. Each depth has its own: so the compiler makes it part of the plane's loop.
//
// The two buffers stay two parameters: each function that takes a struct which lends them would also have to promise of both fields that
// they still lend the same ones (`out.new.dc.ghost_name ≡ out.old.dc.ghost_name`).
ghost use Rattle.std.specs.Prelude.{◌≡◌, [], ◌∷◌, ◌+◌, ◌^◌, ◌≤◌, pos, length};
ghost use Rattle.shuffles.specs.Shuffles.{nonzero_mask};
ghost use Rattle.calls.specs.Streams.{with_dc};
ghost use Rattle.bitwriter.specs.Put.{Room, Put};
ghost use Rattle.entropy.specs.block.Places.{places_codes, waiting_after, Small};
ghost use Rattle.entropy.specs.plane.Coded.{BlockRoom, PlaneCoded};

use crate::block::AcState;
use crate::plane::PlaneState;
use crate::short::ShortCodes;
use sample::Sample;

// Appends the places of a block, place 0 taken as zero: each non-zero coefficient with the run of zeros before it.
// The mask has the non-zero places; only they are visited. A `while` over the places that are left: no index is counted, and an iterator
// over set bits, which std lacks, would be these two lines (the lowest place, the mask without it) in a `next` of a struct with its own law.
pub fn ac_block<S: Sample>(
    s: AcState,
    z: &[i16; 64],
    mask: u64,
    codes: &ShortCodes,
    out: &mut [u8],
) -> AcState
    requires { (mask ≡ nonzero_mask z.now) × (length z.now ≡ 64) × Small z.now × (s.run + 64 ≤ 2 ^ 17)
        × Room s.a (length (places_codes s.run (with_dc (pos 0) z.now))) out.old }
    ensures { Put s.a out.old (places_codes s.run (with_dc (pos 0) z.now)) result.a out.new
        × (result.run ≡ waiting_after s.run (with_dc (pos 0) z.now)) }
{
    let mut a = s.a;
    let mut run = s.run + 1;
    let mut m = mask / 2 * 2;
    let mut at = 1;
    while m != 0 {
        let p = m.trailing_zeros();
        let e = codes.pair(run + (p - at), z[p as usize]);
        a = bitwriter::put(a, e.bits, e.length, out);
        run = 0;
        m &= m - 1;
        at = p + 1;
    }
    AcState {
        a,
        run: run + (64 - at),
    }
}

// Appends one block, its coefficients in scan order: the step of its DC, and its places.
pub fn code_block<S: Sample>(
    s: PlaneState,
    z: &[i16; 64],
    shift: u32,
    codes: &ShortCodes,
    dcs: &mut [u8],
    acs: &mut [u8],
) -> PlaneState
    requires { BlockRoom shift s dcs.old acs.old z.now }
    ensures { PlaneCoded shift s dcs.old acs.old (z.now ∷ []) result dcs.new acs.new }
{
    let d = crate::block::coded_dc(z[0], shift);
    let dc = crate::block::dc_block(s.dc, scalar::diff16(d, s.pred), dcs);
    let mask = shuffles::nonzero_mask(*z);
    let waiting = AcState {
        a: s.ac,
        run: s.run,
    };
    let coded = ac_block::<S>(waiting, z, mask, codes, acs);
    PlaneState {
        dc,
        ac: coded.a,
        run: coded.run,
        pred: d,
    }
}
