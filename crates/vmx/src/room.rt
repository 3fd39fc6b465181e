// The size calls: how much room the streams of a plane, or of a slice, need at most.
//
// A call answers document 01's number, 0 where it is accepted. The lengths go into the places lent for them, which a refused
// call leaves as they were.
ghost use Rattle.std.specs.Prelude.{◌≡◌};
ghost use Rattle.calls.specs.Previews.{plane_size, slice_size};
ghost use Rattle.outs.specs.plane.Planes.{length_places, length_parts};
ghost use Rattle.outs.specs.frame.Outs.{handed, handed_by};

use calls::Four;

// Of one plane.
pub fn vmx_plane_size(stride: usize, dc_len: &mut usize, ac_len: &mut usize) -> u32
    ensures { handed result (length_places dc_len.new ac_len.new)
        ≡ handed_by (plane_size stride) length_parts (length_places dc_len.old ac_len.old) }
{
    let plane = questions::sizes::plane_size(stride);
    outs::plane::size_out(plane, dc_len, ac_len)
}

// Of the first `count` of four planes together.
pub fn vmx_slice_size(
    count: usize,
    stride0: usize,
    stride1: usize,
    stride2: usize,
    stride3: usize,
    dc_len: &mut usize,
    ac_len: &mut usize,
) -> u32
    ensures { handed result (length_places dc_len.new ac_len.new)
        ≡ handed_by (slice_size count stride0 stride1 stride2 stride3) length_parts
        (length_places dc_len.old ac_len.old) }
{
    let f = Four {
        count,
        strides: [stride0, stride1, stride2, stride3],
    };
    let slice = questions::sizes::slice_size(f);
    outs::plane::size_out(slice, dc_len, ac_len)
}
