// The calls on 8-bit planes and slices: coded into both streams, read out of them.
//
// A call answers document 01's number, 0 where it is accepted. The positions are read from the places lent for them and left
// there: after what was written or read, or as they were given. A refused call leaves buffers and rows as they were.
//
// Each stands again in ten.rt, on the other samples: C has a function for each depth. The calls below are generic.
ghost use Rattle.std.specs.Prelude.{◌≡◌, [], ◌∷◌};
ghost use Rattle.calls.specs.Arguments.{eight, settings, plane, rows, buffers, positions};
ghost use Rattle.slice.specs.Calls.{encode_plane, encode_slice, decode_plane, decode_slice};
ghost use Rattle.outs.specs.plane.Planes.{coded_as, decoded_as};

use calls::{Four, Positions, Settings, Shape};

// Codes a plane.
pub fn vmx_encode_plane8(
    rows: &[u8],
    stride: usize,
    place: usize,
    preset: usize,
    shift: u32,
    dc: &mut [u8],
    dc_at: &mut usize,
    ac: &mut [u8],
    ac_at: &mut usize,
) -> u32
    ensures { coded_as result dc_at.new ac_at.new dc.new ac.new
        ≡ encode_plane (settings eight preset shift) (plane place stride rows.now)
        (buffers dc.old ac.old) (positions dc_at.old ac_at.old) }
{
    let at = Positions {
        dc: *dc_at,
        ac: *ac_at,
    };
    let h = Shape { place, stride };
    let s = Settings { preset, shift };
    let r = encoder::encode_plane(rows, h, s, dc, ac, at);
    outs::plane::positions_out(r, dc_at, ac_at)
}

// Codes the first `count` of four planes, places 0 to 3, one after the other.
pub fn vmx_encode_slice8(
    p0: &[u8],
    stride0: usize,
    p1: &[u8],
    stride1: usize,
    p2: &[u8],
    stride2: usize,
    p3: &[u8],
    stride3: usize,
    count: usize,
    preset: usize,
    shift: u32,
    dc: &mut [u8],
    dc_at: &mut usize,
    ac: &mut [u8],
    ac_at: &mut usize,
) -> u32
    ensures { coded_as result dc_at.new ac_at.new dc.new ac.new
        ≡ encode_slice (settings eight preset shift) count
        (rows stride0 p0.now) (rows stride1 p1.now) (rows stride2 p2.now) (rows stride3 p3.now)
        (buffers dc.old ac.old) (positions dc_at.old ac_at.old) }
{
    let at = Positions {
        dc: *dc_at,
        ac: *ac_at,
    };
    let f = Four {
        count,
        strides: [stride0, stride1, stride2, stride3],
    };
    let s = Settings { preset, shift };
    let r = encoder::encode_slice(p0, p1, p2, p3, f, s, dc, ac, at);
    outs::plane::positions_out(r, dc_at, ac_at)
}

// Reads a plane into its rows.
pub fn vmx_decode_plane8(
    rows: &mut [u8],
    stride: usize,
    place: usize,
    preset: usize,
    shift: u32,
    dc: &[u8],
    dc_at: &mut usize,
    ac: &[u8],
    ac_at: &mut usize,
) -> u32
    ensures { decoded_as result dc_at.new ac_at.new (rows.new ∷ [])
        ≡ decode_plane (settings eight preset shift) (plane place stride rows.old)
        (buffers dc.now ac.now) (positions dc_at.old ac_at.old) }
{
    let at = Positions {
        dc: *dc_at,
        ac: *ac_at,
    };
    let h = Shape { place, stride };
    let s = Settings { preset, shift };
    let r = decoder::decode_plane(rows, h, s, dc, ac, at);
    outs::plane::positions_out(r, dc_at, ac_at)
}

// Reads the first `count` of four planes, places 0 to 3, one after the other.
pub fn vmx_decode_slice8(
    p0: &mut [u8],
    stride0: usize,
    p1: &mut [u8],
    stride1: usize,
    p2: &mut [u8],
    stride2: usize,
    p3: &mut [u8],
    stride3: usize,
    count: usize,
    preset: usize,
    shift: u32,
    dc: &[u8],
    dc_at: &mut usize,
    ac: &[u8],
    ac_at: &mut usize,
) -> u32
    ensures { decoded_as result dc_at.new ac_at.new
        (p0.new ∷ p1.new ∷ p2.new ∷ p3.new ∷ [])
        ≡ decode_slice (settings eight preset shift) count
        (rows stride0 p0.old) (rows stride1 p1.old) (rows stride2 p2.old) (rows stride3 p3.old)
        (buffers dc.now ac.now) (positions dc_at.old ac_at.old) }
{
    let at = Positions {
        dc: *dc_at,
        ac: *ac_at,
    };
    let f = Four {
        count,
        strides: [stride0, stride1, stride2, stride3],
    };
    let s = Settings { preset, shift };
    let r = decoder::decode_slice(p0, p1, p2, p3, f, s, dc, ac, at);
    outs::plane::positions_out(r, dc_at, ac_at)
}
