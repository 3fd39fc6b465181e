// The calls that read one stream of a plane: the preview out of its DC stream, the block report out of its AC stream.
//
// A call answers document 01's number, 0 where it is accepted. The position is left after the plane's stream; a refused
// call leaves it, and the bytes lent for the answer, as they were.
ghost use Rattle.std.specs.Prelude.{◌≡◌};
ghost use Rattle.calls.specs.Previews.{preview, block_report};
ghost use Rattle.outs.specs.plane.Planes.{previewed_as, reported_as};

use calls::Shape;

// One byte a block, two output rows, from the plane's DC stream.
pub fn vmx_preview(
    shift: u32,
    place: usize,
    stride: usize,
    upper: &mut [u8],
    lower: &mut [u8],
    dc: &[u8],
    dc_at: &mut usize,
) -> u32
    ensures { previewed_as result dc_at.new upper.new lower.new
        ≡ preview shift place stride upper.old lower.old dc.now dc_at.old }
{
    let d = *dc_at;
    let h = Shape { place, stride };
    let r = preview::preview(shift, h, upper, lower, dc, d);
    outs::plane::position_out(r, dc_at)
}

// One byte a block in coding order, 1 where no AC symbol is read for it, from the plane's AC stream.
pub fn vmx_block_report(stride: usize, report: &mut [u8], ac: &[u8], ac_at: &mut usize) -> u32
    ensures { reported_as result ac_at.new report.new
        ≡ block_report stride report.old ac.now ac_at.old }
{
    let a = *ac_at;
    let r = preview::report::block_report(stride, report, ac, a);
    outs::plane::position_out(r, ac_at)
}
