// The calls that read one stream of a plane: the preview out of its DC stream, the block report out of its AC stream.
//
// A call answers document 01's number, 0 where it is accepted. The position is left after the plane's stream; a refused
// call leaves it, and the bytes lent for the answer, as they were.
ghost use Rattle.std.specs.Prelude.{◌≡◌};
ghost use Rattle.calls.specs.Previews.{preview, block_report};
ghost use Rattle.outs.specs.plane.Planes.{previewed_as, reported_as};

// One byte a block, two output rows, from the plane's DC stream.
#[unsafe(no_mangle)]
pub extern "C" fn vmx_preview(
    shift: u32,
    place: usize,
    stride: usize,
    upper: &mut [u8],
    lower: &mut [u8],
    dc: &[u8],
    dc_at: &mut usize,
) -> u32
    ensures { previewed_as result dc_at.new upper.new lower.new
        ≡ preview shift place stride upper.old lower.old dc.now dc_at.old }
{
    vmx::previews::vmx_preview(shift, place, stride, upper, lower, dc, dc_at)
}

// One byte a block in coding order, 1 where no AC symbol is read for it, from the plane's AC stream.
#[unsafe(no_mangle)]
pub extern "C" fn vmx_block_report(
    stride: usize,
    report: &mut [u8],
    ac: &[u8],
    ac_at: &mut usize,
) -> u32
    ensures { reported_as result ac_at.new report.new
        ≡ block_report stride report.old ac.now ac_at.old }
{
    vmx::previews::vmx_block_report(stride, report, ac, ac_at)
}
