// A plane's two streams, each read through by itself: where it ends, and whether it holds a bad code (slice.rs, decode_plane without
// the values).
// `at < 2 ^ 31` and `columns ≤ 960` are said by each contract, and at and columns are no struct: `at` is a stream's, of which a plane has
// two (a caller holds both in one `Positions`), `columns` the plane's; a struct of the two would be made for each call, to be taken apart in it.
// `dc_good` and `ac_good` are two: one function over the reading function would ask, of that parameter, all of the contract of
// `through_dc` or `through_ac`, and be told by which definition a stream is good; the body that it spares has one `if`.
ghost use Rattle.std.specs.Prelude.{◌≡◌, ◌*◌, ◌^◌, ◌≤◌, ◌<◌};
ghost use Rattle.bits.specs.Bits.{bit_at};
ghost use Rattle.calls.specs.ReadPlane.{read_steps, read_blocks};
ghost use Rattle.acread.specs.through.Codes.{good_steps, dc_end};
ghost use Rattle.acread.specs.through.Through.{block_ends, good_ends, ac_end, end_says};

use ask::Refusal;

// Reads a plane's DC stream through, to the byte after it: two rows of codes, left at the first bad one.
pub fn through_dc(dc: &[u8], at: usize, columns: usize) -> Result<usize, Refusal>
    requires { (at < 2 ^ 31) × (columns ≤ 960) }
    ensures { end_says result ≡ dc_end (read_steps (2 * columns) (bit_at dc.now) (8 * at)) }
{
    let mut c = bitreader::cursor(dc, 8 * at);
    let mut read: Result<(), Refusal> = Ok(());
    'codes: for j in 0usize..2 {
        for k in 0..columns {
            let Ok(g) = bitreader::next_dc(dc, c) else {
                read = Err(Refusal::Code);
                break 'codes;
            };
            c = g.c;
        }
    }
    read?;
    Ok(bitreader::end_byte(c))
}

// Reads a plane's AC stream through, to the byte after it: two rows of blocks, left at the first bad code.
pub fn through_ac(ac: &[u8], at: usize, columns: usize) -> Result<usize, Refusal>
    requires { (at < 2 ^ 31) × (columns ≤ 960) }
    ensures { end_says result ≡ ac_end (read_blocks (2 * columns) (bit_at ac.now) (8 * at) 0) }
{
    let tab = acpairs::looks();
    let mut c = bitreader::cursor(ac, 8 * at);
    let mut pending: u64 = 0;
    let mut read: Result<(), Refusal> = Ok(());
    'rows: for j in 0usize..2 {
        for k in 0..columns {
            let Some(end) = crate::skip_block(ac, c, pending, Some(&tab)) else {
                read = Err(Refusal::Code);
                break 'rows;
            };
            c = end.c;
            pending = end.pending;
        }
    }
    read?;
    Ok(bitreader::end_byte(c))
}

// No bad code in a plane's DC stream, from the byte `at` on: one without six zero bytes in a row holds none, another is read through.
pub fn dc_good(dc: &[u8], at: usize, columns: usize) -> bool
    requires { (at < 2 ^ 31) × (columns ≤ 960) }
    ensures { result ≡ good_steps (read_steps (2 * columns) (bit_at dc.now) (8 * at)) }
{
    if bitreader::scan::no_six_zeros(dc, at) {
        return true;
    }
    through_dc(dc, at, columns).is_ok()
}

// The same of a plane's AC stream.
pub fn ac_good(ac: &[u8], at: usize, columns: usize) -> bool
    requires { (at < 2 ^ 31) × (columns ≤ 960) }
    ensures { result ≡ good_ends (block_ends (read_blocks (2 * columns) (bit_at ac.now) (8 * at) 0)) }
{
    if bitreader::scan::no_six_zeros(ac, at) {
        return true;
    }
    through_ac(ac, at, columns).is_ok()
}
