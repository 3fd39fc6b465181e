// The block report: which blocks of a plane no AC symbol is read for, from the plane's AC stream alone.
// The stream is judged before a byte is stored.
// `at ≤ start_max` is said by each contract, and by no type: a start is any number until it was asked (`report_asked`), and only
// `store_report` and `store_blocks` stand behind the questions.
ghost use Rattle.std.specs.Prelude.{◌≡◌, true, ◌*◌, ◌^◌, ◌≤◌, ◌<◌, length};
ghost use Rattle.ask.specs.Ask.{accepted};
ghost use Rattle.ask.specs.Refusals.{given};
ghost use Rattle.ask.specs.Limits.{start_max};
ghost use Rattle.bits.specs.Bits.{bit_at};
ghost use Rattle.bits.specs.Lay.{lay};
ghost use Rattle.calls.specs.ReadPlane.{read_blocks};
ghost use Rattle.calls.specs.Previews.{block_report};
ghost use Rattle.acread.specs.Going.{LooksIn};
ghost use Rattle.acread.specs.through.Through.{block_ends, good_ends, reports_of, ac_end};
ghost use Rattle.preview.specs.report.Report.{ReportNumber, report_says, report_told};

use acpairs::DENSE;
use ask::{Refusal, ask};
use calls::Stream;

// The table after a block that went from the bit p to q: none after a dense one.
fn table_after(p: usize, q: usize, tab: Option<&[u32]>) -> Option<&[u32]>
    requires { (p < 2 ^ 60) × LooksIn tab }
    ensures { LooksIn result }
{
    if q < p + DENSE { tab } else { None }
}

// Stores one byte a block, of as many blocks as the report has bytes, of a stream that was judged good; the byte after them.
fn store_blocks(ac: &[u8], at: usize, tab: Option<&[u32]>, report: &mut [u8]) -> usize
    requires { (at ≤ start_max) × (length report.old ≤ 1920) × LooksIn tab
        × (good_ends (block_ends (read_blocks (length report.old) (bit_at ac.now) (8 * at) 0)) ≡ true) }
    ensures { (accepted result ≡ ac_end (read_blocks (length report.old) (bit_at ac.now) (8 * at) 0))
        × (report.new ≡ lay report.old 0 (reports_of (read_blocks (length report.old) (bit_at ac.now) (8 * at) 0))) }
{
    let mut c = bitreader::cursor(ac, 8 * at);
    let mut pending: u64 = 0;
    let mut looks = tab;
    for byte in report.iter_mut() {
        *byte = acread::flat(pending);
        if pending < 64 {
            let Some(end) = acread::skip_block(ac, c, pending, looks) else {
                return 0;
            };
            looks = table_after(c.pos, end.c.pos, tab);
            c = end.c;
            pending = end.pending;
        } else {
            pending -= 64;
        }
    }
    bitreader::end_byte(c)
}

// A shorter stream is read in the time that the table takes.
const SHORT: usize = 256;

// The same, with a table where it pays.
fn store_report(ac: &[u8], at: usize, report: &mut [u8]) -> usize
    requires { (at ≤ start_max) × (length report.old ≤ 1920)
        × (good_ends (block_ends (read_blocks (length report.old) (bit_at ac.now) (8 * at) 0)) ≡ true) }
    ensures { (accepted result ≡ ac_end (read_blocks (length report.old) (bit_at ac.now) (8 * at) 0))
        × (report.new ≡ lay report.old 0 (reports_of (read_blocks (length report.old) (bit_at ac.now) (8 * at) 0))) }
{
    if ac.len() < at + SHORT {
        return store_blocks(ac, at, None, report);
    }
    let tab = acpairs::looks();
    store_blocks(ac, at, Some(&tab), report)
}

// The questions; the report has room for so many bytes.
#[tactic(auto, unfolding(ask::specs::Ask::first_no, calls::specs::Questions::report_questions))]
fn report_asked(stride: usize, room: usize, ac: Stream) -> Result<(), Refusal>
    ensures { ReportNumber stride room ac (given result) }
{
    ask(ask::stride_ok(stride), Refusal::Stride)?;
    ask(stride / 4 <= room, Refusal::Rows)?;
    ask(
        ask::start_ok(ac.at) && ask::ac_read_ok(ac.len),
        Refusal::Start,
    )
}

// One byte a block in coding order: 1 where no AC symbol is read for it; and the byte where the plane's AC stream ends.
pub fn block_report(
    stride: usize,
    report: &mut [u8],
    ac: &[u8],
    at: usize,
) -> Result<usize, Refusal>
    ensures { report_says at result report.new ≡ report_told (block_report stride report.old ac.now at) }
{
    report_asked(stride, report.len(), Stream::of(ac, at))?;
    let columns = stride / 8;
    ask(acread::through::ac_good(ac, at, columns), Refusal::Code)?;
    Ok(store_report(ac, at, &mut report[..2 * columns]))
}
