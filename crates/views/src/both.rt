// The walks over all streams of a frame, DC and AC, with the views stored in a lent table.
//
// What they ask stands in each contract (`Walkable`), and in no type: it would hold the lent table, and each would take it apart.
ghost use Rattle.std.specs.Prelude.{◌*◌, ◌≤◌, length};
ghost use Rattle.ask.specs.Limits.{slices_max};
ghost use Rattle.layout.specs.Geometry.{slice_count};
ghost use Rattle.views.specs.both.Views.{walked_says, Tabled, Walkable, TableHeld, small_slices, small_table};

use ask::Refusal;
use ask::limits::{ROWS, SLICES_MAX};
use layout::FrameSize;

// A frame of up to so many slices (1,088 rows) has a small place to hold its table: four numbers for each.
const SMALL_SLICES: usize = 68;

const SMALL_HEIGHT: usize = ROWS * SMALL_SLICES;

const SMALL: usize = 4 * SMALL_SLICES;
// The place of any frame.
const LARGE: usize = 4 * SLICES_MAX;

// Walks over all streams of a frame whose header is legal: whether AC streams follow. What stands in the table is held.
#[tactic(auto, using(parser::proofs::head::Laws::legal, parser::proofs::Laws::dc_walk, parser::proofs::Laws::ac_walk, parser::proofs::Laws::dc_no, parser::proofs::Laws::ac_no, parser::proofs::Laws::dc_only, parser::proofs::Laws::ac_too, crate::proofs::both::Laws::dc_walks, crate::proofs::both::Laws::ac_walks, crate::proofs::both::Laws::dc_left, crate::proofs::both::Laws::ac_left, crate::proofs::both::Laws::none_left, crate::proofs::both::Laws::no_dc, crate::proofs::both::Laws::no_ac, crate::proofs::both::Laws::only_dc_lem, crate::proofs::both::Laws::both))]
fn walk(size: FrameSize, frame: &[u8], table: &mut [u32], held: &[u32]) -> Result<bool, Refusal>
    requires { (Walkable size.width size.height frame.now table.old) × (TableHeld size.height table.old held.now) }
    ensures { Tabled size.width size.height frame.now table.old table.new (walked_says size.height frame.now result) }
{
    let slices = layout::slice_count(size.height);
    let start = parser::head::format_at(frame) + 3;
    let max_dc_len = layout::max_dc_len(size.width);
    let q = crate::walk::walk_views(frame, slices, max_dc_len, start, 0, table, held)?;
    if q < frame.len() {
        let max_ac_len = layout::max_ac_len(size.width);
        crate::walk::walk_views(frame, slices, max_ac_len, q, slices, table, held)?;
        return Ok(true);
    }
    crate::walk::table::no_views(table, 2 * slices, slices);
    Ok(false)
}

// The same, with a place of N numbers to hold what stands there.
#[tactic(auto, using(crate::proofs::both::Laws::holding))]
fn walk_in<const N: usize>(
    size: FrameSize,
    frame: &[u8],
    table: &mut [u32],
) -> Result<bool, Refusal>
    requires { (Walkable size.width size.height frame.now table.old) × (4 * slice_count size.height ≤ N) × (N ≤ 4 * slices_max) }
    ensures { Tabled size.width size.height frame.now table.old table.new (walked_says size.height frame.now result) }
{
    let mut held = [0u32; N];
    let n = 4 * layout::slice_count(size.height);
    crate::walk::table::put(&mut held, 0, &table[..n]);
    walk(size, frame, table, &held)
}

// The same, with a small place that is filled to its end, for a table of as many numbers.
#[tactic(auto, using(crate::proofs::both::Laws::holding))]
fn walk_whole(size: FrameSize, frame: &[u8], table: &mut [u32]) -> Result<bool, Refusal>
    requires { (Walkable size.width size.height frame.now table.old) × (slice_count size.height ≤ small_slices) × (small_table ≤ length table.old) }
    ensures { Tabled size.width size.height frame.now table.old table.new (walked_says size.height frame.now result) }
{
    let mut held = [0u32; SMALL];
    crate::walk::table::put(&mut held, 0, &table[..SMALL]);
    walk(size, frame, table, &held)
}

// Clearing the place takes a part of the time that the walk takes: small frames have a small one, and one that is filled to
// its end is not cleared.
pub fn walk_any(size: FrameSize, frame: &[u8], table: &mut [u32]) -> Result<bool, Refusal>
    requires { Walkable size.width size.height frame.now table.old }
    ensures { Tabled size.width size.height frame.now table.old table.new (walked_says size.height frame.now result) }
{
    if size.height <= SMALL_HEIGHT {
        if SMALL <= table.len() {
            return walk_whole(size, frame, table);
        }
        return walk_in::<SMALL>(size, frame, table);
    }
    walk_in::<LARGE>(size, frame, table)
}
