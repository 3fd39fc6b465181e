// Views stored in a lent table while the streams are walked over and judged.
//
// What stood in the table is held, and put back where a stream is refused: so one walk is enough, and a refused frame
// leaves the table as it was.
use ask::Refusal;

pub mod table;

ghost use Rattle.std.specs.Prelude.{◌≡◌};
ghost use Rattle.parser.specs.streams.Streams.{streams};
ghost use Rattle.parser.specs.streams.Views.{place_says};
ghost use Rattle.parser.specs.Frame.{nth_stream};
ghost use Rattle.views.specs.walk.Table.{views_of};
ghost use Rattle.views.specs.walk.Walk.{walk_left, Walks};

// `k` is the number of a view, and no part of the table is lent to the loop: where a stream is refused, what is held goes over
// the parts of all turns before.
//
// Stores the views of the n streams at p after `from` others; the place after them. Where one is refused, the numbers that
// are held go into the places of all these views. No stream is longer than 430,080 bytes, so every offset fits.
#[tactic(auto, using(crate::proofs::walk::Walk::begins, crate::proofs::walk::Walk::goes_on_lem, crate::proofs::walk::Walk::stops, crate::proofs::walk::Walk::undone, crate::proofs::walk::Walk::ends, crate::proofs::walk::Walk::stores, crate::proofs::walk::Walk::one_within))]
pub fn walk_views(
    f: &[u8],
    n: usize,
    limit: usize,
    p: usize,
    from: usize,
    table: &mut [u32],
    held: &[u32],
) -> Result<usize, Refusal>
    requires { Walks f.now n limit p from table.old held.now }
    ensures { (place_says result ≡ streams n limit f.now p)
        × (table.new ≡ walk_left (streams n limit f.now p) table.old held.now from n
        (views_of (λ i. nth_stream i limit f.now p) n)) }
{
    let mut at = p;
    for k in 0..n {
        match parser::streams::one_stream(f, limit, at) {
            Ok(end) => {
                table::put_view(
                    table,
                    2 * (from + k),
                    (at + 4) as u32,
                    (end - (at + 4)) as u32,
                );
                at = end;
            }
            Err(no) => {
                table::put(table, 0, &held[..2 * (from + n)]);
                return Err(no);
            }
        }
    }
    Ok(at)
}
