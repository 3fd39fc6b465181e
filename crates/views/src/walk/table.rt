// The table of views: two numbers each.
ghost use Rattle.std.specs.Prelude.{◌≡◌, [], ◌∷◌, ◌+◌, ◌*◌, ◌≤◌, length};
ghost use Rattle.ask.specs.Ask.{refused};
ghost use Rattle.ask.specs.Numbers.{no_turn};
ghost use Rattle.bits.specs.Lay.{lay};
ghost use Rattle.views.specs.walk.Table.{views_of};

// Stores a view at i, each number by itself: from an array of both the compiler loads them as one, which waits for the two stores that
// made the array (1.4 times the time of a table of 136 views).
#[tactic(auto, using(crate::proofs::walk::Pair::two_laid))]
pub fn put_view(table: &mut [u32], i: usize, offset: u32, size: u32)
    requires { i + 2 ≤ length table.old }
    ensures { table.new ≡ lay table.old i (offset ∷ size ∷ []) }
{
    table[i] = offset;
    table[i + 1] = size;
}

// Stores numbers from i on.
#[tactic(auto, unfolding(bits::specs::Lay::lay))]
pub fn put(table: &mut [u32], i: usize, numbers: &[u32])
    requires { i + length numbers.now ≤ length table.old }
    ensures { table.new ≡ lay table.old i numbers.now }
{
    table[i..i + numbers.len()].copy_from_slice(numbers);
}

// Stores n views of streams that are not there, from i on. Of a part that the caller cuts the contract would say what the part becomes, and
// each caller what the table becomes by that; `lay` at i says it once.
pub fn no_views(table: &mut [u32], i: usize, n: usize)
    requires { i + 2 * n ≤ length table.old }
    ensures { table.new ≡ lay table.old i (views_of (λ _. refused no_turn) n) }
{
    table[i..i + 2 * n].fill(0);
}
