// A row of eight samples of a block, stored.
ghost use Rattle.std.specs.Prelude.{◌≡◌, ◌+◌, ◌≤◌, length};
ghost use Rattle.paint.specs.row.Row.{put_four, put_row};

// Four samples, stored from `at` on.
fn four<T: Copy>(rows: &mut [T], at: usize, a: T, b: T, c: T, d: T)
    requires { at + 4 ≤ length rows.old }
    ensures { rows.new ≡ put_four rows.old at a b c d }
{
    rows[at] = a;
    rows[at + 1] = b;
    rows[at + 2] = c;
    rows[at + 3] = d;
}

// Eight samples of the block, those from o on, stored from `at` on. All are read before one is stored: so they move as one word.
pub fn put<T: Copy>(rows: &mut [T], at: usize, p: &[T; 64], o: usize)
    requires { (o + 8 ≤ 64) × (at + 8 ≤ length rows.old) }
    ensures { (other : T) → rows.new ≡ put_row other rows.old at p.now o }
{
    let a = p[o];
    let b = p[o + 1];
    let c = p[o + 2];
    let d = p[o + 3];
    let e = p[o + 4];
    let f = p[o + 5];
    let g = p[o + 6];
    let h = p[o + 7];
    four(rows, at, a, b, c, d);
    four(rows, at + 4, e, f, g, h);
}
