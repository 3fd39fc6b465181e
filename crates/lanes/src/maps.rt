// One operation on every lane: the loop over the lanes that the operations of lanes.rs share (its map1 and map2).
// each is std::array::from_fn as a loop by index: with that one here, in rows, packs and pair_products, and copy_from_slice in rows::put,
// a plane took 10 to 125 hundredths more instructions.
ghost use Rattle.std.specs.Prelude.{ℕ, ◌<◌, slice_index_or};

// The lanes f of their places.
pub fn each<R: Copy + Default, F: Fn(usize) -> R, const N: usize>(f: F) -> [R; N]
    requires { (k : ℕ) → k < N → F.pre f k }
    ensures { (k : ℕ) (r : R) → k < N → F.post f k (slice_index_or result k r) }
{
    let mut r = [R::default(); N];
    for k in 0..N {
        r[k] = f(k);
    }
    r
}

// f of each lane of a.
pub fn map1<T: Copy, R: Copy + Default, F: Fn(T) -> R, const N: usize>(a: [T; N], f: F) -> [R; N]
    requires { F.IsAlwaysCallable f }
    ensures { (k : ℕ) (x : T) (r : R) → k < N → F.post f (slice_index_or a k x) (slice_index_or result k r) }
{
    each(
        |k| -> R
            requires { (k < N) × F.IsAlwaysCallable f }
            ensures { (x : T) → F.post f (slice_index_or a k x) result }
        { f(a[k]) },
    )
}

// f of each lane of a and the same lane of b.
pub fn map2<T: Copy, R: Copy + Default, F: Fn(T, T) -> R, const N: usize>(
    a: [T; N],
    b: [T; N],
    f: F,
) -> [R; N]
    requires { F.IsAlwaysCallable f }
    ensures { (k : ℕ) (x : T) (r : R) → k < N → F.post f (slice_index_or a k x) (slice_index_or b k x) (slice_index_or result k r) }
{
    each(
        |k| -> R
            requires { (k < N) × F.IsAlwaysCallable f }
            ensures { (x : T) → F.post f (slice_index_or a k x) (slice_index_or b k x) result }
        { f(a[k], b[k]) },
    )
}
