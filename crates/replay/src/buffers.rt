// Parts of buffers, and what a buffer holds.
use std::ops::Range;

// The elements in these places; none where they are not all there.
pub fn part<T>(s: &[T], places: Range<usize>) -> &[T] {
    s.get(places).unwrap_or(&[])
}

// The first n elements, to be written; none where there are fewer.
pub fn cut<T>(s: &mut [T], n: usize) -> &mut [T] {
    s.get_mut(..n).unwrap_or(&mut [])
}

// Whether a buffer holds the stored elements in these places, from the first of them on, and one element everywhere else.
pub fn holds<T: Copy + PartialEq>(s: &[T], filled: T, places: Range<usize>, stored: &[T]) -> bool {
    s.iter().enumerate().all(|(k, x)| {
        let wanted = if places.contains(&k) {
            stored.get(k - places.start)
        } else {
            None
        };
        x == wanted.unwrap_or(&filled)
    })
}
