// Arrays out of lent numbers and back. Rust lends as many as are asked for; where there are fewer, reading gives zeros
// and nothing is stored.
use std::default::Default;

// The first numbers.
pub fn array<T: Copy + Default, const N: usize>(s: &[T]) -> [T; N] {
    s.first_chunk().copied().unwrap_or([T::default(); N])
}

// Stores numbers where there is room for all of them.
pub fn put<T: Copy>(out: &mut [T], numbers: &[T]) {
    if let Some(room) = out.get_mut(..numbers.len()) {
        room.copy_from_slice(numbers);
    }
}
