ghost use Rattle.std.specs.Prelude.{◌≡◌, ◌≤◌, length};

use std::alloc::AllocError;

mod ops;

// A table of at most N rows, which lie in place: the first `len` of `rows` are the rows, and the rest is spare room.
// Kept: a Vec would ask for memory in a running cache.
#[derive(Copy)]
pub struct Table<T: Copy, const N: usize> {
    rows: [T; N],
    len: usize,
    ghost room: { length rows ≡ N },
    ghost few: { len ≤ N },
}

// Kept: the derive is refused over a ghost field beside a type parameter.
impl<T: Copy, const N: usize> Clone for Table<T, N> {
    ghost is_clone = { λ t u. t ≡ u };

    ghost is_infallible = { λ _. Unit {0} };

    fn clone(&self) -> Result<Self, AllocError> {
        Ok(*self)
    }
}
