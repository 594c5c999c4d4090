ghost use Rattle.std.specs.Prelude.{◌≡◌, ◌-◌, ◌≤◌, length, drop, replicate};

mod ops;

// A string of at most N bytes, and at most 255, which lie in place. What lies past its length is 0, so that two strings of
// the same bytes are one value.
// Kept: a Vec would ask for memory in a running cache, and a length of one byte keeps a node small.
#[derive(Clone, Copy)]
pub struct IVec<const N: usize> {
    bytes: [u8; N],
    len: u8,
    ghost room: { length bytes ≡ N },
    ghost few: { len ≤ N },
    ghost clean: { drop len bytes ≡ replicate (N - len) 0 },
}
