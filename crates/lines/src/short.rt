// Bytes that are held in place, so that a line is answered without an allocator.
ghost use Rattle.std.specs.Prelude.{◌≡◌, ◌≤◌, length};

// At most N bytes.
// Stays an array with a length: `ArrayVec` is not Copy, as sessions and replies are, and an `ArrayString` holds text only.
#[derive(Clone, Copy)]
pub struct ShortBytes<const N: usize> {
    pub(crate) bytes: [u8; N],
    pub(crate) len: usize,
    ghost within: { (len ≤ N) × (length bytes ≡ N) },
}

// What is printed for a line: at most 16 digits and a line feed.
pub type Reply = ShortBytes<17>;
