// Filling and reading short bytes.
ghost use Rattle.std.specs.Prelude.{◌≡◌, [], ◌∷◌, ◌++◌, take};
ghost use Rattle.lines.specs.Held.{held};

use crate::short::ShortBytes;

impl<const N: usize> ShortBytes<N> {
    // No bytes.
    pub(crate) fn empty() -> Self
        ensures { held result ≡ [] }
    {
        ShortBytes {
            bytes: [0; N],
            len: 0,
        }
    }

    // Adds a byte; one for which there is no room is dropped.
    pub(crate) fn push(&mut self, byte: u8)
        ensures { held self.new ≡ take N (held self.old ++ byte ∷ []) }
    {
        if self.len < N {
            self.bytes[self.len] = byte;
            self.len += 1;
        }
    }

    // The bytes that are held.
    pub fn as_slice(&self) -> &[u8]
        ensures { result.now ≡ held self.now }
    {
        &self.bytes[..self.len]
    }
}
