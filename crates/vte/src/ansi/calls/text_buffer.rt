//! The buffer for a text that is joined from pieces.
ghost use Rattle.std.specs.Prelude.{false, length, List, true, ℕ, [], ◌++◌, ◌+◌, ◌<◌, ◌∷◌, ◌≡◌, ◌≤◌};

use arrayvec::ArrayString;

/// Holds a text, up to its size.
pub(crate) trait TextBuffer {
    /// The text.
    ghost stored: { Self → List ℕ };

    /// How many bytes the text may have.
    ghost text_capacity: { Self → ℕ };

    /// Returns how many bytes the text may have.
    fn capacity(&self) -> usize
        ensures { result ≡ text_capacity self.now };

    /// Makes room for a text of `size` bytes. Returns whether it succeeded.
    fn reserve(&mut self, size: usize) -> bool
        ensures suffices { result ≡ true → size ≤ text_capacity self.new }
        ensures keeps_capacity { text_capacity self.old ≤ text_capacity self.new }
        ensures lacks_memory { result ≡ false → text_capacity self.new < size };

    /// Empties the text. Its size stays.
    fn clear(&mut self)
        ensures holds_nothing { stored self.new ≡ [] }
        ensures same_capacity { text_capacity self.new ≡ text_capacity self.old };

    /// Appends a character of one byte.
    fn push(&mut self, c: char)
        requires ascii { c < 128 }
        requires fits { length (stored self.old) + 1 ≤ text_capacity self.old }
        ensures pushed { stored self.new ≡ stored self.old ++ c ∷ [] }
        ensures same_capacity { text_capacity self.new ≡ text_capacity self.old };

    /// Appends a text.
    fn push_str(&mut self, part: &str)
        requires { length (stored self.old) + length part.now ≤ text_capacity self.old }
        ensures pushed { stored self.new ≡ stored self.old ++ part.now }
        ensures same_capacity { text_capacity self.new ≡ text_capacity self.old };

    /// Returns the text.
    fn as_str(&self) -> &str
        ensures { result.now ≡ stored self.now };
}

impl<const N: usize> TextBuffer for ArrayString<N> {
    ghost stored = { λ text. text.bytes };

    ghost text_capacity = { λ text. N };

    fn capacity(&self) -> usize {
        self.capacity()
    }

    fn reserve(&mut self, size: usize) -> bool {
        size <= self.capacity()
    }

    fn clear(&mut self) {
        self.clear();
    }

    fn push(&mut self, c: char) {
        self.push(c);
    }

    fn push_str(&mut self, part: &str) {
        self.push_str(part);
    }

    fn as_str(&self) -> &str {
        self.as_str()
    }
}
