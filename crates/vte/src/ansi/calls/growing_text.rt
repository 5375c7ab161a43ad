//! A text whose buffer grows on request.
ghost use Rattle.std.specs.Prelude.{string_bytes, string_capacity, ◌≡◌, ◌≤◌};

use crate::ansi::calls::text_buffer::TextBuffer;
use std::alloc::{AllocError, Allocator};

/// A joined text, in a buffer of the size that was asked for.
#[derive(Drop)]
pub(crate) struct GrowingText<A: Allocator> {
    text: String<A>,
    /// The size that was asked for, in bytes.
    size: usize,
    ghost fits: { size ≤ string_capacity text },
}

impl<A: Allocator + Clone> Clone for GrowingText<A> {
    ghost is_clone = { λ buffer clone. clone.size ≡ buffer.size };

    fn clone(&self) -> Result<Self, AllocError> {
        let mut text = self.text.clone()?;
        // A clone has as much memory.
        text.reserve(self.text.capacity() - text.len())?;
        let size = self.size;
        Ok(GrowingText { text, size })
    }
}

impl<A: Allocator> GrowingText<A> {
    /// Creates an empty text. It doesn't allocate.
    pub(crate) fn new(alloc: A) -> Self {
        GrowingText {
            text: String::new(alloc),
            size: 0,
        }
    }

    /// Frees its memory.
    pub(crate) fn free(&mut self)
        ensures size { self.new.size ≡ 0 }
        ensures no_memory { string_capacity self.new.text ≡ 0 }
    {
        self.text.clear();
        self.text.shrink_to_fit();
        self.size = 0;
    }
}

impl<A: Allocator> TextBuffer for GrowingText<A> {
    ghost stored = { λ buffer. string_bytes buffer.text };

    ghost text_capacity = { λ buffer. buffer.size };

    fn capacity(&self) -> usize {
        self.size
    }

    fn reserve(&mut self, size: usize) -> bool {
        if size <= self.size {
            return true;
        }
        self.text.clear();
        if self.text.reserve(size).is_err() {
            return false;
        }
        self.size = size;
        true
    }

    fn clear(&mut self) {
        self.text.clear();
    }

    fn push(&mut self, c: char) {
        // The contract requires room for it.
        let _ = self.text.push(c);
    }

    fn push_str(&mut self, part: &str) {
        // The contract requires room for it.
        let _ = self.text.push_str(part);
    }

    fn as_str(&self) -> &str {
        self.text.as_str()
    }
}
