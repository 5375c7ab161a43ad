//! The buffer for the data bytes of an operating system command.
ghost use Rattle.std.specs.Prelude.{drop, false, length, List, None, not, Option, option_map, Some, take, true, unwrap_or, vec_capacity, ℕ, [], ◌++◌, ◌+◌, ◌-◌, ◌<◌, ◌≡◌, ◌≤◌};
ghost use Rattle.vte_core.specs.private.Prelude.{ArePositions, fitting, has_room, HasCapacity, LooksWithin, ReservesCapacity};

use crate::reader::{Input, Reader};
use arrayvec::ArrayVec;
// cargo: #[cfg(any(feature = "std", feature = "ansi"))]
// cargo: use crate::prelude::Vec;
use std::alloc::Allocator;

/// Holds bytes, up to a limit or as many as there is memory for.
pub(crate) trait Buffer {
    /// The most bytes that are stored, if there is a limit.
    ghost limit: { Option ℕ };

    /// The bytes that are stored.
    ghost stored: { Self → List ℕ };

    /// The number of bytes for which memory was allocated.
    ghost capacity: { Self → ℕ };

    /// Returns the stored bytes.
    fn bytes(&self) -> &[u8]
        ensures { result.now ≡ stored self.now };

    /// Drops the stored bytes. Their memory stays.
    fn clear(&mut self)
        ensures holds_nothing { stored self.new ≡ [] }
        ensures same_capacity { capacity self.new ≡ capacity self.old };

    /// Returns whether the limit is reached.
    fn is_full(&self) -> bool
        ensures { result ≡ not (has_room limit (length (stored self.now))) };

    /// Reserves memory for `more` bytes. Returns whether it succeeded. With a limit, it always
    /// does.
    fn reserve(&mut self, more: usize) -> bool
        ensures same_bytes { stored self.new ≡ stored self.old }
        ensures reserves { ReservesCapacity limit (length (stored self.new)) more
            (capacity self.old) (capacity self.new) result };

    /// Adds the bytes of an input from one position to another, up to the limit.
    fn append(&mut self, reader: &mut Reader, input: Input<'_>, from: usize, to: usize)
        requires range { ArePositions input.bytes.now from to }
        requires has_memory { HasCapacity limit (capacity self.old) (length (stored self.old))
            (to - from) }
        ensures appended { stored self.new
            ≡ stored self.old
            ++ fitting limit (length (stored self.old))
            (take (to - from) (drop from input.entry.bytes.now)) }
        ensures keeps_memory { capacity self.old ≤ capacity self.new }
        ensures looks_at_most { LooksWithin (to - from) reader.old reader.new };
}

/// An array that is made when the first byte comes: clearing one takes time, and a parser that C
/// makes for one call seldom needs it.
impl<const N: usize> Buffer for Option<ArrayVec<u8, N>> {
    ghost limit = { Some N };

    ghost stored = { λ buffer. unwrap_or (option_map (λ bytes. bytes.items) buffer) [] };

    ghost capacity = { λ buffer. N };

    fn bytes(&self) -> &[u8] {
        match self {
            Some(bytes) => bytes.as_slice(),
            None => &[],
        }
    }

    fn clear(&mut self) {
        if let Some(bytes) = self {
            bytes.clear();
        }
    }

    fn is_full(&self) -> bool {
        self.bytes().len() >= N
    }

    fn reserve(&mut self, _more: usize) -> bool {
        true
    }

    fn append(&mut self, reader: &mut Reader, input: Input<'_>, from: usize, to: usize) {
        if self.is_none() {
            *self = Some(ArrayVec::new());
        }
        if let Some(bytes) = self {
            let kept = (to - from).min(bytes.remaining_capacity());
            // No more bytes than there is room for are copied, so all fit.
            let _ = reader.copy_to_array(input, from, from + kept, bytes);
        }
    }
}

// cargo: #[cfg(any(feature = "std", feature = "ansi"))]
impl<A: Allocator> Buffer for Vec<u8, A> {
    ghost limit = { None };

    ghost stored = { λ buffer. buffer.items };

    ghost capacity = { λ buffer. vec_capacity buffer };

    fn bytes(&self) -> &[u8] {
        self.as_slice()
    }

    fn clear(&mut self) {
        self.clear();
    }

    fn is_full(&self) -> bool {
        false
    }

    fn reserve(&mut self, more: usize) -> bool {
        self.reserve(more).is_ok()
    }

    fn append(&mut self, reader: &mut Reader, input: Input<'_>, from: usize, to: usize) {
        // The caller has reserved memory for these bytes, so all fit.
        let _ = reader.copy_to_vec(input, from, to, self);
    }
}
