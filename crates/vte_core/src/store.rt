//! The store of an operating system command.
ghost use Rattle.std.specs.List.Sorted.{IsNonDecreasing};
ghost use Rattle.std.specs.Prelude.{All, drop, false, IsTrue, length, List, take, ℕ, [], ◌++◌, ◌+◌, ◌-◌, ◌<◌, ◌↔◌, ◌∷◌, ◌≡◌, ◌≢◌, ◌≤◌};
ghost use Rattle.vte_core.specs.private.Prelude.{ArePieceEnds, ArePositions, cut_pieces, HasCapacity, HoldsItems, LooksWithin, max_pieces, OscDispatch, Reports, ReservesCapacity, SameItems, semicolon, StoredCommand};

use crate::buffer::Buffer;
use crate::reader::{CountedPerform, Granularity, Input, Reader};
use arrayvec::ArrayVec;
// cargo: #[cfg(any(feature = "std", feature = "ansi"))]
// cargo: use crate::prelude::Vec;
use std::alloc::{AllocError, Allocator};
use std::marker::Model;

/// How many pieces of a command are kept.
pub(crate) const MAX_PIECES: usize = 16;

/// The items of a command, as far as they are kept.
#[derive(Drop)]
pub(crate) struct CommandStore<B: Buffer> {
    /// The data bytes, without the `;` between the pieces.
    bytes: B,
    /// The ends of the first 16 pieces in them.
    ends: ArrayVec<usize, MAX_PIECES>,
    /// Whether data bytes were dropped.
    lost: bool,
}

impl<B: Buffer> Model for CommandStore<B> {
    ghost use Rattle.std.specs.List.Sorted.{IsNonDecreasing};
    ghost use Rattle.std.specs.Prelude.{All, length, ◌≤◌};
    ghost use Rattle.vte_core.specs.CommandMemory.{StoredCommand};

    ghost Value = { StoredCommand };

    ghost view = { λ store. record {
      capacity = B.capacity store.bytes;
      bytes = B.stored store.bytes;
      ends = store.ends.items;
      lost = store.lost;
    } };

    ghost invariant = { λ store. IsNonDecreasing store.ends.items
        × All (λ end. end ≤ length (B.stored store.bytes)) store.ends.items };
}

impl<B: Buffer> CommandStore<B> {
    /// Creates a store without items, over a buffer.
    // cargo instead: pub(crate) const fn new(bytes: B) -> Self
    pub(crate) fn new(bytes: B) -> Self
        requires { B.stored bytes ≡ [] }
        ensures holds { HoldsItems B.limit result [] }
        ensures capacity_is { result.capacity ≡ B.capacity bytes }
    {
        CommandStore {
            bytes,
            ends: ArrayVec::new(),
            lost: false,
        }
    }

    /// Removes all items, as before a command. Their memory stays.
    pub(crate) fn clear(&mut self)
        ensures holds { HoldsItems B.limit self.new [] }
        ensures same_capacity { self.new.capacity ≡ self.old.capacity }
    {
        self.remove_items();
        self.lost = false;
    }

    /// Removes all items, but keeps whether data bytes were dropped. Their memory stays.
    pub(crate) fn remove_items(&mut self)
        ensures no_bytes { self.new.bytes ≡ [] }
        ensures no_ends { self.new.ends ≡ [] }
        ensures same_lost { self.new.lost ≡ self.old.lost }
        ensures same_capacity { self.new.capacity ≡ self.old.capacity }
    {
        // cargo instead: self.ends.clear();
        self.ends = ArrayVec::new();
        self.bytes.clear();
    }

    /// Returns whether data bytes were dropped.
    pub(crate) fn has_lost_data(&self) -> bool
        ensures { result ≡ self.now.lost }
    {
        self.lost
    }

    /// Reserves memory for `more` data bytes. Returns whether it succeeded.
    pub(crate) fn reserve(&mut self, more: usize) -> bool
        ensures same_items { SameItems self.old self.new }
        ensures reserves { ReservesCapacity B.limit
            (length self.new.bytes) more self.old.capacity self.new.capacity result }
    {
        self.bytes.reserve(more)
    }

    /// Reserves memory for `more` data bytes, unless they are dropped because 16 pieces have ended.
    /// Returns `false` only if memory is refused.
    pub(crate) fn reserve_if_kept(&mut self, more: usize) -> bool
        ensures same_items { SameItems self.old self.new }
        ensures keeps_memory { self.old.capacity ≤ self.new.capacity }
        ensures at_most { result ≡ false → length self.new.ends < max_pieces }
        ensures reserves { length self.new.ends < max_pieces
            → ReservesCapacity B.limit
            (length self.new.bytes) more self.old.capacity self.new.capacity result }
    {
        self.ends.is_full() || self.reserve(more)
    }

    /// Ends a piece at a `;`, if there is room.
    pub(crate) fn end_piece(&mut self)
        ensures holds { (items : List ℕ) → HoldsItems B.limit self.old items
            → HoldsItems B.limit self.new (items ++ semicolon ∷ []) }
        ensures same_capacity { self.new.capacity ≡ self.old.capacity }
    {
        if !self.ends.is_full() && !self.bytes.is_full() {
            self.ends.push(self.bytes.bytes().len());
        }
    }

    /// Adds the data bytes of an input from one position to another, as many as there is room for.
    /// Adds none after 16 pieces.
    pub(crate) fn push_data(
        &mut self,
        reader: &mut Reader,
        input: Input<'_>,
        from: usize,
        to: usize,
    )
        requires range { ArePositions input.bytes.now from to }
        requires data { All (λ b. b ≢ semicolon) (take (to - from) (drop from input.bytes.now)) }
        requires has_memory { length self.old.ends < max_pieces
            → HasCapacity B.limit self.old.capacity (length self.old.bytes) (to - from) }
        ensures holds { (items : List ℕ) → HoldsItems B.limit self.old items → HoldsItems B.limit
            self.new (items ++ take (to - from) (drop from input.entry.bytes.now)) }
        ensures keeps_memory { self.old.capacity ≤ self.new.capacity }
        ensures looks_at_most { LooksWithin (to - from) reader.old reader.new }
    {
        let before = self.bytes.bytes().len();
        if !self.ends.is_full() {
            self.bytes.append(reader, input, from, to);
        }
        self.lost |= self.bytes.bytes().len() - before < to - from;
    }

    /// Dispatches the command with its pieces.
    #[tactic(auto, using(std::proofs::lemmas::Grind::common_steps))]
    pub(crate) fn dispatch<P: CountedPerform<G>, G: Granularity>(
        &self,
        reader: &mut Reader,
        performer: &mut P,
        bell_terminated: bool,
    )
        ensures { Reports P.step (P.value_of performer.old) (P.value_of performer.new)
            (OscDispatch (cut_pieces self.now.bytes self.now.ends) bell_terminated)
            reader.old reader.new }
    {
        let (bytes, ends) = (self.bytes.bytes(), self.ends.as_slice());
        // Most commands have one piece or two.
        match ends {
            [] => return performer.osc_dispatch(reader, &[bytes], bell_terminated),
            [end] => {
                let pieces = [&bytes[..*end], &bytes[*end..]];
                return performer.osc_dispatch(reader, &pieces, bell_terminated);
            }
            _ => {}
        }
        let mut pieces: [&[u8]; MAX_PIECES] = [&[]; MAX_PIECES];
        let mut start = 0;
        for (index, end) in ends.iter().enumerate() {
            pieces[index] = &bytes[start..*end];
            start = *end;
        }
        let mut count = ends.len();
        if count < MAX_PIECES {
            pieces[count] = &bytes[start..];
            count += 1;
        }
        performer.osc_dispatch(reader, &pieces[..count], bell_terminated);
    }
}

// cargo: #[cfg(feature = "__own")]
impl<const N: usize> CommandStore<Option<ArrayVec<u8, N>>> {
    /// Returns the data bytes, the ends of the first 16 pieces in them, and whether data bytes were
    /// dropped.
    pub(crate) fn raw_parts(&self) -> (&[u8], &[usize], bool)
        ensures bytes { result.0.now ≡ self.now.bytes }
        ensures fits { length result.0.now ≤ N }
        ensures ends { result.1.now ≡ self.now.ends }
        ensures piece_ends { ArePieceEnds self.now.bytes self.now.ends }
        ensures lost { result.2 ≡ self.now.lost }
    {
        let bytes = match &self.bytes {
            Some(bytes) => bytes.as_slice(),
            None => &[],
        };
        (bytes, self.ends.as_slice(), self.lost)
    }

    /// Replaces what is stored. The ends are left out if they can't be ends of pieces.
    pub(crate) fn restore(&mut self, bytes: &[u8], ends: &[usize], lost: bool)
        requires fits { length bytes.now ≤ N }
        requires at_most { length ends.now ≤ max_pieces }
        ensures bytes { self.new.bytes ≡ bytes.now }
        ensures ends { ArePieceEnds bytes.now ends.now → self.new.ends ≡ ends.now }
        ensures lost { self.new.lost ≡ lost }
    {
        // cargo instead: self.ends.clear();
        self.ends = ArrayVec::new();
        self.bytes = Some(ArrayVec::new());
        if let Some(array) = &mut self.bytes {
            // A saved parser has at most N bytes, so all fit.
            let _ = array.try_extend_from_slice(bytes);
        }
        if are_piece_ends(ends, bytes.len()) {
            let _ = self.ends.try_extend_from_slice(ends);
        }
        self.lost = lost;
    }
}

// cargo: #[cfg(any(feature = "std", feature = "ansi"))]
impl<A: Allocator> CommandStore<Vec<u8, A>> {
    /// Returns the number of data bytes for which there is memory.
    // cargo lacks: not used
    pub(crate) fn capacity(&self) -> usize
        ensures { result ≡ self.now.capacity }
    {
        self.bytes.capacity()
    }

    /// Returns how many data bytes it has.
    // cargo: #[cfg(any(feature = "__own", feature = "ansi"))]
    pub(crate) fn len(&self) -> usize
        ensures { result ≡ length self.now.bytes }
    {
        self.bytes.len()
    }

    /// Frees the memory that the data bytes don't need.
    pub(crate) fn shrink_to_fit(&mut self)
        ensures same_items { SameItems self.old self.new }
        ensures frees { length self.old.bytes ≡ 0 → self.new.capacity ≡ 0 }
        ensures allocates_nothing { self.new.capacity ≤ self.old.capacity }
    {
        self.bytes.shrink_to_fit();
    }
}

impl<A: Allocator + Clone> Clone for CommandStore<Vec<u8, A>> {
    ghost is_clone = { λ store clone. SameItems store clone × (store.capacity ≤ clone.capacity) };

    fn clone(&self) -> Result<Self, AllocError> {
        let mut bytes = self.bytes.clone()?;
        // A clone has as much memory.
        bytes.reserve(self.bytes.capacity() - bytes.len())?;
        Ok(CommandStore {
            bytes,
            ends: self.ends.clone()?,
            lost: self.lost,
        })
    }
}

/// Returns whether pieces with this many bytes in all can end at these positions, which are at most
/// 16.
// cargo: #[cfg(feature = "__own")]
fn are_piece_ends(ends: &[usize], count: usize) -> bool
    ensures { IsTrue result ↔ (IsNonDecreasing ends.now × All (λ end. end ≤ count) ends.now) }
{
    ends.is_sorted() && ends.iter().all(|end| *end <= count)
}
