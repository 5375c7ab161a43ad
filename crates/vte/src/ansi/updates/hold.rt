//! The bytes of an update that are held back, in memory that is allocated once.
ghost use Rattle.std.proofs.Props.{props};
ghost use Rattle.std.specs.Prelude.{drop, IfOk, length, None, vec_capacity, [], ◌+◌, ◌≡◌, ◌≤◌};
ghost use Rattle.vte.specs.declared.ansi.updates.hold.TheConstants.{CAPACITY};
ghost use Rattle.vte.specs.Processor.{max_held};
ghost use Rattle.vte.specs.Synchronized.{after_last_end};

use crate::ansi::updates::release::find_release;
use std::alloc::{AllocError, Allocator};

/// The memory of a hold, in bytes.
const CAPACITY: usize = 2_097_152;

/// The most bytes that are held at once: two less, as in `vte`.
pub(crate) const MAX_HELD: usize = CAPACITY - 2;

/// The bytes that were released last, and after them the held bytes, in which no update ends.
#[derive(Drop)]
pub(crate) struct SyncState<A: Allocator> {
    bytes: Vec<u8, A>,
    released: usize,
    ghost within: { released ≤ length bytes.items },
    // `by` proves that it has one proof at most, as the kit asks of such a condition.
    ghost no_end: { after_last_end (drop released bytes.items) ≡ None } by { Prim.hlevel props },
    ghost fits: { length (drop released bytes.items) ≤ max_held },
    // The memory never grows.
    ghost capacity: { CAPACITY ≤ vec_capacity bytes },
}

impl<A: Allocator + Clone> Clone for SyncState<A> {
    ghost use Rattle.vte.specs.ProcessorFacts.{held_of};

    ghost is_clone = { λ hold clone. held_of clone ≡ held_of hold };

    fn clone(&self) -> Result<Self, AllocError> {
        let mut bytes = self.bytes.clone()?;
        // A clone has as much memory.
        bytes.reserve(self.bytes.capacity() - bytes.len())?;
        let released = self.released;
        Ok(SyncState { bytes, released })
    }
}

impl<A: Allocator> SyncState<A> {
    ghost use Rattle.vte.specs.private.Hold.{AddsToHold, released_of};
    ghost use Rattle.vte.specs.ProcessorCalls.{CountsHeld};
    ghost use Rattle.vte.specs.ProcessorFacts.{held_of};

    /// Allocates the memory.
    pub(crate) fn new(alloc: A) -> Result<Self, AllocError>
        ensures { IfOk result (λ hold. held_of hold ≡ []) }
    {
        let bytes = Vec::with_capacity(alloc, CAPACITY)?;
        Ok(SyncState { bytes, released: 0 })
    }

    /// Returns the number of held bytes.
    pub(crate) fn len(&self) -> usize
        ensures { CountsHeld (held_of self.now) result }
    {
        self.bytes.len() - self.released
    }

    /// Returns the bytes that were released last.
    pub(crate) fn released(&self) -> &[u8]
        ensures { result.now ≡ released_of self.now }
    {
        &self.bytes.as_slice()[..self.released]
    }

    /// Adds bytes. If an update ends among all bytes, releases those that no longer need to be
    /// held. Returns how many updates begin among the added bytes, after the last one that ends.
    pub(crate) fn add(&mut self, more: &[u8]) -> usize
        requires { length (held_of self.old) + length more.now ≤ max_held }
        ensures { AddsToHold (held_of self.old) more.now self.new result }
    {
        self.forget_released();
        let len = self.bytes.len();
        // The bytes fit, so nothing is allocated.
        let _ = self.bytes.extend_from_slice(more);
        // An end may begin in the last seven of the old bytes.
        let start = len.saturating_sub(7);
        let release = find_release(&self.bytes.as_slice()[start..], start);
        self.released = release.released;
        release.begin_count
    }

    /// Releases all held bytes, when an update is stopped.
    pub(crate) fn release_all(&mut self)
        ensures nothing_held { held_of self.new ≡ [] }
        ensures released { released_of self.new ≡ held_of self.old }
    {
        self.forget_released();
        self.released = self.bytes.len();
    }

    /// Drops the released bytes, and moves the held ones to the start.
    fn forget_released(&mut self)
        ensures held { held_of self.new ≡ held_of self.old }
        ensures nothing_released { self.new.released ≡ 0 }
    {
        if self.released > 0 {
            let len = self.bytes.len();
            self.bytes.copy_within(self.released..len, 0);
            self.bytes.truncate(len - self.released);
            self.released = 0;
        }
    }
}
