//! A timeout over a clock.
ghost use Rattle.std.specs.Duration.{as_nanos};
ghost use Rattle.std.specs.Prelude.{Bool, false, IsSomeAnd, None, true, ◌≡◌};
ghost use Rattle.vte.specs.StdSyncHandler.{clock_in, ExpiresAfter, expiry_in, is_pending, pending_meaning};
ghost use Rattle.vte_handler.specs.Timeout.{AllowsOnly, IsSteady};

use crate::ansi::clock::Clock;
use std::alloc::AllocError;
use std::time::Duration;
use vte_handler::Timeout;

/// A timeout that remembers when an update expires, and is pending until it is cleared.
///
/// Its owner compares [`sync_timeout`](StdSyncHandler::sync_timeout) with the clock, and calls
/// [`Processor::stop_sync`](crate::ansi::Processor::stop_sync) when the time has come.
#[derive(Drop)]
pub struct StdSyncHandler<C: Clock + Drop> {
    clock: C,
    expiry: Option<Duration>,
}

impl<C: Clock + Clone + Drop> Clone for StdSyncHandler<C> {
    ghost is_clone = { λ timeout clone. (expiry_in clone ≡ expiry_in timeout)
        × C.is_clone (clock_in timeout) (clock_in clone) };

    // Only the clock may need memory.
    ghost is_infallible = { λ timeout. C.is_infallible (clock_in timeout) };

    fn clone(&self) -> Result<Self, AllocError> {
        let (clock, expiry) = (self.clock.clone()?, self.expiry);
        Ok(StdSyncHandler { clock, expiry })
    }
}

impl<C: Clock + Drop> StdSyncHandler<C> {
    /// Creates a timeout that isn't pending.
    pub fn new(clock: C) -> Self
        ensures no_expiry { expiry_in result ≡ None }
        ensures clock { clock_in result ≡ clock }
        // A timeout stays pending until it is cleared, whatever the clock tells.
        ensures steady { IsSteady pending_meaning }
        ensures not_pending { AllowsOnly pending_meaning (is_pending result) false }
    {
        StdSyncHandler {
            clock,
            expiry: None,
        }
    }

    /// Returns when the update expires, as a time of the clock, or `None` if no update is pending.
    pub fn sync_timeout(&self) -> Option<Duration>
        ensures { result ≡ expiry_in self.now }
    {
        self.expiry
    }
}

impl<C: Clock + Drop> Timeout for StdSyncHandler<C> {
    ghost Value = { Bool };

    ghost value_of = { is_pending };

    ghost set = { pending_meaning.set };

    ghost clear = { pending_meaning.clear };

    ghost allows = { pending_meaning.allows };

    /// Lets the update expire this long after the clock's time, at most at the greatest `Duration`.
    fn set_timeout(&mut self, duration: Duration)
        ensures value { is_pending self.new ≡ true }
        ensures expiry { IsSomeAnd (expiry_in self.new)
            (ExpiresAfter C.tells (C.value_of (clock_in self.old)) (as_nanos duration)) }
        ensures clock { clock_in self.new ≡ clock_in self.old }
    {
        self.expiry = Some(self.clock.now().saturating_add(duration));
    }

    fn clear_timeout(&mut self)
        ensures value { is_pending self.new ≡ false }
        ensures expiry { expiry_in self.new ≡ None }
        ensures clock { clock_in self.new ≡ clock_in self.old }
    {
        self.expiry = None;
    }

    fn pending_timeout(&self) -> bool
        ensures { result ≡ is_pending self.now }
    {
        self.expiry.is_some()
    }
}
