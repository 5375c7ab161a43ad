//! The timeout of the processor.

use std::cell::Cell;
use std::time::Duration;
use vte::ansi::Timeout;

/// A timeout that is pending from `set_timeout` until it is cleared or expires, and never once it
/// is turned off.
#[derive(Drop)]
pub(crate) struct Expiring {
    pending: Cell<bool>,
    off: Cell<bool>,
}

impl Expiring {
    pub(crate) fn new() -> Self {
        Expiring {
            pending: Cell::new(false),
            off: Cell::new(false),
        }
    }

    pub(crate) fn expire(&self) {
        self.pending.set(false);
    }

    pub(crate) fn turn_off(&self) {
        self.off.set(true);
    }
}

impl Timeout for Expiring {
    ghost Value = { Unit {0} };

    ghost value_of = { λ _. tt };

    ghost set = { λ _ _. tt };

    ghost clear = { λ _. tt };

    // It may have expired.
    ghost allows = { λ _ _. Unit {0} };

    fn set_timeout(&mut self, _duration: Duration) {
        self.pending.set(true);
    }

    fn clear_timeout(&mut self) {
        self.pending.set(false);
    }

    fn pending_timeout(&self) -> bool {
        self.pending.get() && !self.off.get()
    }
}
