//! A timeout that is pending until it is cleared.
ghost use Rattle.std.specs.Prelude.{◌≡◌};

use std::time::Duration;
use vte::ansi::Timeout;

/// Pending from `set_timeout` to `clear_timeout`.
#[derive(Drop)]
pub(crate) struct UntilCleared {
    pending: bool,
}

impl UntilCleared {
    pub(crate) fn new() -> Self {
        UntilCleared { pending: false }
    }
}

impl Timeout for UntilCleared {
    ghost use Rattle.std.specs.Prelude.{Bool, false, true};

    ghost Value = { Bool };

    ghost value_of = { λ timeout. timeout.pending };

    ghost set = { λ pending nanoseconds. true };

    ghost clear = { λ pending. false };

    ghost allows = { λ pending answer. answer ≡ pending };

    fn set_timeout(&mut self, _duration: Duration) {
        self.pending = true;
    }

    fn clear_timeout(&mut self) {
        self.pending = false;
    }

    fn pending_timeout(&self) -> bool {
        self.pending
    }
}
