//! Timeouts of synchronized updates.
ghost use Rattle.std.specs.Duration.{as_nanos};
ghost use Rattle.std.specs.Prelude.{Bool, ℕ, ◌≡◌};

use std::time::Duration;

/// Decides how long the bytes of a synchronized update are held back.
// cargo: #[doc = include_str!("../../docs/timeout.md")]
// cargo instead: pub trait Timeout: Default {
pub trait Timeout {
    /// The values that timeouts stand for.
    ghost Value: { Type 0 };

    /// The value that a timeout stands for.
    ghost value_of: { Self → Value };

    /// The value after it is set for this many nanoseconds.
    ghost set: { Value → ℕ → Value };

    /// The value after it is cleared.
    ghost clear: { Value → Value };

    /// Which answers of `pending_timeout` a value allows. If a clock decides, it allows both.
    ghost allows: { Value → Bool → Type 0 };

    /// Starts or restarts the timeout, because an update has begun.
    fn set_timeout(&mut self, duration: Duration)
        ensures { value_of self.new ≡ set (value_of self.old) (as_nanos duration) };

    /// Clears the timeout, because the update has ended.
    fn clear_timeout(&mut self)
        ensures { value_of self.new ≡ clear (value_of self.old) };

    /// Returns whether an update is pending, so that new bytes are held back.
    fn pending_timeout(&self) -> bool
        ensures { allows (value_of self.now) result };
}
