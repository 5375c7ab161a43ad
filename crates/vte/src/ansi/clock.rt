//! Clocks.
ghost use Rattle.std.specs.Duration.{as_nanos};
ghost use Rattle.std.specs.Prelude.{ℕ};

use std::time::Duration;

/// Gives the time, as the duration since a moment that the clock chooses.
pub trait Clock {
    /// The values that clocks stand for.
    ghost Value: { Type 0 };

    /// The value that a clock stands for.
    ghost value_of: { Self → Value };

    /// Which times, in nanoseconds, a clock with this value may tell.
    ghost tells: { Value → ℕ → Type 0 };

    /// Returns the time of this call.
    fn now(&self) -> Duration
        ensures { tells (value_of self.now) (as_nanos result) };
}
