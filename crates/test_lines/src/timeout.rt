//! A timeout with known answers.

use std::cell::Cell;
use std::time::Duration;
use vte::ansi::Timeout;

/// The answers of a timeout.
#[derive(Clone, Copy)]
pub enum Answers {
    /// Pending if it was set since it was last cleared.
    Counting,
    /// Always pending.
    Always,
    /// Never pending.
    Never,
    /// True, false, true, .. from question to question.
    Alternating,
    /// As `Counting`, until it expires.
    Expiring,
}

impl Answers {
    /// Returns the answers with this name.
    pub fn from_name(name: &str) -> Option<Self> {
        Some(match name {
            "counting" => Answers::Counting,
            "always" => Answers::Always,
            "never" => Answers::Never,
            "alternating" => Answers::Alternating,
            "expiring" => Answers::Expiring,
            _ => return None,
        })
    }
}

/// A timeout that answers as it is told to, and counts its calls.
#[derive(Drop)]
pub struct TestTimeout {
    /// What it answers.
    pub answers: Answers,
    /// How many times it was set since it was last cleared.
    pub count: u64,
    /// How many times it was set in all.
    pub sets: u64,
    /// How many times it was cleared in all.
    pub clears: u64,
    asked_before: Cell<bool>,
    expired: Cell<bool>,
}

impl TestTimeout {
    /// Creates a timeout that isn't set.
    pub fn new(answers: Answers) -> Self {
        TestTimeout {
            answers,
            count: 0,
            sets: 0,
            clears: 0,
            asked_before: Cell::new(false),
            expired: Cell::new(false),
        }
    }

    /// Ends the wait of [`Answers::Expiring`].
    pub fn expire(&self) {
        self.expired.set(true);
    }

    fn alternate(&self) -> bool {
        let first = !self.asked_before.get();
        self.asked_before.set(first);
        first
    }
}

impl Timeout for TestTimeout {
    ghost Value = { Unit {0} };

    ghost value_of = { λ _. tt };

    ghost set = { λ _ _. tt };

    ghost clear = { λ _. tt };

    // The contract allows any answer; the vectors check them.
    ghost allows = { λ _ _. Unit {0} };

    fn set_timeout(&mut self, _duration: Duration) {
        self.count = self.count.saturating_add(1);
        self.sets = self.sets.saturating_add(1);
        self.expired.set(false);
    }

    fn clear_timeout(&mut self) {
        self.count = 0;
        self.clears = self.clears.saturating_add(1);
    }

    fn pending_timeout(&self) -> bool {
        match self.answers {
            Answers::Counting => self.count != 0,
            Answers::Always => true,
            Answers::Never => false,
            Answers::Alternating => self.alternate(),
            Answers::Expiring => self.count != 0 && !self.expired.get(),
        }
    }
}
