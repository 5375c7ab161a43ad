//! The looks of a parser. A look is the load of one byte of a call, or one reported event.
//!
//! Only contracts read the counts, which take no space at run time.
ghost use Rattle.std.specs.Prelude.{◌+◌, ◌≡◌};
ghost use Rattle.vte_core.specs.private.Prelude.{looks_of, total_looks};

use super::Reader;
use std::mem;
use std::snapshot::Snapshot;

/// A number of looks: none, those of a tally and some more, or those of two tallies.
#[derive(Drop)]
pub(super) enum Tally {
    Start,
    Then(Snapshot<Tally>, usize),
    Both(Snapshot<Tally>, Snapshot<Tally>),
}

/// The looks of all calls of a parser.
#[derive(Drop)]
pub(crate) struct Looks {
    tally: Snapshot<Tally>,
}

impl Looks {
    /// Creates the count of a parser that has read nothing.
    pub(crate) fn new() -> Self
        ensures { total_looks result ≡ 0 }
    {
        Looks {
            tally: Snapshot::of(&Tally::Start),
        }
    }

    /// Adds the looks of a call, whose reader it consumes.
    pub(crate) fn add(&mut self, reader: Reader)
        ensures { total_looks self.new ≡ total_looks self.old + looks_of reader }
    {
        let Reader { tally } = reader;
        let before = mem::replace(&mut self.tally, Snapshot::of(&Tally::Start));
        self.tally = Snapshot::of(&Tally::Both(before, tally));
    }
}
