//! The state of a parser, and what it has collected.
ghost use Rattle.std.specs.Prelude.{List, ℕ, [], ◌≡◌};
ghost use Rattle.vte_core.specs.declared.parser.open.Open.TheVariants.{Nothing};
ghost use Rattle.vte_core.specs.Open.{SaysOpen, SaysWhetherOpen};
ghost use Rattle.vte_core.specs.private.Prelude.{HasReadWithLimit, outcome, SaysLoss};

use crate::buffer::Buffer;
use crate::head::CollectedHead;
use crate::parser::{Open, OpenCharacter, State};
use crate::store::CommandStore;

/// A parser over any buffer for operating system commands. The state functions are its methods.
#[derive(Drop)]
// cargo: #[derive(Clone)]
pub(crate) struct Machine<B: Buffer> {
    pub(crate) state: State,
    pub(crate) collected: CollectedHead,
    pub(crate) command: CommandStore<B>,
}

impl<B: Buffer> Machine<B> {
    /// Creates a machine that has read nothing, over an empty buffer.
    // cargo instead: pub(crate) const fn new(bytes: B) -> Self
    pub(crate) fn new(bytes: B) -> Self
        requires { B.stored bytes ≡ [] }
        ensures reads { HasReadWithLimit B.limit result [] }
        ensures capacity_is { result.command.capacity ≡ B.capacity bytes }
    {
        Machine {
            state: State::Text(OpenCharacter::Empty),
            collected: CollectedHead::new(),
            command: CommandStore::new(bytes),
        }
    }

    /// Returns whether the open operating system command has lost data bytes, or the last one if
    /// none is open. It has lost those that are in no piece.
    pub(crate) fn command_lost_data(&self) -> bool
        ensures lost { result ≡ self.now.command.lost }
        ensures open { (stream : List ℕ) → HasReadWithLimit B.limit self.now stream
            → SaysLoss (outcome B.limit stream).to_close result }
    {
        self.command.has_lost_data()
    }

    /// Returns what is open.
    pub(crate) fn open(&self) -> Open
        ensures { SaysOpen B.limit (HasReadWithLimit B.limit self.now) result }
    {
        self.state.open()
    }

    /// Returns whether anything is open.
    pub(crate) fn is_open(&self) -> bool
        ensures { SaysWhetherOpen B.limit (HasReadWithLimit B.limit self.now) result }
    {
        !matches!(self.open(), Open::Nothing)
    }
}
