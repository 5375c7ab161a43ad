//! The parser that keeps operating system commands of any length.
ghost use Rattle.std.specs.Prelude.{false, IfErr, IfOk, length, List, None, true, ℕ, [], ◌+◌, ◌<◌, ◌≡◌, ◌≤◌};
ghost use Rattle.vte_core.specs.LongParser.{HasReadLong, LacksMemoryForMore, long_parser_facts, lost_data_long, memory_of, open_command_size};
ghost use Rattle.vte_core.specs.Open.{SaysOpen, SaysWhetherOpen};
ghost use Rattle.vte_core.specs.Outcome.{SaysLoss};
ghost use Rattle.vte_core.specs.Parser.{IsCloneOfParser};
ghost use Rattle.vte_core.specs.private.Prelude.{chunk_call, ComesToRun, Costs, NoCharacterStops, per_byte, read_before_range, read_through_range, ReadsCall, ReadsUntilRefused, ReportsOutsideRuns, total_looks};
ghost use Rattle.vte_core.specs.Stream.{outcome};

use crate::parser::{Machine, Open, Refused, State};
use crate::reader::{ByCharacter, Chunk, CountedPerform, Granularity, Looks, RunRange};
use std::alloc::{AllocError, Allocator};

/// A parser whose calls return an error if they are refused memory.
///
/// It keeps operating system commands of any length.
// cargo: /// So does [`Parser`](crate::Parser) with the feature `std`.
///
/// If memory for it is refused, the call stops before the byte that needs it, and the rest can be
/// passed in again:
///
/// ```
/// # use vte::{LongParser, Perform, Refused};
/// # struct Performer;
/// # impl Perform for Performer {}
/// # fn read(mut performer: Performer, bytes: &[u8]) -> Result<(), Refused> {
/// let mut parser = LongParser::new(alloc);
/// if let Err(refused) = parser.advance(&mut performer, bytes) {
///     // Free some memory, and go on.
///     parser.advance(&mut performer, &bytes[refused.read..])?;
/// }
/// # Ok(())
/// # }
/// # assert!(read(Performer, b"\x1b]52;c;aGVsbG8=\x07").is_ok());
/// ```
///
/// The limit of 16 pieces stays. What follows the sixteenth `;` needs no memory. The memory of
/// one command serves the next.
#[derive(Drop)]
pub struct LongParser<A: Allocator> {
    machine: Machine<Vec<u8, A>>,
    looks: Looks,
}

/// A clone goes on as the parser would. Its looks are counted from 0.
impl<A: Allocator + Clone> Clone for LongParser<A> {
    ghost is_clone = { λ parser clone. IsCloneOfParser (long_parser_facts parser)
        (long_parser_facts clone)
        × memory_of parser ≤ memory_of clone };

    fn clone(&self) -> Result<Self, AllocError> {
        Ok(LongParser {
            machine: Machine {
                state: self.machine.state,
                collected: self.machine.collected.clone()?,
                command: self.machine.command.clone()?,
            },
            looks: Looks::new(),
        })
    }
}

impl<A: Allocator> LongParser<A> {
    /// Creates a parser that has read nothing. It doesn't allocate.
    // cargo instead: pub const fn new(alloc: A) -> Self
    pub fn new(alloc: A) -> Self
        ensures reads { HasReadLong result [] }
        ensures no_memory { memory_of result ≡ 0 }
    {
        LongParser {
            machine: Machine::new(Vec::new(alloc)),
            looks: Looks::new(),
        }
    }

    /// Returns the number of data bytes of an operating system command for which it has memory.
    // cargo lacks: not used
    pub fn memory(&self) -> usize
        ensures { result ≡ memory_of self.now }
    {
        self.machine.command.capacity()
    }

    /// Returns how many data bytes of an operating system command it stores: 0 if none is open.
    // cargo: #[cfg(any(feature = "__own", feature = "ansi"))]
    // cargo instead: pub(crate) fn stored(&self) -> usize
    pub fn stored(&self) -> usize
        ensures { (stream : List ℕ) → HasReadLong self.now stream
            → result ≡ open_command_size stream }
    {
        match self.machine.state {
            State::SystemCommand => self.machine.command.len(),
            _ => 0,
        }
    }

    /// Returns whether the open operating system command has lost data bytes, or the last one if
    /// none is open. It loses those after the 16th piece.
    pub fn command_lost_data(&self) -> bool
        ensures lost { result ≡ lost_data_long self.now }
        ensures open { (stream : List ℕ) → HasReadLong self.now stream
            → SaysLoss (outcome None stream).to_close result }
    {
        self.machine.command_lost_data()
    }

    /// Removes the bytes of a command that has ended, but not whether it lost data.
    fn forget_ended_command(&mut self)
        ensures reads { (stream : List ℕ) → HasReadLong self.old stream
            → HasReadLong self.new stream }
        ensures stored { (stream : List ℕ) → HasReadLong self.new stream
            → length self.new.machine.command.bytes ≡ open_command_size stream }
        ensures same_memory { memory_of self.new ≡ memory_of self.old }
        ensures lost { lost_data_long self.new ≡ lost_data_long self.old }
        ensures looks { total_looks self.new.looks ≡ total_looks self.old.looks }
    {
        if !matches!(self.machine.state, State::SystemCommand) {
            self.machine.command.remove_items();
        }
    }

    /// Reserves memory for `more` data bytes of an operating system command. Returns whether it
    /// succeeded. Calls with no more bytes than that are then never refused memory.
    #[must_use = "the memory may be refused"]
    pub fn reserve(&mut self, more: usize) -> bool
        ensures reads { (stream : List ℕ) → HasReadLong self.old stream
            → HasReadLong self.new stream }
        // The memory is for the bytes of an open command and for those that come.
        ensures has_room { result ≡ true → (stream : List ℕ) → HasReadLong self.new stream
            → open_command_size stream + more ≤ memory_of self.new }
        ensures keeps_memory { memory_of self.old ≤ memory_of self.new }
        ensures lacks_memory { result ≡ false → LacksMemoryForMore self.new more }
        // Memory is refused only if the bytes don't fit. Those of an ended command don't count.
        ensures lacks_open { result ≡ false → (stream : List ℕ) → HasReadLong self.new stream
            → memory_of self.new < open_command_size stream + more }
        // `command_lost_data` answers as before.
        ensures lost { lost_data_long self.new ≡ lost_data_long self.old }
        ensures looks { total_looks self.new.looks ≡ total_looks self.old.looks }
    {
        self.forget_ended_command();
        self.machine.command.reserve(more)
    }

    /// Frees the memory that an open operating system command doesn't need.
    pub fn shrink(&mut self)
        ensures reads { (stream : List ℕ) → HasReadLong self.old stream
            → HasReadLong self.new stream }
        // No memory is kept if no data byte is stored.
        ensures frees { (stream : List ℕ) → HasReadLong self.old stream
            → open_command_size stream ≡ 0
            → memory_of self.new ≡ 0 }
        ensures allocates_nothing { memory_of self.new ≤ memory_of self.old }
        // `command_lost_data` answers as before.
        ensures lost { lost_data_long self.new ≡ lost_data_long self.old }
        ensures looks { total_looks self.new.looks ≡ total_looks self.old.looks }
    {
        self.forget_ended_command();
        self.machine.command.shrink_to_fit();
    }

    /// Returns what is open, if anything is.
    ///
    /// It began at the last ESC, or is at most three bytes of a character.
    pub fn open(&self) -> Open
        ensures { SaysOpen None (HasReadLong self.now) result }
    {
        self.machine.open()
    }

    /// Returns whether a character or a sequence is open.
    pub fn is_open(&self) -> bool
        ensures { SaysWhetherOpen None (HasReadLong self.now) result }
    {
        self.machine.is_open()
    }

    /// Reads the bytes of a call, as many as there is memory for, and returns how many: all of
    /// them, or up to a stop if `MAY_STOP`.
    pub(crate) fn drive<P: CountedPerform<G>, G: Granularity, const MAY_STOP: bool>(
        &mut self,
        performer: &mut P,
        chunk: Chunk<'_>,
    ) -> Result<usize, Refused>
        requires no_stop { G.IN_RUNS ≡ true → MAY_STOP ≡ true
            → NoCharacterStops P.layout P.step P.is_terminated }
        ensures { ReadsCall
            (chunk_call MAY_STOP P.step P.is_terminated None chunk.entry.bytes.now)
            (P.value_of performer.old) (P.value_of performer.new) result self.old.machine
            self.new.machine (total_looks self.old.looks) (total_looks self.new.looks) }
    {
        let (mut reader, input) = chunk.into_reader();
        let result = self
            .machine
            .drive::<P, G, MAY_STOP>(&mut reader, performer, input);
        self.looks.add(reader);
        result
    }

    /// Reads bytes up to a run, and finds the run.
    pub(crate) fn drive_to_run<P: CountedPerform<ByCharacter>>(
        &mut self,
        performer: &mut P,
        chunk: Chunk<'_>,
    ) -> Result<RunRange, Refused>
        ensures comes { IfOk result
            (λ range. ComesToRun
            (chunk_call true P.step P.is_terminated None chunk.entry.bytes.now)
            (P.value_of performer.old) (P.value_of performer.new) range self.old.machine
            self.new.machine) }
        ensures refuses { IfErr result
            (λ refused. ReadsUntilRefused
            (chunk_call true P.step P.is_terminated None chunk.entry.bytes.now)
            (P.value_of performer.old) (P.value_of performer.new) refused.read self.old.machine
            self.new.machine) }
        ensures costs { Costs (per_byte 7) chunk.entry.bytes.now result (read_through_range result)
            self.old.machine self.new.machine
            (total_looks self.old.looks) (total_looks self.new.looks) }
        ensures outside_runs { (stream : List ℕ) → HasReadLong self.old stream
            → ReportsOutsideRuns None stream chunk.entry.bytes.now (read_before_range result) }
    {
        let (mut reader, input) = chunk.into_reader();
        let result = self.machine.drive_to_run(&mut reader, performer, input);
        self.looks.add(reader);
        result
    }
}
