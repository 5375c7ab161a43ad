//! The processor with a limit of its own.
ghost use Rattle.std.specs.Prelude.{Some, ◌≡◌};
ghost use Rattle.vte.specs.Processor.{processor_meaning};
ghost use Rattle.vte.specs.ProcessorCalls.{AdvancesInTurns, CountsHeld, Creates, SaysParsedLoss, StopsSync};
ghost use Rattle.vte.specs.ProcessorFacts.{bounded_facts};
ghost use Rattle.vte_handler.specs.Timeout.{timeout_meaning};

use crate::ansi::calls::growing_text::GrowingText;
use crate::ansi::updates::engine::Engine;
use crate::ansi::updates::parsing::EventParser;
use std::alloc::Allocator;
use vte_core::{ByCharacter, InRuns, Parser};
use vte_handler::{Handler, HandlerText, Timeout};

/// A [`Processor`](crate::ansi::Processor) that keeps up to `N` data bytes of an operating system
/// command, and drops the rest.
#[derive(Drop)]
// cargo: #[derive(Clone)]
pub struct BoundedProcessor<T: Timeout + Drop, A: Allocator, const N: usize> {
    engine: Engine<Parser<N>, GrowingText<A>, T, A>,
}

impl<T: Timeout + Drop, A: Allocator + Copy, const N: usize> BoundedProcessor<T, A, N> {
    /// Creates a processor that has read nothing, and allocates the 2,097,152 bytes for updates
    /// that are held back, and `N + 16` for texts that are joined. No later call allocates memory.
    ///
    /// Returns the timeout if memory runs out.
    pub fn new(alloc: A, timeout: T) -> Result<Self, T>
        ensures { Creates (Some N) (timeout_meaning T.set T.clear T.allows) T.value_of
            (bounded_facts T.value_of) timeout result }
    {
        let mut parser = Parser::<N>::new_with_size();
        let mut text = GrowingText::new(alloc);
        if !parser.reserve(&mut text, 0, 0) {
            return Err(timeout);
        }
        let engine = Engine::new(alloc, parser, text, timeout)?;
        Ok(BoundedProcessor { engine })
    }
}

impl<T: Timeout + Drop, A: Allocator, const N: usize> BoundedProcessor<T, A, N> {
    /// Returns the timeout.
    pub fn sync_timeout(&self) -> &T
        ensures { result.now ≡ (bounded_facts T.value_of self.now).timeout }
    {
        &self.engine.state.timeout
    }

    /// Returns the number of bytes that are held back, at most 2,097,150.
    pub fn sync_bytes_count(&self) -> usize
        ensures { CountsHeld (bounded_facts T.value_of self.now).held result }
    {
        self.engine.hold.len()
    }

    /// Returns whether the open operating system command has lost data bytes, or the last one if
    /// none is open. It loses those after the first `N`, and those after the 16th piece. Bytes that
    /// are held back don't count.
    pub fn command_lost_data(&self) -> bool
        ensures lost { result ≡ (bounded_facts T.value_of self.now).lost }
        ensures open { SaysParsedLoss (Some N) (bounded_facts T.value_of self.now) result }
    {
        self.engine.parser.command_lost_data()
    }

    /// Stops an update: parses the bytes that are held back, calls the handler to tell it that the
    /// update has ended, and clears the timeout. This call is made even if no update is open.
    pub fn stop_sync<H: Handler>(&mut self, handler: &mut H)
        ensures { StopsSync (processor_meaning (Some N) H.step T.set T.clear T.allows)
            (bounded_facts T.value_of self.old) (bounded_facts T.value_of self.new)
            (H.value_of handler.old) (H.value_of handler.new) }
    {
        self.engine.stop::<H, ByCharacter>(handler);
    }

    /// Stops an update as [`stop_sync`](Self::stop_sync) does. The handler receives text in runs.
    pub fn stop_sync_text<H: HandlerText>(&mut self, handler: &mut H)
        ensures { StopsSync (processor_meaning (Some N) H.step T.set T.clear T.allows)
            (bounded_facts T.value_of self.old) (bounded_facts T.value_of self.new)
            (H.value_of handler.old) (H.value_of handler.new) }
    {
        self.engine.stop::<H, InRuns>(handler);
    }

    /// Reads bytes, and parses them or holds them back.
    ///
    /// If the timeout is never pending, all bytes are parsed: the handler of a new processor
    /// receives the calls of the whole stream, however it is split.
    pub fn advance<H: Handler>(&mut self, handler: &mut H, bytes: &[u8])
        ensures { AdvancesInTurns (processor_meaning (Some N) H.step T.set T.clear T.allows)
            (bounded_facts T.value_of self.old) (bounded_facts T.value_of self.new)
            (H.value_of handler.old) (H.value_of handler.new) bytes.now }
    {
        // The memory is there, so all bytes are read.
        let _ = self.engine.advance::<H, ByCharacter>(handler, bytes);
    }

    /// Reads bytes as [`advance`](Self::advance) does. The handler receives text in runs.
    pub fn advance_text<H: HandlerText>(&mut self, handler: &mut H, bytes: &[u8])
        ensures { AdvancesInTurns (processor_meaning (Some N) H.step T.set T.clear T.allows)
            (bounded_facts T.value_of self.old) (bounded_facts T.value_of self.new)
            (H.value_of handler.old) (H.value_of handler.new) bytes.now }
    {
        // The memory is there, so all bytes are read.
        let _ = self.engine.advance::<H, InRuns>(handler, bytes);
    }
}
