//! The processor without a limit.
ghost use Rattle.std.specs.Prelude.{List, None, ℕ, [], ◌≡◌};
ghost use Rattle.vte.specs.LongProcessor.{AdvancesLong, HasFreedMemoryLong, Reserves};
ghost use Rattle.vte.specs.Processor.{processor_meaning};
ghost use Rattle.vte.specs.ProcessorCalls.{CountsHeld, Creates, IsCloneOfProcessor, SaysParsedLoss, StopsSync};
ghost use Rattle.vte.specs.ProcessorFacts.{ContinuesAs, long_facts};
ghost use Rattle.vte_core.specs.LongParser.{open_command_size};
ghost use Rattle.vte_handler.specs.Timeout.{timeout_meaning};

use crate::ansi::calls::growing_text::GrowingText;
use crate::ansi::updates::engine::Engine;
use std::alloc::{AllocError, Allocator};
use vte_core::{ByCharacter, InRuns, LongParser, Refused};
use vte_handler::{Handler, HandlerText, Timeout};

/// A [`Processor`](crate::ansi::Processor) that keeps commands, titles and links whatever their
/// length.
///
/// A call allocates before it parses each 65,536 bytes: for them and an open command, and for a
/// text that is joined from these. For bytes that are held back, it allocates all memory at once.
/// If memory is refused, the call stops there. Nothing is lost or done twice, and the rest can be
/// passed in again:
///
/// ```rattle
/// if let Err(refused) = processor.advance(&mut handler, bytes) {
///     // Free some memory, and go on.
///     processor.advance(&mut handler, &bytes[refused.read..])?;
/// }
/// ```
#[derive(Drop)]
pub struct LongProcessor<T: Timeout + Drop, A: Allocator> {
    engine: Engine<LongParser<A>, GrowingText<A>, T, A>,
}

/// A clone goes on as the original would, if the clone of its timeout does.
impl<T: Timeout + Clone + Drop, A: Allocator + Clone> Clone for LongProcessor<T, A> {
    ghost is_clone = { λ processor clone. IsCloneOfProcessor T.is_clone T.value_of
        (long_facts T.value_of processor) (long_facts T.value_of clone) };

    fn clone(&self) -> Result<Self, AllocError> {
        let engine = self.engine.clone()?;
        Ok(LongProcessor { engine })
    }
}

impl<T: Timeout + Drop, A: Allocator + Copy> LongProcessor<T, A> {
    /// Creates a processor that has read nothing, and allocates the 2,097,152 bytes for updates
    /// that are held back.
    ///
    /// Returns the timeout if memory runs out.
    pub fn new(alloc: A, timeout: T) -> Result<Self, T>
        ensures { Creates None (timeout_meaning T.set T.clear T.allows) T.value_of
            (long_facts T.value_of) timeout result }
    {
        let parser = LongParser::new(alloc);
        let text = GrowingText::new(alloc);
        let engine = Engine::new(alloc, parser, text, timeout)?;
        Ok(LongProcessor { engine })
    }
}

impl<T: Timeout + Drop, A: Allocator> LongProcessor<T, A> {
    /// Returns the timeout.
    pub fn sync_timeout(&self) -> &T
        ensures { result.now ≡ (long_facts T.value_of self.now).timeout }
    {
        &self.engine.state.timeout
    }

    /// Returns the number of bytes that are held back, at most 2,097,150.
    pub fn sync_bytes_count(&self) -> usize
        ensures { CountsHeld (long_facts T.value_of self.now).held result }
    {
        self.engine.hold.len()
    }

    /// Returns whether the open operating system command has lost data bytes, or the last one if
    /// none is open. It loses those after the 16th piece. Bytes that are held back don't count.
    pub fn command_lost_data(&self) -> bool
        ensures lost { result ≡ (long_facts T.value_of self.now).lost }
        ensures open { SaysParsedLoss None (long_facts T.value_of self.now) result }
    {
        self.engine.parser.command_lost_data()
    }

    /// Reserves memory for the bytes that are held back and for `more` others. Returns whether it
    /// succeeded. Calls with no more bytes than that are then never refused memory.
    #[must_use = "the memory may be refused"]
    pub fn reserve(&mut self, more: usize) -> bool
        ensures { Reserves (long_facts T.value_of self.old)
            (long_facts T.value_of self.new) more result }
    {
        self.engine.reserve(more)
    }

    /// Frees the memory that an open operating system command doesn't need, unless bytes are
    /// held back. The 2,097,152 bytes for updates stay.
    pub fn shrink(&mut self)
        ensures stays { ContinuesAs (long_facts T.value_of self.old)
            (long_facts T.value_of self.new) }
        // No memory is kept if no command is open.
        ensures frees { (parsed : List ℕ) (timeout : T.Value)
            → (long_facts T.value_of self.old).has_parsed_and_holds parsed [] timeout
            → open_command_size parsed ≡ 0
            → HasFreedMemoryLong self.new }
        // `command_lost_data` answers as before.
        ensures lost { (long_facts T.value_of self.new).lost
            ≡ (long_facts T.value_of self.old).lost }
    {
        if self.engine.hold.len() == 0 {
            self.engine.parser.shrink();
            self.engine.state.text.free();
        }
    }

    /// Stops an update: parses the bytes that are held back, calls the handler to tell it that the
    /// update has ended, and clears the timeout. This call is made even if no update is open.
    ///
    /// It needs no more memory: the calls that held the bytes back reserved it.
    pub fn stop_sync<H: Handler>(&mut self, handler: &mut H)
        ensures { StopsSync (processor_meaning None H.step T.set T.clear T.allows)
            (long_facts T.value_of self.old) (long_facts T.value_of self.new)
            (H.value_of handler.old) (H.value_of handler.new) }
    {
        self.engine.stop::<H, ByCharacter>(handler);
    }

    /// Stops an update as [`stop_sync`](Self::stop_sync) does. The handler receives text in runs.
    pub fn stop_sync_text<H: HandlerText>(&mut self, handler: &mut H)
        ensures { StopsSync (processor_meaning None H.step T.set T.clear T.allows)
            (long_facts T.value_of self.old) (long_facts T.value_of self.new)
            (H.value_of handler.old) (H.value_of handler.new) }
    {
        self.engine.stop::<H, InRuns>(handler);
    }

    /// Reads bytes, and parses them or holds them back: all of them, or as many as there is memory
    /// for.
    ///
    /// If the timeout is never pending and no memory is refused, all bytes are parsed: the handler
    /// of a new processor receives the calls of the whole stream, however it is split.
    ///
    /// # Errors
    ///
    /// Fails if memory is refused. [`Refused`] says how many of the bytes were read, which is fewer
    /// than all. Pass in the others next, `&bytes[refused.read..]`.
    pub fn advance<H: Handler>(&mut self, handler: &mut H, bytes: &[u8]) -> Result<(), Refused>
        ensures { AdvancesLong (processor_meaning None H.step T.set T.clear T.allows)
            (long_facts T.value_of self.old) (long_facts T.value_of self.new)
            (H.value_of handler.old) (H.value_of handler.new) bytes.now result }
    {
        self.engine.advance::<H, ByCharacter>(handler, bytes)
    }

    /// Reads bytes as [`advance`](Self::advance) does. The handler receives text in runs.
    ///
    /// # Errors
    ///
    /// Fails as [`advance`](Self::advance) does.
    pub fn advance_text<H: HandlerText>(
        &mut self,
        handler: &mut H,
        bytes: &[u8],
    ) -> Result<(), Refused>
        ensures { AdvancesLong (processor_meaning None H.step T.set T.clear T.allows)
            (long_facts T.value_of self.old) (long_facts T.value_of self.new)
            (H.value_of handler.old) (H.value_of handler.new) bytes.now result }
    {
        self.engine.advance::<H, InRuns>(handler, bytes)
    }
}
