//! The processor. A call of `advance` takes turns, and each turn parses bytes or holds them back.
ghost use Rattle.std.specs.Prelude.{◌≡◌};
ghost use Rattle.vte.specs.Processor.{processor_meaning};
ghost use Rattle.vte.specs.ProcessorCalls.{AdvancesInTurns, CountsHeld, Creates, IsCloneOfProcessor, SaysParsedLoss, StopsSync};
ghost use Rattle.vte.specs.ProcessorFacts.{processor_facts};
ghost use Rattle.vte_core.specs.Stream.{default_limit};
ghost use Rattle.vte_handler.specs.Timeout.{timeout_meaning};

use crate::ansi::updates::engine::Engine;
use crate::ansi::updates::parsing::{ProcessorParser, ProcessorText};
use std::alloc::{AllocError, Allocator};
use vte_core::{ByCharacter, InRuns};
use vte_handler::{Handler, HandlerText, Timeout};

/// Parses the bytes that programs send to a terminal, and calls a [`Handler`] for what they ask of
/// it.
///
/// The bytes of a synchronized update are held back, so that the handler receives the update all at
/// once when it ends. The [`Timeout`] decides how long, and [`stop_sync`](Processor::stop_sync)
/// stops an update that has expired.
///
/// ```
/// struct Last(char);
///
/// impl TakeCall for Last {
///     fn take(&mut self, call: HandlerCall<'_>) {
///         if let HandlerCall::Input(c) = call {
///             self.0 = c;
///         }
///     }
/// }
///
/// let mut handler = ByCall(Last(' '));
/// if let Ok(mut processor) = Processor::new(alloc, timeout) {
///     processor.advance(&mut handler, b"\x1b[31mred\x1b[?2026h text");
///     assert_eq!(handler.0.0, 'd');
///     // When the update has expired:
///     processor.stop_sync(&mut handler);
///     assert_eq!(handler.0.0, 't');
/// }
/// ```
#[derive(Drop)]
pub struct Processor<T: Timeout + Drop, A: Allocator> {
    engine: Engine<ProcessorParser, ProcessorText, T, A>,
}

/// A clone goes on as the original would, if the clone of its timeout does.
impl<T: Timeout + Clone + Drop, A: Allocator + Clone> Clone for Processor<T, A> {
    ghost is_clone = { λ processor clone. IsCloneOfProcessor T.is_clone T.value_of
        (processor_facts T.value_of processor) (processor_facts T.value_of clone) };

    fn clone(&self) -> Result<Self, AllocError> {
        let engine = self.engine.clone()?;
        Ok(Processor { engine })
    }
}

impl<T: Timeout + Drop, A: Allocator> Processor<T, A> {
    /// Creates a processor that has read nothing, and allocates the 2,097,152 bytes for updates
    /// that are held back. After that, only a clone allocates memory.
    ///
    /// Returns the timeout if memory runs out.
    pub fn new(alloc: A, timeout: T) -> Result<Self, T>
        ensures { Creates default_limit (timeout_meaning T.set T.clear T.allows) T.value_of
            (processor_facts T.value_of) timeout result }
    {
        let engine = Engine::new(alloc, ProcessorParser::new(), ProcessorText::new(), timeout)?;
        Ok(Processor { engine })
    }

    /// Returns the timeout.
    pub fn sync_timeout(&self) -> &T
        ensures { result.now ≡ (processor_facts T.value_of self.now).timeout }
    {
        &self.engine.state.timeout
    }

    /// Returns the number of bytes that are held back, at most 2,097,150.
    pub fn sync_bytes_count(&self) -> usize
        ensures { CountsHeld (processor_facts T.value_of self.now).held result }
    {
        self.engine.hold.len()
    }

    /// Returns whether the open operating system command has lost data bytes, or the last one if
    /// none is open. It loses those after the first 1,024, and those after the 16th piece. Bytes
    /// that are held back don't count.
    pub fn command_lost_data(&self) -> bool
        ensures lost { result ≡ (processor_facts T.value_of self.now).lost }
        ensures open { SaysParsedLoss default_limit (processor_facts T.value_of self.now) result }
    {
        self.engine.parser.command_lost_data()
    }

    /// Stops an update: parses the bytes that are held back, calls the handler to tell it that the
    /// update has ended, and clears the timeout. This call is made even if no update is open.
    pub fn stop_sync<H: Handler>(&mut self, handler: &mut H)
        ensures { StopsSync (processor_meaning default_limit H.step T.set T.clear T.allows)
            (processor_facts T.value_of self.old) (processor_facts T.value_of self.new)
            (H.value_of handler.old) (H.value_of handler.new) }
    {
        self.engine.stop::<H, ByCharacter>(handler);
    }

    /// Stops an update as [`stop_sync`](Self::stop_sync) does. The handler receives text in runs.
    pub fn stop_sync_text<H: HandlerText>(&mut self, handler: &mut H)
        ensures { StopsSync (processor_meaning default_limit H.step T.set T.clear T.allows)
            (processor_facts T.value_of self.old) (processor_facts T.value_of self.new)
            (H.value_of handler.old) (H.value_of handler.new) }
    {
        self.engine.stop::<H, InRuns>(handler);
    }

    /// Reads bytes, and parses them or holds them back.
    ///
    /// If the timeout is never pending, all bytes are parsed: the handler of a new processor
    /// receives the calls of the whole stream, however it is split.
    pub fn advance<H: Handler>(&mut self, handler: &mut H, bytes: &[u8])
        ensures { AdvancesInTurns (processor_meaning default_limit H.step T.set T.clear T.allows)
            (processor_facts T.value_of self.old) (processor_facts T.value_of self.new)
            (H.value_of handler.old) (H.value_of handler.new) bytes.now }
    {
        // The memory is there, so all bytes are read.
        let _ = self.engine.advance::<H, ByCharacter>(handler, bytes);
    }

    /// Reads bytes as [`advance`](Self::advance) does. The handler receives text in runs.
    pub fn advance_text<H: HandlerText>(&mut self, handler: &mut H, bytes: &[u8])
        ensures { AdvancesInTurns (processor_meaning default_limit H.step T.set T.clear T.allows)
            (processor_facts T.value_of self.old) (processor_facts T.value_of self.new)
            (H.value_of handler.old) (H.value_of handler.new) bytes.now }
    {
        // The memory is there, so all bytes are read.
        let _ = self.engine.advance::<H, InRuns>(handler, bytes);
    }
}
