//! What a processor is, whatever its limit. It takes turns: each parses bytes of a call, or holds
//! them back.
ghost use Rattle.std.specs.Prelude.{IfErr, IfOk, length, MatchResult, nat_le, [], ◌+◌, ◌-◌, ◌<◌, ◌≡◌, ◌≤◌};
ghost use Rattle.vte.specs.LongProcessor.{AdvancesUntilRefused, ProcessorLacksMemory, Reserves};
ghost use Rattle.vte.specs.private.Engine.{EndsParsingTurn, EndsTurn, EndsUpdate, FromEachState, ParsesReleased, PartsLeaveMemory};
ghost use Rattle.vte.specs.private.Hold.{released_of};
ghost use Rattle.vte.specs.Processor.{hold_turn, max_held, processor_meaning, timeout_set_times};
ghost use Rattle.vte.specs.ProcessorCalls.{StopsSync};
ghost use Rattle.vte.specs.ProcessorFacts.{engine_facts, held_of};
ghost use Rattle.vte.specs.Views.{engine_view};
ghost use Rattle.vte_handler.specs.Timeout.{timeout_meaning};

use crate::ansi::calls::performer::ProcessorState;
use crate::ansi::calls::text_buffer::TextBuffer;
use crate::ansi::updates::UPDATE_TIMEOUT_MILLIS;
use crate::ansi::updates::hold::{MAX_HELD, SyncState};
use crate::ansi::updates::parsing::{EventParser, ParseAs, parse_all, parse_until_begin};
use std::alloc::Allocator;
use std::time::Duration;
use vte_core::{Refused, laws};
use vte_handler::{Handler, Timeout};
use vte_types::{NamedPrivateMode, PrivateMode};

/// How many bytes a parsing turn allocates for at once: few compared with the memory of a hold, but
/// enough that a call takes few slices.
const SLICE_SIZE: usize = 65_536;

/// The parser, the hold and the state of a processor, whatever its limit. `P`: parser, `B`: buffer
/// for joined texts, `T`: timeout, `A`: allocator.
#[derive(Clone, Drop)]
pub(crate) struct Engine<P: Drop, B: Drop, T: Drop, A: Allocator> {
    pub(crate) parser: P,
    pub(crate) hold: SyncState<A>,
    pub(crate) state: ProcessorState<T, B>,
}

impl<P: EventParser + Drop, B: TextBuffer + Drop, T: Timeout + Drop, A: Allocator> Engine<
    P,
    B,
    T,
    A,
> {
    /// Creates an engine of a parser that has read nothing, with memory for a hold. Returns the
    /// timeout if memory runs out.
    pub(crate) fn new(alloc: A, parser: P, text: B, timeout: T) -> Result<Self, T>
        requires parser_is_new { P.view.has_read parser [] }
        ensures created { MatchResult result (λ engine. (engine_facts
            (engine_view P.limit P.view B.text_capacity T.value_of) engine).has_parsed_and_holds
            [] [] (T.value_of timeout)) (λ back. back ≡ timeout) }
        ensures timeout { IfOk result (λ engine. engine.state.timeout ≡ timeout) }
        ensures text { IfOk result (λ engine. engine.state.text ≡ text) }
    {
        laws::empty_stream();
        match SyncState::new(alloc) {
            Ok(hold) => Ok(Engine {
                parser,
                hold,
                state: ProcessorState {
                    last_printed: None,
                    text,
                    timeout,
                },
            }),
            Err(_) => Err(timeout),
        }
    }

    /// Reads bytes, and parses them or holds them back: all of them, or as many as there is memory
    /// for. `G` says how the handler receives text.
    // cargo: #[inline]
    pub(crate) fn advance<H: Handler, G: ParseAs<H, T, P>>(
        &mut self,
        handler: &mut H,
        bytes: &[u8],
    ) -> Result<(), Refused>
        ensures { let view = engine_view P.limit P.view B.text_capacity T.value_of in
            AdvancesUntilRefused (processor_meaning P.limit H.step T.set T.clear T.allows)
            (engine_facts view self.old) (engine_facts view self.new)
            (H.value_of handler.old) (H.value_of handler.new) bytes.now result }
    {
        let mut read = 0;
        // Each turn reads at least one byte.
        // proof: that is known only at a state, so a `while` would have no measure.
        for _turn in 0..bytes.len() {
            match self.take_turn::<H, G>(handler, &bytes[read..]) {
                Ok(count) => read += count,
                Err(refused) => {
                    let read = read + refused.read;
                    return Err(Refused { read });
                }
            }
            if read == bytes.len() {
                return Ok(());
            }
        }
        Ok(())
    }

    /// Stops the update, whatever is held: there is memory to parse it.
    // Stops are rare, so they are kept out of the loop over bytes of a turn.
    // cargo: #[inline(never)]
    pub(crate) fn stop<H: Handler, G: ParseAs<H, T, P>>(&mut self, handler: &mut H)
        ensures stopped { let view = engine_view P.limit P.view B.text_capacity T.value_of in
            StopsSync (processor_meaning P.limit H.step T.set T.clear T.allows)
            (engine_facts view self.old) (engine_facts view self.new)
            (H.value_of handler.old) (H.value_of handler.new) }
        ensures nothing_held { held_of self.new.hold ≡ [] }
    {
        self.hold.release_all();
        self.end_update::<H, G>(handler);
    }

    /// Parses the released bytes, after which nothing is held, and tells the handler that the
    /// update has ended.
    fn end_update<H: Handler, G: ParseAs<H, T, P>>(&mut self, handler: &mut H)
        ensures stops { EndsUpdate (engine_view P.limit P.view B.text_capacity T.value_of)
            (processor_meaning P.limit H.step T.set T.clear T.allows)
            self.old self.new (H.value_of handler.old) (H.value_of handler.new) }
        ensures same_hold { self.new.hold ≡ self.old.hold }
    {
        self.parse_released::<H, G>(handler);
        handler.unset_private_mode(PrivateMode::Named(NamedPrivateMode::SyncUpdate));
        self.state.timeout.clear_timeout();
    }

    /// Parses the released bytes, if there are any.
    fn parse_released<H: Handler, G: ParseAs<H, T, P>>(&mut self, handler: &mut H)
        ensures parsed { ParsesReleased (engine_view P.limit P.view B.text_capacity T.value_of)
            (processor_meaning P.limit H.step T.set T.clear T.allows)
            self.old.parser self.old.state (H.value_of handler.old)
            self.new.parser self.new.state (H.value_of handler.new) (released_of self.old.hold) }
        ensures leaves_memory { let view = engine_view P.limit P.view B.text_capacity T.value_of in
            PartsLeaveMemory view self.old.parser self.old.state (H.value_of handler.old)
            self.new.parser self.new.state (released_of self.old.hold) }
        ensures same_hold { self.new.hold ≡ self.old.hold }
    {
        let released = self.hold.released();
        if released.is_empty() {
            return;
        }
        parse_all::<H, B, T, P, G>(&mut self.parser, &mut self.state, handler, released);
    }

    /// Takes one turn, and returns how many bytes it read, or how many until memory was refused. It
    /// asks the timeout once. While an update is pending, the bytes are held, or the update is
    /// stopped if there is no room for them.
    // cargo: #[inline]
    fn take_turn<H: Handler, G: ParseAs<H, T, P>>(
        &mut self,
        handler: &mut H,
        bytes: &[u8],
    ) -> Result<usize, Refused>
        requires not_empty { 0 < length bytes.now }
        ensures within { MatchResult result (λ read. read ≤ length bytes.now)
            (λ refused. refused.read < length bytes.now) }
        ensures turned { let view = engine_view P.limit P.view B.text_capacity T.value_of in
            FromEachState (engine_facts view self.old) (engine_facts view self.new)
            (H.value_of handler.old) (H.value_of handler.new) (λ state. EndsTurn
            (processor_meaning P.limit H.step T.set T.clear T.allows) state bytes.now result) }
        ensures lacks_memory { let view = engine_view P.limit P.view B.text_capacity T.value_of in
            IfErr result (λ refused. ProcessorLacksMemory (engine_facts view self.new)
            (length bytes.now - refused.read)) }
    {
        let pending = self.state.timeout.pending_timeout();
        if pending && self.has_room(bytes.len()) {
            if !self.reserve(bytes.len()) {
                return Err(Refused { read: 0 });
            }
            self.hold_bytes::<H, G>(handler, bytes);
            return Ok(bytes.len());
        }
        // There is no room, or the update has expired while bytes of it are held.
        if pending || self.hold.len() > 0 {
            self.stop::<H, G>(handler);
        }
        self.take_parsing_turn::<H, G>(handler, bytes)
    }

    /// Returns whether there is room to hold this many more bytes.
    fn has_room(&self, count: usize) -> bool
        ensures { result ≡ nat_le (length (held_of self.now.hold) + count) max_held }
    {
        count <= MAX_HELD && self.hold.len() <= MAX_HELD - count
    }

    /// Parses bytes up to the one that begins an update, a slice at a time, and returns how many.
    /// Memory is allocated before each slice.
    fn take_parsing_turn<H: Handler, G: ParseAs<H, T, P>>(
        &mut self,
        handler: &mut H,
        bytes: &[u8],
    ) -> Result<usize, Refused>
        requires nothing_held { held_of self.old.hold ≡ [] }
        ensures within { MatchResult result (λ read. read ≤ length bytes.now)
            (λ refused. refused.read < length bytes.now) }
        ensures parsed { let view = engine_view P.limit P.view B.text_capacity T.value_of in
            FromEachState (engine_facts view self.old) (engine_facts view self.new)
            (H.value_of handler.old) (H.value_of handler.new) (λ state. EndsParsingTurn
            (processor_meaning P.limit H.step T.set T.clear T.allows) state bytes.now result) }
        ensures lacks_memory { let view = engine_view P.limit P.view B.text_capacity T.value_of in
            IfErr result (λ refused. ProcessorLacksMemory (engine_facts view self.new)
            (length bytes.now - refused.read)) }
    {
        let mut read = 0;
        // Each round parses at least one byte, so `Ok` after the loop is for no bytes.
        // proof: as in `advance`, a `while` would have no measure.
        for _slice in 0..bytes.len() {
            let count = (bytes.len() - read).min(SLICE_SIZE);
            if !self.reserve(count) {
                return Err(Refused { read });
            }
            let slice = &bytes[read..read + count];
            let (parsed, begins) = parse_until_begin::<H, B, T, P, G>(
                &mut self.parser,
                &mut self.state,
                handler,
                slice,
            );
            read += parsed;
            if begins || read == bytes.len() {
                return Ok(read);
            }
        }
        Ok(read)
    }

    /// Reserves memory for the held bytes and for `more` others. Returns whether it succeeded.
    pub(crate) fn reserve(&mut self, more: usize) -> bool
        ensures reserved { let view = engine_view P.limit P.view B.text_capacity T.value_of in
            Reserves (engine_facts view self.old) (engine_facts view self.new)
            more result }
        ensures same_hold { self.new.hold ≡ self.old.hold }
    {
        self.parser
            .reserve(&mut self.state.text, self.hold.len(), more)
    }

    /// Holds all bytes. If an update ends among them, parses the bytes that this releases.
    // cargo: #[inline]
    fn hold_bytes<H: Handler, G: ParseAs<H, T, P>>(&mut self, handler: &mut H, bytes: &[u8])
        requires not_empty { 0 < length bytes.now }
        requires fits { length (held_of self.old.hold) + length bytes.now ≤ max_held }
        ensures { let view = engine_view P.limit P.view B.text_capacity T.value_of in
            FromEachState (engine_facts view self.old) (engine_facts view self.new)
            (H.value_of handler.old) (H.value_of handler.new)
            (λ state IsReached. (engine_facts view self.old).has_memory state.parsed
            (length state.held + length bytes.now) → IsReached (hold_turn
            (processor_meaning P.limit H.step T.set T.clear T.allows) state bytes.now)) }
    {
        let begin_count = self.hold.add(bytes);
        set_timeout_times(&mut self.state.timeout, begin_count);
        // Nothing stays held only if an update ends and no other begins after it.
        if self.hold.len() == 0 {
            self.end_update::<H, G>(handler);
        } else {
            self.parse_released::<H, G>(handler);
        }
    }
}

/// Sets the timeout this many times.
fn set_timeout_times<T: Timeout>(timeout: &mut T, count: usize)
    ensures { T.value_of timeout.new
        ≡ timeout_set_times (timeout_meaning T.set T.clear T.allows) count
        (T.value_of timeout.old) }
{
    for _time in 0..count {
        timeout.set_timeout(Duration::from_millis(UPDATE_TIMEOUT_MILLIS));
    }
}
