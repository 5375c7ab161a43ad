//! The parser, together with what a processor lends it. The references are separate parameters, not
//! fields of one struct, so that the performer can borrow each.
ghost use Rattle.std.specs.Prelude.{false, length, List, Option, Some, true, ℕ, ◌+◌, ◌≡◌, ◌≤◌};
ghost use Rattle.vte.specs.Memory.{KeepsMemory};
ghost use Rattle.vte.specs.private.Engine.{FromEachStateOfParts, HasParsedPrefix, PartsLeaveMemory};
ghost use Rattle.vte.specs.private.Parsing.{AdvancesAll, AdvancesUntilStop};
ghost use Rattle.vte.specs.private.PerformerValue.{performer_value, performer_with_event};
ghost use Rattle.vte.specs.Processor.{parse, processor_meaning};
ghost use Rattle.vte.specs.Views.{engine_view, limited_parser_view, ParserView};
ghost use Rattle.vte_handler.specs.Timeout.{timeout_meaning};

use crate::ansi::calls::joined_text::{SEPARATORS, TEXT_CAPACITY};
use crate::ansi::calls::performer::{Performer, ProcessorState};
use crate::ansi::calls::text_buffer::TextBuffer;
use arrayvec::ArrayString;
use std::marker::PhantomData;
use vte_core::{ByCharacter, InRuns, Parser};
use vte_handler::{Handler, HandlerText, Timeout};

/// The parser of a processor.
// cargo lacks: not used
pub(crate) type ProcessorParser = Parser<1024>;

/// The buffer of a processor for joined texts.
// cargo lacks: not used
pub(crate) type ProcessorText = ArrayString<TEXT_CAPACITY>;

/// A parser whose events a processor interprets.
pub(crate) trait EventParser {
    /// How many data bytes of an operating system command it keeps, if there is a limit.
    ghost limit: { Option ℕ };

    /// Which streams it has read, for which bytes it has memory, and whether data were lost.
    ghost view: { ParserView Self };

    /// Reserves memory for `held` bytes and `more` others, and for the texts that are joined from
    /// them. Returns whether it succeeded.
    fn reserve<B: TextBuffer>(&mut self, text: &mut B, held: usize, more: usize) -> bool
        ensures reads { (stream : List ℕ) → view.has_read self.old stream
            → view.has_read self.new stream }
        ensures memory { result ≡ true → (stream : List ℕ) → view.has_read self.new stream
            → view.has_memory self.new (B.text_capacity text.new) stream (held + more) }
        ensures keeps_memory { KeepsMemory (view.has_memory self.old (B.text_capacity text.old))
            (view.has_memory self.new (B.text_capacity text.new)) }
        ensures keeps_lost { view.lost self.new ≡ view.lost self.old }
        ensures lacks_memory { result ≡ false → (stream : List ℕ) → view.has_read self.new stream
            → ¬ view.has_memory self.new (B.text_capacity text.new) stream (held + more) };
}

impl<const N: usize> EventParser for Parser<N> {
    ghost limit = { Some N };

    ghost view = { limited_parser_view };

    fn reserve<B: TextBuffer>(&mut self, text: &mut B, _held: usize, _more: usize) -> bool {
        match N.checked_add(SEPARATORS) {
            Some(size) => text.reserve(size),
            None => false,
        }
    }
}

/// Parses for a handler that receives text `ByCharacter` or `InRuns`.
pub(crate) trait ParseAs<H: Handler, T: Timeout + Drop, P: EventParser>: Sized {
    /// Parses all bytes.
    fn advance<B: TextBuffer + Drop>(
        parser: &mut P,
        performer: &mut Performer<'_, '_, H, T, B, Self>,
        bytes: &[u8],
    )
        ensures { let value = performer_value H.value_of T.value_of B.text_capacity in
            AdvancesAll P.view P.limit
            (performer_with_event H.step (timeout_meaning T.set T.clear T.allows))
            parser.old parser.new (value performer.old) (value performer.new) bytes.now };

    /// Parses bytes until an update begins, and returns how many it parsed.
    fn advance_until_begin<B: TextBuffer + Drop>(
        parser: &mut P,
        performer: &mut Performer<'_, '_, H, T, B, Self>,
        bytes: &[u8],
    ) -> usize
        ensures { let value = performer_value H.value_of T.value_of B.text_capacity in
            AdvancesUntilStop P.view P.limit
            (performer_with_event H.step (timeout_meaning T.set T.clear T.allows))
            parser.old parser.new (value performer.old) (value performer.new)
            bytes.now result };
}

#[tactic(auto, using(crate::proofs::lemmas::events::EnoughMemory::short_parses))]
impl<H: Handler, T: Timeout + Drop, const N: usize> ParseAs<H, T, Parser<N>> for ByCharacter {
    #[inline(always)]
    fn advance<B: TextBuffer + Drop>(
        parser: &mut Parser<N>,
        performer: &mut Performer<'_, '_, H, T, B, Self>,
        bytes: &[u8],
    ) {
        parser.advance(performer, bytes);
    }

    #[inline(always)]
    fn advance_until_begin<B: TextBuffer + Drop>(
        parser: &mut Parser<N>,
        performer: &mut Performer<'_, '_, H, T, B, Self>,
        bytes: &[u8],
    ) -> usize {
        parser.advance_until_terminated(performer, bytes)
    }
}

#[tactic(auto, using(crate::proofs::lemmas::events::EnoughMemory::short_parses))]
impl<H: HandlerText, T: Timeout + Drop, const N: usize> ParseAs<H, T, Parser<N>> for InRuns {
    #[inline(always)]
    fn advance<B: TextBuffer + Drop>(
        parser: &mut Parser<N>,
        performer: &mut Performer<'_, '_, H, T, B, Self>,
        bytes: &[u8],
    ) {
        parser.advance_text(performer, bytes);
    }

    #[inline(always)]
    fn advance_until_begin<B: TextBuffer + Drop>(
        parser: &mut Parser<N>,
        performer: &mut Performer<'_, '_, H, T, B, Self>,
        bytes: &[u8],
    ) -> usize {
        parser.advance_text_until_terminated(performer, bytes)
    }
}

/// Parses all bytes.
pub(crate) fn parse_all<
    H: Handler,
    B: TextBuffer + Drop,
    T: Timeout + Drop,
    P: EventParser,
    G: ParseAs<H, T, P>,
>(parser: &mut P, processor_state: &mut ProcessorState<T, B>, handler: &mut H, bytes: &[u8])
    ensures parsed { FromEachStateOfParts
        (engine_view P.limit P.view B.text_capacity T.value_of)
        parser.old processor_state.old (H.value_of handler.old)
        parser.new processor_state.new (H.value_of handler.new) (length bytes.now)
        (λ state IsReached. IsReached (parse
        (processor_meaning P.limit H.step T.set T.clear T.allows) state bytes.now)) }
    ensures leaves_memory { PartsLeaveMemory (engine_view P.limit P.view B.text_capacity T.value_of)
        parser.old processor_state.old (H.value_of handler.old)
        parser.new processor_state.new bytes.now }
{
    let mut performer = Performer {
        state: processor_state,
        handler,
        terminated: false,
        granularity: PhantomData::<G>,
    };
    G::advance(parser, &mut performer, bytes);
}

/// Parses the bytes up to the one that begins an update. Returns how many it parsed, and whether an
/// update begins.
pub(crate) fn parse_until_begin<
    H: Handler,
    B: TextBuffer + Drop,
    T: Timeout + Drop,
    P: EventParser,
    G: ParseAs<H, T, P>,
>(
    parser: &mut P,
    processor_state: &mut ProcessorState<T, B>,
    handler: &mut H,
    bytes: &[u8],
) -> (usize, bool)
    ensures within { result.0 ≤ length bytes.now }
    ensures parses_prefix { FromEachStateOfParts
        (engine_view P.limit P.view B.text_capacity T.value_of)
        parser.old processor_state.old (H.value_of handler.old)
        parser.new processor_state.new (H.value_of handler.new) (length bytes.now)
        (λ state. HasParsedPrefix
        (processor_meaning P.limit H.step T.set T.clear T.allows) state bytes.now
        result.0 result.1) }
{
    let mut performer = Performer {
        state: processor_state,
        handler,
        terminated: false,
        granularity: PhantomData::<G>,
    };
    let read = G::advance_until_begin(parser, &mut performer, bytes);
    (read, performer.terminated)
}
