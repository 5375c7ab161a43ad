//! The parser of a processor without a limit. It allocates before it reads, so that no memory is
//! refused while it reads.
ghost use Rattle.std.specs.Prelude.{IfSome, None, ◌+◌, ◌^◌, ◌≡◌, ◌≤◌};
ghost use Rattle.vte.specs.declared.ansi.calls.joined_text.TheConstants.{SEPARATORS};
ghost use Rattle.vte.specs.Views.{long_parser_view};

use crate::ansi::calls::joined_text::SEPARATORS;
use crate::ansi::calls::performer::Performer;
use crate::ansi::calls::text_buffer::TextBuffer;
use crate::ansi::updates::parsing::{EventParser, ParseAs};
use std::alloc::Allocator;
use vte_core::{ByCharacter, InRuns, LongParser, Refused};
use vte_handler::{Handler, HandlerText, Timeout};

impl<A: Allocator> EventParser for LongParser<A> {
    ghost limit = { None };

    ghost view = { long_parser_view };

    fn reserve<B: TextBuffer>(&mut self, text: &mut B, held: usize, more: usize) -> bool {
        let Some(count) = held.checked_add(more) else {
            return false;
        };
        if !LongParser::reserve(self, count) {
            return false;
        }
        match joined_size(self.stored(), count) {
            Some(size) => text.reserve(size),
            None => false,
        }
    }
}

/// Returns the largest size of a text that is joined from `stored` bytes and `more` that come, or
/// `None` if that overflows.
fn joined_size(stored: usize, more: usize) -> Option<usize>
    ensures size { IfSome result (λ size. size ≡ stored + more + SEPARATORS) }
    ensures too_large { result ≡ None → 2 ^ 64 ≤ stored + more + SEPARATORS }
{
    stored.checked_add(more)?.checked_add(SEPARATORS)
}

#[tactic(auto, using(crate::proofs::lemmas::events::EnoughMemory::long_stops))]
impl<H: Handler, T: Timeout + Drop, A: Allocator> ParseAs<H, T, LongParser<A>> for ByCharacter {
    #[inline(always)]
    fn advance<B: TextBuffer + Drop>(
        parser: &mut LongParser<A>,
        performer: &mut Performer<'_, '_, H, T, B, Self>,
        bytes: &[u8],
    ) {
        // The engine has reserved memory for these bytes, so none is refused.
        let _ = parser.advance(performer, bytes);
    }

    #[inline(always)]
    fn advance_until_begin<B: TextBuffer + Drop>(
        parser: &mut LongParser<A>,
        performer: &mut Performer<'_, '_, H, T, B, Self>,
        bytes: &[u8],
    ) -> usize {
        match parser.advance_until_terminated(performer, bytes) {
            // The engine has reserved memory for these bytes, so none is refused.
            Ok(read) | Err(Refused { read }) => read,
        }
    }
}

#[tactic(auto, using(crate::proofs::lemmas::events::EnoughMemory::long_stops))]
impl<H: HandlerText, T: Timeout + Drop, A: Allocator> ParseAs<H, T, LongParser<A>> for InRuns {
    #[inline(always)]
    fn advance<B: TextBuffer + Drop>(
        parser: &mut LongParser<A>,
        performer: &mut Performer<'_, '_, H, T, B, Self>,
        bytes: &[u8],
    ) {
        // The engine has reserved memory for these bytes, so none is refused.
        let _ = parser.advance_text(performer, bytes);
    }

    #[inline(always)]
    fn advance_until_begin<B: TextBuffer + Drop>(
        parser: &mut LongParser<A>,
        performer: &mut Performer<'_, '_, H, T, B, Self>,
        bytes: &[u8],
    ) -> usize {
        match parser.advance_text_until_terminated(performer, bytes) {
            // The engine has reserved memory for these bytes, so none is refused.
            Ok(read) | Err(Refused { read }) => read,
        }
    }
}
