//! How handlers take characters.
ghost use Rattle.std.specs.Prelude.{◌≡◌};
ghost use Rattle.vte_handler.specs.Call.{Input};

use vte_core::{ByCharacter, InRuns};
use vte_handler::{Handler, HandlerText};

/// A handler that takes characters as `G` says: `ByCharacter` or `InRuns`.
pub(crate) trait InputAs<G>: Handler {
    /// Receives a character to show.
    fn input_char(&mut self, c: char)
        ensures { Self.value_of self.new ≡ Self.step (Self.value_of self.old) (Input c) };
}

impl<H: Handler> InputAs<ByCharacter> for H {
    #[inline(always)]
    fn input_char(&mut self, c: char) {
        self.input(c);
    }
}

impl<H: HandlerText> InputAs<InRuns> for H {
    fn input_char(&mut self, c: char) {
        match c {
            // Never: no control is printed.
            '\u{0}'..='\u{1f}' | '\u{80}'..='\u{9f}' => self.input(c),
            _ => self.input_text(c.encode_utf8(&mut [0; 4])),
        }
    }
}
