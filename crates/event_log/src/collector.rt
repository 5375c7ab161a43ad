//! Performers that collect text until it is written.
ghost use Rattle.std.specs.Prelude.{length, List, ℕ, [], ◌<◌, ◌≡◌};
ghost use Rattle.event_log.specs.CollectedText.{CollectedText, empty_text};
ghost use Rattle.event_log.specs.private.Progress.{AddsUpTo, HasKept, HasReadStream};
ghost use Rattle.vte_core.specs.Event.{Event};

use vte_core::Parser;

/// The parser of a log, with the usual room for operating system commands.
pub(crate) type LogParser = Parser<1024>;

/// Collects a text for each event.
// proof: the text of an event, and what it holds, define its meaning.
pub(crate) trait Collector {
    ghost text_of: { Event → List ℕ };

    ghost collected_text_of: { Self → CollectedText };

    /// Parses bytes and collects their text until it is time to write it. Nothing is lost. Returns
    /// the unread bytes.
    fn collect<'a>(&mut self, parser: &mut LogParser, bytes: &'a [u8]) -> &'a [u8]
        requires parsed { HasReadStream parser.old }
        requires holds_nothing { collected_text_of self.old ≡ empty_text }
        ensures reads_some { 0 < length bytes.now → length result.now < length bytes.now }
        ensures collects { (total_text : List ℕ → List ℕ)
            → AddsUpTo text_of total_text [] parser.old bytes.now →
            HasKept text_of total_text (collected_text_of self.new) parser.new result.now };

    /// Returns the collected text.
    fn collected_text(&self) -> &[u8]
        ensures { result.now ≡ (collected_text_of self.now).bytes };

    /// Clears the text, and forgets that any was lost.
    fn clear(&mut self)
        ensures { collected_text_of self.new ≡ empty_text };
}
