//! The performer that keeps only text.
ghost use Rattle.std.specs.Prelude.{true, ◌≡◌};
ghost use Rattle.event_log.specs.CollectedText.{collected_text_of, CollectedText, empty_text, is_to_be_written, with_event};
ghost use Rattle.event_log.specs.Plain.{plain_text_of};

use crate::collector::{Collector, LogParser};
use crate::lines::LogBuffer;
use std::marker::Model;
use vte_core::{Params, Perform, PerformText, laws};

/// The most bytes of text that one byte of a stream adds: one byte adds at most two characters.
const MAX_TEXT_PER_BYTE: usize = 8;

/// Collects the text of a stream, without its sequences, in a buffer of 8,192 bytes.
///
/// Characters are kept as UTF-8, and HT, LF and CR as they are. A character that doesn't fit is
/// dropped. `Plain` is terminated when it holds more than 4,096 bytes.
// cargo instead:
/// Once a character was dropped, [`lost`](Self::lost) is true until [`clear`](Self::clear).
#[derive(Drop)]
pub struct Plain {
    texts: LogBuffer,
}

impl Model for Plain {
    ghost Value = { CollectedText };

    ghost view = { λ plain. collected_text_of plain.texts };
}

impl Plain {
    /// Creates an empty `Plain`.
    pub fn new() -> Self
        ensures { result ≡ empty_text }
    {
        Plain {
            texts: LogBuffer::new(),
        }
    }

    /// Returns the collected text.
    pub fn bytes(&self) -> &[u8]
        ensures { result.now ≡ self.now.bytes }
    {
        self.texts.bytes()
    }

    /// Removes the text, and forgets that any was lost.
    pub fn clear(&mut self)
        ensures { self.new ≡ empty_text }
    {
        self.texts.clear();
    }

    /// Returns whether something was dropped since the last `clear`.
    // cargo lacks: not used
    pub fn lost(&self) -> bool
        ensures { result ≡ self.now.lost }
    {
        self.texts.lost()
    }
}

impl Perform for Plain {
    ghost Value = { CollectedText };

    ghost value_of = { λ plain. plain };

    ghost step = { with_event plain_text_of };

    ghost is_terminated = { is_to_be_written };

    #[tactic(auto, unfolding(crate::specs::Plain::plain_text_of))]
    fn print(&mut self, c: char) {
        self.texts.append(c.encode_utf8(&mut [0; 4]).as_bytes());
    }

    #[tactic(auto, unfolding(crate::specs::Plain::plain_text_of))]
    fn execute(&mut self, byte: u8) {
        match byte {
            b'\t' | b'\n' | b'\r' => self.texts.append(&[byte]),
            // proof: what has no text appends an empty one, as `with_event` does.
            _ => self.texts.append(b""),
        }
    }

    #[tactic(auto, unfolding(crate::specs::Plain::plain_text_of))]
    fn hook(&mut self, _params: &Params, _intermediates: &[u8], _ignore: bool, _action: char) {
        self.texts.append(b"");
    }

    #[tactic(auto, unfolding(crate::specs::Plain::plain_text_of))]
    fn put(&mut self, _byte: u8) {
        self.texts.append(b"");
    }

    #[tactic(auto, unfolding(crate::specs::Plain::plain_text_of))]
    fn unhook(&mut self) {
        self.texts.append(b"");
    }

    #[tactic(auto, unfolding(crate::specs::Plain::plain_text_of))]
    fn osc_dispatch(&mut self, _params: &[&[u8]], _bell_terminated: bool) {
        self.texts.append(b"");
    }

    #[tactic(auto, unfolding(crate::specs::Plain::plain_text_of))]
    fn csi_dispatch(
        &mut self,
        _params: &Params,
        _intermediates: &[u8],
        _ignore: bool,
        _action: char,
    ) {
        self.texts.append(b"");
    }

    #[tactic(auto, unfolding(crate::specs::Plain::plain_text_of))]
    fn esc_dispatch(&mut self, _intermediates: &[u8], _ignore: bool, _byte: u8) {
        self.texts.append(b"");
    }

    fn terminated(&self) -> bool {
        self.texts.is_to_be_written()
    }
}

impl PerformText for Plain {
    ghost layout = { true };

    fn keeps_layout(&self) -> bool {
        true
    }

    fn print_text(&mut self, text: &str) {
        if text.len() <= self.texts.remaining_capacity() {
            self.texts.append(text.as_bytes());
            return;
        }
        for c in text.chars() {
            self.texts.append(c.encode_utf8(&mut [0; 4]).as_bytes());
        }
    }
}

impl Collector for Plain {
    ghost text_of = { plain_text_of };

    ghost collected_text_of = { λ plain. plain };

    // The text of a chunk fits whatever its bytes are, so no character needs a stop.
    fn collect<'a>(&mut self, parser: &mut LogParser, bytes: &'a [u8]) -> &'a [u8] {
        laws::bytes_are_brief();
        let mut unread = bytes;
        while !unread.is_empty() && !self.terminated() {
            let size = self.texts.remaining_capacity() / MAX_TEXT_PER_BYTE;
            let (chunk, rest) = unread.split_at(unread.len().min(size));
            parser.advance_text(self, chunk);
            unread = rest;
        }
        unread
    }

    fn collected_text(&self) -> &[u8] {
        self.bytes()
    }

    fn clear(&mut self) {
        self.clear();
    }
}
