//! From bytes to the text that is left without the sequences.
ghost use Rattle.std.specs.Prelude.{false, length, List, true, ℕ, ◌++◌, ◌+◌, ◌-◌, ◌<◌, ◌≡◌, ◌≤◌};
ghost use Rattle.vte_c.specs.Calls.{Strips};
ghost use Rattle.vte_c.specs.private.WrittenText.{IsEmptyBuffer, StripsMore, text_with, text_with_event, written_text_of, WrittenText};
ghost use Rattle.vte_c.specs.Reported.{HasStripped};

use crate::feed::NO_ROOM;
use vte_core::{Params, Parser, Perform, PerformText, Saved, laws};

/// The number of bytes of text for which there must be room: what two bytes of a stream add.
pub(crate) const MIN_TEXT: usize = 16;

/// The most bytes of text that one byte of a stream adds: one byte adds at most two characters.
const MAX_TEXT_PER_BYTE: usize = 8;

/// Writes text into the caller's buffer, as long as all of it fits.
#[derive(Drop)]
struct TextWriter<'a> {
    bytes: &'a mut [u8],
    used: usize,
    /// Whether all of it has fitted. If not, nothing is kept.
    fits: bool,
}

impl TextWriter<'_> {
    /// Returns the number of bytes for which there is still room.
    fn remaining_room(&self) -> usize
        ensures { result ≡ (written_text_of self.now).capacity - (written_text_of self.now).used }
    {
        self.bytes.len().saturating_sub(self.used)
    }

    /// Writes a text, if there is room for it.
    #[inline(always)]
    #[tactic(auto, unfolding(crate::specs::private::WrittenText::text_with))]
    fn write_text(&mut self, text: &[u8])
        ensures { written_text_of self.new ≡ text_with (written_text_of self.old) text.now }
    {
        let (used, size) = (self.used, self.bytes.len());
        if self.fits && used <= size && text.len() <= size - used {
            self.bytes[used..used + text.len()].copy_from_slice(text);
            self.used = used + text.len();
        } else {
            self.used = 0;
            self.fits = false;
        }
    }
}

impl Perform for TextWriter<'_> {
    ghost Value = { WrittenText };

    ghost value_of = { written_text_of };

    ghost step = { text_with_event };

    ghost is_terminated = { λ buffer. false };

    #[tactic(auto, unfolding(event_log::specs::Plain::plain_text_of))]
    #[inline]
    fn print(&mut self, c: char) {
        self.write_text(c.encode_utf8(&mut [0; 4]).as_bytes());
    }

    #[tactic(auto, unfolding(event_log::specs::Plain::plain_text_of))]
    fn execute(&mut self, byte: u8) {
        match byte {
            b'\t' | b'\n' | b'\r' => self.write_text(&[byte]),
            // proof: what has no text adds an empty one, as `text_with_event` does.
            _ => self.write_text(b""),
        }
    }

    #[tactic(auto, unfolding(event_log::specs::Plain::plain_text_of))]
    fn hook(&mut self, _params: &Params, _intermediates: &[u8], _ignore: bool, _action: char) {
        self.write_text(b"");
    }

    #[tactic(auto, unfolding(event_log::specs::Plain::plain_text_of))]
    fn put(&mut self, _byte: u8) {
        self.write_text(b"");
    }

    #[tactic(auto, unfolding(event_log::specs::Plain::plain_text_of))]
    fn unhook(&mut self) {
        self.write_text(b"");
    }

    #[tactic(auto, unfolding(event_log::specs::Plain::plain_text_of))]
    fn osc_dispatch(&mut self, _params: &[&[u8]], _bell_terminated: bool) {
        self.write_text(b"");
    }

    #[tactic(auto, unfolding(event_log::specs::Plain::plain_text_of))]
    fn csi_dispatch(
        &mut self,
        _params: &Params,
        _intermediates: &[u8],
        _ignore: bool,
        _action: char,
    ) {
        self.write_text(b"");
    }

    #[tactic(auto, unfolding(event_log::specs::Plain::plain_text_of))]
    fn esc_dispatch(&mut self, _intermediates: &[u8], _ignore: bool, _byte: u8) {
        self.write_text(b"");
    }

    fn terminated(&self) -> bool {
        false
    }
}

impl PerformText for TextWriter<'_> {
    ghost layout = { true };

    fn keeps_layout(&self) -> bool {
        true
    }

    #[inline]
    fn print_text(&mut self, text: &str) {
        self.write_text(text.as_bytes());
    }
}

/// Reads bytes until they end or the buffer is nearly full, and writes their text. Returns how many
/// were read.
pub(crate) fn strip(parser: &mut Saved, bytes: &[u8], text: &mut [u8], written: &mut usize) -> usize
    ensures { Strips parser.old parser.new bytes.now text.old text.new written.new result }
{
    *written = 0;
    if text.len() < MIN_TEXT {
        return NO_ROOM;
    }
    let size = text.len();
    let mut writer = TextWriter {
        bytes: text,
        used: 0,
        fits: true,
    };
    let read = read_into(parser, bytes, &mut writer);
    // proof: the limit doesn't bite, but `read_into` says so only if the parser has read a stream,
    // and the count fits whatever its bytes are.
    *written = writer.used.min(size);
    read
}

/// Reads bytes into an empty buffer, until they end or there may be no room for the text of one
/// more.
fn read_into(saved: &mut Saved, bytes: &[u8], writer: &mut TextWriter<'_>) -> usize
    requires is_empty { IsEmptyBuffer (written_text_of writer.old) }
    ensures within { result ≤ length bytes.now }
    ensures reads_some { 0 < length bytes.now → 0 < result }
    ensures fills { result < length bytes.now
        → (written_text_of writer.new).capacity < (written_text_of writer.new).used + 8 }
    ensures strips { (text stream rest : List ℕ) →
        HasStripped saved.old text stream (bytes.now ++ rest) →
        StripsMore writer.old writer.new saved.new text stream bytes.now rest result }
{
    laws::bytes_are_brief();
    let mut parser = Parser::new();
    parser.restore(saved);
    let mut count = 0;
    // The text of a chunk fits whatever its bytes are, so no character needs a stop.
    while count < bytes.len() && writer.remaining_room() >= MAX_TEXT_PER_BYTE {
        let unread = &bytes[count..];
        let size = unread
            .len()
            .min(writer.remaining_room() / MAX_TEXT_PER_BYTE);
        let chunk = &unread[..size];
        parser.advance_text(writer, chunk);
        count += chunk.len();
    }
    parser.save(saved);
    count
}
