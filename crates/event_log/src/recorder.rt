//! The performer that writes lines.
ghost use Rattle.std.specs.Prelude.{◌++◌, ◌≡◌};
ghost use Rattle.event_log.specs.CollectedText.{collected_text_of, CollectedText, empty_text, is_to_be_written, with_event, with_text};
ghost use Rattle.event_log.specs.Lines.{line_feed, line_of, sequence_fields};

use crate::collector::{Collector, LogParser};
use crate::lines::{LogBuffer, line_of_execute, line_of_put};
use std::marker::Model;
use vte_core::{Params, Perform, laws};

/// Collects one line per event in a buffer of 8,192 bytes.
///
/// A line that doesn't fit is dropped. The recorder is terminated when it holds more than 4,096
/// bytes.
// cargo instead:
/// Once a line was dropped, [`lost`](Self::lost) is true until [`clear`](Self::clear).
#[derive(Drop)]
pub struct Recorder {
    lines: LogBuffer,
}

impl Model for Recorder {
    ghost Value = { CollectedText };

    ghost view = { λ recorder. collected_text_of recorder.lines };
}

impl Recorder {
    /// Creates an empty recorder.
    pub fn new() -> Self
        ensures { result ≡ empty_text }
    {
        Recorder {
            lines: LogBuffer::new(),
        }
    }

    /// Returns the collected lines.
    pub fn bytes(&self) -> &[u8]
        ensures { result.now ≡ self.now.bytes }
    {
        self.lines.bytes()
    }

    /// Removes the lines, and forgets that any was lost.
    pub fn clear(&mut self)
        ensures { self.new ≡ empty_text }
    {
        self.lines.clear();
    }

    /// Returns whether a line was dropped since the last `clear`.
    // cargo lacks: not used
    pub fn lost(&self) -> bool
        ensures { result ≡ self.now.lost }
    {
        self.lines.lost()
    }

    /// Appends the line of a control sequence or a device control string.
    // Inlined, so that the length of the name is a constant.
    #[inline(always)]
    fn append_sequence(
        &mut self,
        name: &[u8],
        params: &Params,
        intermediates: &[u8],
        ignore: bool,
        action: char,
    )
        ensures { self.new
            ≡ with_text self.old
            (name.now ++ sequence_fields params.now intermediates.now ignore action ++ line_feed) }
    {
        self.lines.begin();
        self.lines.push(name);
        self.lines
            .push_sequence_fields(params, intermediates, ignore, action);
        self.lines.push(b"\n");
        self.lines.end();
    }
}

impl Perform for Recorder {
    ghost Value = { CollectedText };

    ghost value_of = { λ recorder. recorder };

    ghost step = { with_event line_of };

    ghost is_terminated = { is_to_be_written };

    #[inline(always)]
    fn print(&mut self, c: char) {
        self.lines.append_print(c);
    }

    fn execute(&mut self, byte: u8) {
        self.lines.append(&line_of_execute(byte));
    }

    #[tactic(auto, unfolding(crate::specs::Lines::line_of))]
    fn hook(&mut self, params: &Params, intermediates: &[u8], ignore: bool, action: char) {
        self.append_sequence(b"hook", params, intermediates, ignore, action);
    }

    fn put(&mut self, byte: u8) {
        self.lines.append(&line_of_put(byte));
    }

    #[tactic(auto, unfolding(crate::specs::Lines::line_of))]
    fn unhook(&mut self) {
        self.lines.append(b"unhook\n");
    }

    fn osc_dispatch(&mut self, params: &[&[u8]], bell_terminated: bool) {
        self.lines.begin();
        self.lines.push(b"osc");
        self.lines.push_flag_field(bell_terminated);
        self.lines.push_pieces_fields(params);
        self.lines.push(b"\n");
        self.lines.end();
    }

    #[tactic(auto, unfolding(crate::specs::Lines::line_of))]
    fn csi_dispatch(&mut self, params: &Params, intermediates: &[u8], ignore: bool, action: char) {
        self.append_sequence(b"csi", params, intermediates, ignore, action);
    }

    fn esc_dispatch(&mut self, intermediates: &[u8], ignore: bool, byte: u8) {
        self.lines.begin();
        self.lines.push(b"esc");
        self.lines.push_hex_field(intermediates);
        self.lines.push_flag_field(ignore);
        self.lines.push(b" ");
        self.lines.push_hex_byte(byte);
        self.lines.push(b"\n");
        self.lines.end();
    }

    fn terminated(&self) -> bool {
        self.lines.is_to_be_written()
    }
}

impl Collector for Recorder {
    ghost text_of = { line_of };

    ghost collected_text_of = { λ recorder. recorder };

    fn collect<'a>(&mut self, parser: &mut LogParser, bytes: &'a [u8]) -> &'a [u8] {
        laws::early_stops();
        let read = parser.advance_until_terminated(self, bytes);
        &bytes[read..]
    }

    fn collected_text(&self) -> &[u8] {
        self.bytes()
    }

    fn clear(&mut self) {
        self.clear();
    }
}
