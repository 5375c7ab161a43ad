//! A performer that writes one line per event.

ghost use Rattle.std.specs.Prelude.{false, ◌≡◌};

use crate::hex::Hex;
use std::alloc::Global;
use std::fmt;
use vte_core::{Params, Perform, PerformText};

/// When a performer asks for an early stop.
#[derive(Clone, Copy)]
pub enum Stop {
    /// At no event.
    Never,
    /// At the first printed character.
    AtPrint,
    /// At the first escape sequence.
    AtEscape,
    /// At the event that comes after this many others.
    After(usize),
    /// Always: the stop has been reached.
    Reached,
}

/// The lines of the events so far.
#[derive(Drop)]
pub struct EventLines {
    text: String,
    refused: bool,
    stop: Stop,
}

impl EventLines {
    ghost use Rattle.test_lines.specs.Stop.{after_event};

    /// Creates a log without lines.
    pub fn new(alloc: Global, stop: Stop) -> Self {
        EventLines {
            text: String::new(alloc),
            refused: false,
            stop,
        }
    }

    /// Returns the lines, or `None` if memory ran out.
    pub fn text(&self) -> Option<&str> {
        if self.refused {
            None
        } else {
            Some(self.text.as_str())
        }
    }

    /// Removes all lines. The stop stays.
    pub fn clear(&mut self) {
        self.text.clear();
    }

    /// Appends a line and counts the event.
    fn add(&mut self, line: impl fmt::Display + Drop)
        ensures { self.new.stop ≡ after_event self.old.stop }
    {
        if writeln!(self.text, "{line}").is_err() {
            self.refused = true;
        }
        match self.stop {
            Stop::After(0) => self.stop = Stop::Reached,
            Stop::After(left) => self.stop = Stop::After(left - 1),
            _ => {}
        }
    }
}

impl Perform for EventLines {
    ghost use Rattle.test_lines.specs.declared.event_lines.Stop.{Stop};
    ghost use Rattle.test_lines.specs.Stop.{is_reached, stop_after};

    ghost Value = { Stop };

    ghost value_of = { λ lines. lines.stop };

    ghost step = { stop_after };

    ghost is_terminated = { is_reached };

    fn print(&mut self, c: char) {
        let code = c as u32;
        self.add(format_args!("print {code:04x}"));
        if let Stop::AtPrint = self.stop {
            self.stop = Stop::Reached;
        }
    }

    fn execute(&mut self, byte: u8) {
        self.add(format_args!("execute {byte:02x}"));
    }

    fn hook(&mut self, params: &Params, intermediates: &[u8], ignore: bool, action: char) {
        let sequence = Sequence {
            params,
            intermediates,
            ignore,
            action,
        };
        self.add(format_args!("hook {sequence}"));
    }

    fn put(&mut self, byte: u8) {
        self.add(format_args!("put {byte:02x}"));
    }

    fn unhook(&mut self) {
        self.add("unhook");
    }

    fn osc_dispatch(&mut self, params: &[&[u8]], bell_terminated: bool) {
        let pieces = Pieces(params);
        let count = params.len();
        self.add(format_args!("osc {bell_terminated} {count}{pieces}"));
    }

    fn csi_dispatch(&mut self, params: &Params, intermediates: &[u8], ignore: bool, action: char) {
        let sequence = Sequence {
            params,
            intermediates,
            ignore,
            action,
        };
        self.add(format_args!("csi {sequence}"));
    }

    fn esc_dispatch(&mut self, intermediates: &[u8], ignore: bool, byte: u8) {
        let intermediates = Hex(intermediates);
        self.add(format_args!("esc {intermediates} {ignore} {byte:02x}"));
        if let Stop::AtEscape = self.stop {
            self.stop = Stop::Reached;
        }
    }

    fn terminated(&self) -> bool {
        matches!(self.stop, Stop::Reached)
    }
}

/// A run has the lines of its characters.
impl PerformText for EventLines {
    ghost layout = { false };

    fn keeps_layout(&self) -> bool {
        false
    }

    fn print_text(&mut self, text: &str) {
        for c in text.chars() {
            self.print(c);
        }
    }
}

/// The pieces of an operating system command, each after a blank.
#[derive(Clone, Copy)]
struct Pieces<'a>(&'a [&'a [u8]]);

impl fmt::Display for Pieces<'_> {
    fn fmt<W: fmt::Write>(&self, f: &mut fmt::Formatter<W>) -> fmt::Result {
        for piece in self.0 {
            let piece = Hex(piece);
            write!(f, " {piece}")?;
        }
        Ok(())
    }
}

/// The arguments of a control sequence or of the head of a device control string.
#[derive(Clone, Copy)]
struct Sequence<'a> {
    params: &'a Params,
    intermediates: &'a [u8],
    ignore: bool,
    action: char,
}

impl fmt::Display for Sequence<'_> {
    fn fmt<W: fmt::Write>(&self, f: &mut fmt::Formatter<W>) -> fmt::Result {
        let params = self.params;
        let intermediates = Hex(self.intermediates);
        let ignore = self.ignore;
        let action = self.action as u32;
        write!(f, "{params:?} {intermediates} {ignore} {action:02x}")
    }
}
