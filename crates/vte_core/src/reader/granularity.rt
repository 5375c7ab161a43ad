//! How performers receive text.
ghost use Rattle.std.specs.Prelude.{Bool, chars, false, length, map, true, ◌<◌, ◌≡◌};
ghost use Rattle.vte_core.specs.private.Prelude.{after, Execute, is_control_character, IsRunText, Print, Put, run_event};

use crate::class::is_layout;
use crate::perform::{Perform, PerformText};

/// How a performer receives what is printed.
pub(crate) trait Granularity {
    ghost IN_RUNS: { Bool };

    /// Whether text and data come in runs, and not by the character and the byte.
    const IN_RUNS: bool;
}

/// Marks a performer that receives each character and each data byte by itself.
pub enum ByCharacter {}

/// Marks a performer that receives text and data in runs.
pub enum InRuns {}

impl Granularity for ByCharacter {
    ghost IN_RUNS = { false };

    const IN_RUNS: bool = false;
}

impl Granularity for InRuns {
    ghost IN_RUNS = { true };

    const IN_RUNS: bool = true;
}

/// A performer that receives text and data one by one or in runs, as `G` says.
pub(crate) trait ReceiveAs<G: Granularity>: Perform {
    ghost layout: { Bool };

    /// Returns whether HT, LF and CR come as text.
    fn keeps_layout(&self) -> bool
        ensures { result ≡ layout };

    /// Receives a character to print.
    fn print_char(&mut self, c: char)
        requires { is_control_character c ≡ false }
        ensures { Self.value_of self.new ≡ Self.step (Self.value_of self.old) (Print c) };

    /// Receives a control function of one byte.
    fn execute_control(&mut self, byte: u8)
        ensures { Self.value_of self.new ≡ Self.step (Self.value_of self.old) (Execute byte) };

    /// Receives a data byte of a device control string.
    fn put_byte(&mut self, byte: u8)
        ensures { Self.value_of self.new ≡ Self.step (Self.value_of self.old) (Put byte) };

    /// Receives characters to print, at least one.
    fn print_text(&mut self, text: &str)
        requires not_empty { 0 < length text.now }
        requires is_run_text { IsRunText layout text.now }
        ensures { Self.value_of self.new
            ≡ after Self.step (Self.value_of self.old) (map (run_event layout) (chars text.now)) };

    /// Receives data of a device control string, at least one byte.
    fn put_slice(&mut self, bytes: &[u8])
        requires not_empty { 0 < length bytes.now }
        ensures { Self.value_of self.new
            ≡ after Self.step (Self.value_of self.old) (map Put bytes.now) };
}

impl<P: Perform> ReceiveAs<ByCharacter> for P {
    ghost layout = { false };

    #[inline(always)]
    fn keeps_layout(&self) -> bool {
        false
    }

    #[inline(always)]
    fn print_char(&mut self, c: char) {
        Perform::print(self, c);
    }

    #[inline(always)]
    fn execute_control(&mut self, byte: u8) {
        Perform::execute(self, byte);
    }

    #[inline(always)]
    fn put_byte(&mut self, byte: u8) {
        Perform::put(self, byte);
    }

    // Never called: texts are reported only to performers that receive runs (`IN_RUNS`). A premise
    // that says so is refused, since no call could meet it.
    fn print_text(&mut self, text: &str) {
        for c in text.chars() {
            Perform::print(self, c);
        }
    }

    // Never called, for the same reason.
    fn put_slice(&mut self, bytes: &[u8]) {
        for byte in bytes {
            Perform::put(self, *byte);
        }
    }
}

impl<P: PerformText> ReceiveAs<InRuns> for P {
    ghost layout = { P.layout };

    #[inline(always)]
    fn keeps_layout(&self) -> bool {
        PerformText::keeps_layout(self)
    }

    #[inline(always)]
    fn print_char(&mut self, c: char) {
        PerformText::print_text(self, c.encode_utf8(&mut [0; 4]));
    }

    #[inline(always)]
    fn execute_control(&mut self, byte: u8) {
        if is_layout(byte) && PerformText::keeps_layout(self) {
            PerformText::print_text(self, char::from(byte).encode_utf8(&mut [0; 4]));
        } else {
            Perform::execute(self, byte);
        }
    }

    #[inline(always)]
    fn put_byte(&mut self, byte: u8) {
        PerformText::put_slice(self, &[byte]);
    }

    #[inline(always)]
    fn print_text(&mut self, text: &str) {
        PerformText::print_text(self, text);
    }

    #[inline(always)]
    fn put_slice(&mut self, bytes: &[u8]) {
        PerformText::put_slice(self, bytes);
    }
}
