//! The events of a stream, and what receives them.
ghost use Rattle.std.specs.Prelude.{Bool, chars, length, map, ◌<◌, ◌≡◌};
ghost use Rattle.vte_core.specs.EarlyStop.{NoCharacterStops};
ghost use Rattle.vte_core.specs.Event.{after, CsiDispatch, EscDispatch, Event, Execute, Hook, OscDispatch, Print, Put, Unhook};
ghost use Rattle.vte_core.specs.RunText.{IsRunText, run_event};

use crate::params::Params;

// cargo defaults: a performer implements what it needs
/// Receives the events of a stream, one call for each, in order.
///
/// The slices are borrowed for the call only.
#[allow(unused_variables)]
// cargo: #[doc = include_str!("../../docs/perform.md")]
pub trait Perform {
    /// What a performer stands for.
    ghost Value: { Type 0 };

    /// The value of a performer as it is now.
    ghost value_of: { Self → Value };

    /// What one event makes of a value.
    ghost step: { Value → Event → Value };

    /// For which values `advance_until_terminated` stops.
    ghost is_terminated: { Value → Bool };

    /// Called for a character to print, which is never a control: neither U+0000 to U+001F nor
    /// U+0080 to U+009F.
    fn print(&mut self, c: char)
        ensures { value_of self.new ≡ step (value_of self.old) (Print c) };

    /// Called for a control function of one byte, 00 to 1F or 80 to 9F.
    fn execute(&mut self, byte: u8)
        ensures { value_of self.new ≡ step (value_of self.old) (Execute byte) };

    /// Called when a device control string starts, with the final byte `action` of its head.
    ///
    /// There are at most two intermediates, a private marker `<` to `?` among them. `ignore` says
    /// that there were more, or more than 32 numbers.
    fn hook(&mut self, params: &Params, intermediates: &[u8], ignore: bool, action: char)
        ensures { value_of self.new
            ≡ step (value_of self.old) (Hook params.now intermediates.now ignore action) };

    /// Called for a data byte of the device control string.
    fn put(&mut self, byte: u8)
        ensures { value_of self.new ≡ step (value_of self.old) (Put byte) };

    /// Called when the device control string ends.
    fn unhook(&mut self)
        ensures { value_of self.new ≡ step (value_of self.old) Unhook };

    /// Called when an operating system command ends, with its 1 to 16 pieces, and whether BEL ended
    /// it.
    ///
    /// A cancelled command looks the same as one that `ESC \` ended. The next event shows which it
    /// was: [`execute`](Self::execute) of CAN (18) or SUB (1A) if one of these cancelled it, and
    /// [`esc_dispatch`](Self::esc_dispatch) with the byte `\` if it ended. What follows the 16th
    /// piece, and what is over the parser's limit, is dropped without an event: a link (OSC 8) is
    /// cut at the 14th `;` of its URI. `command_lost_data` of the parser says whether data were
    /// dropped.
    fn osc_dispatch(&mut self, params: &[&[u8]], bell_terminated: bool)
        ensures { value_of self.new
            ≡ step (value_of self.old)
            (OscDispatch (map (λ piece. piece.now) params.now) bell_terminated) };

    /// Called for a control sequence with the final byte `action`. `intermediates` and `ignore` are
    /// as in [`hook`](Self::hook).
    fn csi_dispatch(&mut self, params: &Params, intermediates: &[u8], ignore: bool, action: char)
        ensures { value_of self.new
            ≡ step (value_of self.old) (CsiDispatch params.now intermediates.now ignore action) };

    /// Called for an escape sequence with the final byte `byte`. There are at most two
    /// intermediates; `ignore` says that there were more.
    fn esc_dispatch(&mut self, intermediates: &[u8], ignore: bool, byte: u8)
        ensures { value_of self.new
            ≡ step (value_of self.old) (EscDispatch intermediates.now ignore byte) };

    /// Returns whether `advance_until_terminated` stops. It is asked after events, and not before
    /// each byte: the answer should depend on the events alone, and on no clock or flag that
    /// changes between them.
    fn terminated(&self) -> bool
        ensures { result ≡ is_terminated (value_of self.now) };
}

/// Receives text in runs, from methods whose names begin with `advance_text`: there
/// [`print`](Perform::print) and [`put`](Perform::put) aren't called.
///
/// All others, such as `advance` and `advance_to_run`, pass text by `print`, and never by
/// `print_text`. A performer that leaves `print` empty loses their text, so implement both.
///
/// How text and data are cut into runs may change from version to version.
// cargo: #[doc = include_str!("../../docs/perform_text.md")]
pub trait PerformText: Perform {
    /// Whether runs may hold HT, LF and CR.
    ghost layout: { Bool };

    /// Returns whether HT (09), LF (0A) and CR (0D) come by `print_text` instead of
    /// [`execute`](Perform::execute), always the same answer. A filter, which keeps these three as
    /// they are, is faster with longer runs.
    // cargo defaults: few say yes
    fn keeps_layout(&self) -> bool
        ensures { result ≡ layout };

    /// Called for characters to print, at least one, in order. None is a control, except HT, LF and
    /// CR if the performer [keeps](Self::keeps_layout) these.
    fn print_text(&mut self, text: &str)
        requires not_empty { 0 < length text.now }
        requires is_run_text { IsRunText layout text.now }
        ensures { Self.value_of self.new
            ≡ after Self.step (Self.value_of self.old) (map (run_event layout) (chars text.now)) };

    /// Called for data bytes of the device control string, at least one, in order. By default each
    /// comes by [`put`](Perform::put).
    ///
    /// ```
    /// # use vte::{Parser, Perform, PerformText};
    /// # #[derive(Default)]
    /// # struct Image { data: Vec<u8> }
    /// # impl Perform for Image {}
    /// impl PerformText for Image {
    ///     fn print_text(&mut self, _text: &str) {}
    ///
    ///     fn put_slice(&mut self, bytes: &[u8]) {
    ///         self.data.extend_from_slice(bytes);
    ///     }
    /// }
    /// # let mut image = Image::default();
    /// # Parser::new().advance_text(&mut image, b"\x1bPq#0~~\x1b\\");
    /// # assert_eq!(image.data, b"#0~~");
    /// ```
    fn put_slice(&mut self, bytes: &[u8])
        requires not_empty { 0 < length bytes.now }
        ensures { Self.value_of self.new
            ≡ after Self.step (Self.value_of self.old) (map Put bytes.now) }
    {
        for byte in bytes {
            self.put(*byte);
        }
    }
}

/// A performer that isn't terminated by any character of a run, so it needn't be asked inside one.
// cargo lacks: only proofs use it
pub trait PerformThroughText: PerformText {
    /// The proof that no character of a run terminates it.
    ghost no_stop: { NoCharacterStops Self.layout Self.step Self.is_terminated };
}
