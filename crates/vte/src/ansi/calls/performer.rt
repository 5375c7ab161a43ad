//! The performer that calls a handler.
ghost use Rattle.std.specs.Prelude.{false, map, ◌≡◌};
ghost use Rattle.std.specs.Str.{chars};
ghost use Rattle.vte.specs.Calls.{last_printed_from};
ghost use Rattle.vte.specs.private.JoinedTexts.{fits_text_capacity};
ghost use Rattle.vte.specs.private.PerformerValue.{performer_value, with_private_mode, with_private_modes};
ghost use Rattle.vte_core.specs.Event.{Print};
ghost use Rattle.vte_handler.specs.Timeout.{timeout_meaning};

use crate::ansi::calls::command::perform_system_command;
use crate::ansi::calls::control_sequence::{ModeChange, change_mode, perform_control_sequence};
use crate::ansi::calls::escape::{perform_escape, perform_execute};
use crate::ansi::calls::input::InputAs;
use crate::ansi::calls::numbers::first_number;
use crate::ansi::calls::text_buffer::TextBuffer;
use crate::ansi::updates::UPDATE_TIMEOUT_MILLIS;
use std::marker::PhantomData;
use std::time::Duration;
use vte_core::{InRuns, Params, Perform, PerformText, PerformThroughText};
use vte_handler::{Handler, HandlerText, Timeout};
use vte_types::NamedPrivateMode;

/// What a processor keeps between events.
#[derive(Clone, Drop)]
pub(crate) struct ProcessorState<T: Drop, B: Drop> {
    /// The last character that was printed, which REP repeats.
    pub(crate) last_printed: Option<char>,
    /// The buffer in which texts are joined from pieces of a command.
    pub(crate) text: B,
    /// Whether an update is pending, and until when.
    pub(crate) timeout: T,
}

/// Calls a handler for each event, while it borrows the handler and the processor's state.
#[derive(Drop)]
pub(crate) struct Performer<'s, 'h, H: Handler, T: Timeout + Drop, B: TextBuffer + Drop, G> {
    pub(crate) state: &'s mut ProcessorState<T, B>,
    pub(crate) handler: &'h mut H,
    /// Whether an update has begun, so that the next turn reads the bytes that follow.
    pub(crate) terminated: bool,
    pub(crate) granularity: PhantomData<G>,
}

impl<'s, 'h, H: InputAs<G>, T: Timeout + Drop, B: TextBuffer + Drop, G> Perform
    for Performer<'s, 'h, H, T, B, G> {
    ghost use Rattle.vte.specs.private.PerformerValue.{performer_with_event, PerformerValue};

    ghost Value = { PerformerValue H.Value T.Value };

    ghost value_of = { performer_value H.value_of T.value_of B.text_capacity };

    ghost step = { performer_with_event H.step (timeout_meaning T.set T.clear T.allows) };

    ghost is_terminated = { λ performer. performer.terminated };

    // cargo: #[inline]
    fn print(&mut self, c: char) {
        self.handler.input_char(c);
        self.state.last_printed = Some(c);
    }

    // cargo: #[inline]
    fn execute(&mut self, byte: u8) {
        perform_execute(self.handler, byte);
    }

    fn hook(&mut self, _params: &Params, _intermediates: &[u8], _ignore: bool, _action: char) {}

    fn put(&mut self, _byte: u8) {}

    fn unhook(&mut self) {}

    fn osc_dispatch(&mut self, params: &[&[u8]], bell_terminated: bool) {
        // The pieces always fit if a processor's parser reports them.
        if pieces_fit(params, self.state.text.capacity()) {
            perform_system_command(self.handler, &mut self.state.text, params, bell_terminated);
        }
    }

    // cargo: #[inline]
    fn csi_dispatch(&mut self, params: &Params, intermediates: &[u8], ignore: bool, action: char) {
        if ignore {
            return;
        }
        if action == 'h' && matches!(intermediates, [b'?']) {
            self.set_private_modes(params);
        } else {
            let last_printed = self.state.last_printed;
            perform_control_sequence::<H, G>(
                self.handler,
                last_printed,
                params,
                intermediates,
                action,
            );
        }
    }

    fn esc_dispatch(&mut self, intermediates: &[u8], _ignore: bool, byte: u8) {
        perform_escape(self.handler, intermediates, byte);
    }

    // cargo: #[inline]
    fn terminated(&self) -> bool {
        self.terminated
    }
}

impl<'s, 'h, H: HandlerText, T: Timeout + Drop, B: TextBuffer + Drop> PerformText
    for Performer<'s, 'h, H, T, B, InRuns> {
    ghost layout = { false };

    fn keeps_layout(&self) -> bool {
        false
    }

    #[inline(always)]
    #[tactic(auto, using(crate::proofs::lemmas::events::EventCalls::performed_run))]
    fn print_text(&mut self, text: &str) {
        self.handler.input_text(text);
        self.state.last_printed = find_last_printed(text, self.state.last_printed);
    }
}

// cargo lacks: only proofs use it
impl<'s, 'h, H: HandlerText, T: Timeout + Drop, B: TextBuffer + Drop> PerformThroughText
    for Performer<'s, 'h, H, T, B, InRuns> {
    ghost use Rattle.std.proofs.Common.{◌∙◌};
    ghost use Rattle.std.proofs.Math.Bool.{or-false};

    // A character begins no update.
    ghost no_stop = { λ performer c goes_on. or-false performer.terminated ∙ goes_on };
}

impl<'s, 'h, H: Handler, T: Timeout + Drop, B: TextBuffer + Drop, G> Performer<'s, 'h, H, T, B, G> {
    /// Sets the private modes, group by group.
    fn set_private_modes(&mut self, params: &Params)
        ensures { performer_value H.value_of T.value_of B.text_capacity self.new
            ≡ with_private_modes H.step (timeout_meaning T.set T.clear T.allows)
            (performer_value H.value_of T.value_of B.text_capacity self.old) params.now }
    {
        for group in params {
            self.set_private_mode(first_number(group));
        }
    }

    /// Sets a private mode. If it is the mode of updates, the timeout is set before the call.
    fn set_private_mode(&mut self, number: u16)
        ensures { performer_value H.value_of T.value_of B.text_capacity self.new
            ≡ with_private_mode H.step (timeout_meaning T.set T.clear T.allows)
            (performer_value H.value_of T.value_of B.text_capacity self.old) number }
    {
        if number == NamedPrivateMode::SyncUpdate as u16 {
            self.state
                .timeout
                .set_timeout(Duration::from_millis(UPDATE_TIMEOUT_MILLIS));
            self.terminated = true;
        }
        change_mode(self.handler, ModeChange::SetPrivate, number);
    }
}

/// Returns the last character of a text, or `before` if the text is empty.
#[tactic(auto, using(crate::proofs::lemmas::events::EventCalls::last_of_text))]
// cargo: #[inline(always)]
fn find_last_printed(text: &str, before: Option<char>) -> Option<char>
    ensures { result ≡ last_printed_from before (map Print (chars text.now)) }
{
    text.chars().next_back().or(before)
}

/// Returns whether the joined pieces fit a buffer of this size.
fn pieces_fit(pieces: &[&[u8]], size: usize) -> bool
    ensures { result ≡ fits_text_capacity size (map (λ piece. piece.now) pieces.now) }
{
    let mut left = size;
    for piece in pieces {
        if piece.len() >= left {
            return false;
        }
        left -= piece.len() + 1;
    }
    true
}
