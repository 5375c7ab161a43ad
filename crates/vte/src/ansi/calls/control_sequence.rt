//! The calls of control sequences.
ghost use Rattle.std.specs.Prelude.{unwrap_or, [], ◌∷◌, ◌≡◌, ◌≢◌};
ghost use Rattle.vte.specs.ControlSequenceCalls.{change_call, change_calls, control_sequence_calls, repeat_calls, scp_calls, table_without_intermediates, window_operation_table};
ghost use Rattle.vte.specs.Numbers.{first_numbers};
ghost use Rattle.vte.specs.OptionalCalls.{call_some};
ghost use Rattle.vte.specs.SelectedValues.{clear_line_table, clear_screen_table, clear_tabs_table, cursor_style_table, modify_other_keys_table};
ghost use Rattle.vte_handler.specs.Call as call;
ghost use Rattle.vte_handler.specs.Handler.{after};
ghost use Rattle.vte_types.specs.Words.{entry_of};

use crate::ansi::calls::input::InputAs;
use crate::ansi::calls::numbers::{NumberIterator, first_number};
use crate::ansi::calls::rendition::perform_attributes;
use crate::ansi::calls::values::{
    read_character_path, read_keyboard_behavior, read_keyboard_modes, read_scp_update_mode,
    read_scrolling_bottom,
};
use vte_core::Params;
use vte_handler::Handler;
use vte_types::{
    ClearMode, CursorShape, CursorStyle, LineClearMode, Mode, ModifyOtherKeys, PrivateMode,
    TabulationClearMode,
};

/// Makes the calls of a control sequence, other than `ESC [ ? .. h`, which may begin an update.
// cargo: #[inline]
// Clippy asks for guards in place of an `if` in an arm. A guard that fails would still have taken a
// number, which the arms below then miss.
#[allow(clippy::collapsible_match)]
pub(crate) fn perform_control_sequence<H: InputAs<G>, G>(
    handler: &mut H,
    last_printed: Option<char>,
    params: &Params,
    intermediates: &[u8],
    action: char,
)
    requires sets_no_private_mode { intermediates.now ≡ 0x3f ∷ [] → action ≢ 0x68 }
    ensures { H.value_of handler.new ≡ after H.step (H.value_of handler.old)
        (control_sequence_calls last_printed params.now intermediates.now action) }
{
    let mut numbers = params.iter();
    match (intermediates, action) {
        (_, 'c') => {
            if numbers.next_or(0) == 0 {
                handler.identify_terminal(intermediates.first().map(|byte| char::from(*byte)));
            }
        }
        ([], _) => perform_without_intermediates::<H, G>(handler, last_printed, params, action),
        ([b'?'], 'W') => {
            if numbers.next_or(0) == 5 {
                handler.set_tabs(8);
            }
        }
        ([b'?'], 'l') => change_modes(handler, params, ModeChange::ResetPrivate),
        ([b'?'], 'm') => {
            if matches!(numbers.next(), Some([4])) {
                handler.report_modify_other_keys();
            }
        }
        ([b'?'], 'u') => handler.report_keyboard_mode(),
        ([b'>'], 'm') => {
            if numbers.next_or(1) == 4 {
                set_modify_other_keys(handler, numbers.next_or(0));
            }
        }
        ([b'>'], 'u') => handler.push_keyboard_mode(read_keyboard_modes(numbers.next_or(0))),
        ([b'='], 'u') => {
            let modes = read_keyboard_modes(numbers.next_or(0));
            handler.set_keyboard_mode(modes, read_keyboard_behavior(numbers.next_or(1)));
        }
        ([b'<'], 'u') => handler.pop_keyboard_modes(numbers.next_or(1)),
        ([b' '], 'k') => set_character_path(handler, numbers.next_or(0), numbers.next_or(0)),
        ([b' '], 'q') => set_cursor_style(handler, numbers.next_or(0)),
        ([b'$'], 'p') => handler.report_mode(Mode::new(numbers.next_or(0))),
        ([b'?', b'$'], 'p') => handler.report_private_mode(PrivateMode::new(numbers.next_or(0))),
        _ => {}
    }
}

/// Makes the calls of a control sequence without intermediates, except those of DA.
#[tactic(auto, unfolding(crate::specs::ControlSequenceCalls::table_without_intermediates))]
// cargo: #[inline]
fn perform_without_intermediates<H: InputAs<G>, G>(
    handler: &mut H,
    last_printed: Option<char>,
    params: &Params,
    action: char,
)
    ensures { H.value_of handler.new ≡ after H.step (H.value_of handler.old)
        (unwrap_or (entry_of (table_without_intermediates last_printed params.now) action)
        []) }
{
    let mut numbers = params.iter();
    match action {
        '@' => handler.insert_blank(numbers.next_count()),
        'A' => handler.move_up(numbers.next_count()),
        'B' | 'e' => handler.move_down(numbers.next_count()),
        'C' | 'a' => handler.move_forward(numbers.next_count()),
        'D' => handler.move_backward(numbers.next_count()),
        'E' => handler.move_down_and_cr(numbers.next_count()),
        'F' => handler.move_up_and_cr(numbers.next_count()),
        'G' | '`' => handler.goto_col(numbers.next_count() - 1),
        'H' | 'f' => {
            let line = i32::from(numbers.next_or(1)) - 1;
            let column = numbers.next_count() - 1;
            handler.goto(line, column);
        }
        'I' => handler.move_forward_tabs(numbers.next_or(1)),
        'J' => clear_screen(handler, numbers.next_or(0)),
        'K' => clear_line(handler, numbers.next_or(0)),
        'L' => handler.insert_blank_lines(numbers.next_count()),
        'M' => handler.delete_lines(numbers.next_count()),
        'P' => handler.delete_chars(numbers.next_count()),
        'S' => handler.scroll_up(numbers.next_count()),
        'T' => handler.scroll_down(numbers.next_count()),
        'X' => handler.erase_chars(numbers.next_count()),
        'Z' => handler.move_backward_tabs(numbers.next_or(1)),
        'b' => repeat::<H, G>(handler, last_printed, numbers.next_or(1)),
        'd' => handler.goto_line(i32::from(numbers.next_or(1)) - 1),
        'g' => clear_tabs(handler, numbers.next_or(0)),
        'h' => change_modes(handler, params, ModeChange::Set),
        'l' => change_modes(handler, params, ModeChange::Reset),
        'm' => perform_attributes(handler, params),
        'n' => handler.device_status(usize::from(numbers.next_or(0))),
        'r' => {
            let top = numbers.next_count();
            handler.set_scrolling_region(top, read_scrolling_bottom(numbers.next_or(0)));
        }
        's' => handler.save_cursor_position(),
        't' => operate_window(handler, numbers.next_or(1)),
        'u' => handler.restore_cursor_position(),
        _ => {}
    }
}

/// Passes on the last printed character `count` times, if there is one.
#[tactic(auto, using(crate::proofs::lemmas::calls::Loops::one_less))]
fn repeat<H: InputAs<G>, G>(handler: &mut H, last_printed: Option<char>, count: u16)
    ensures { H.value_of handler.new ≡ after H.step (H.value_of handler.old)
        (repeat_calls last_printed count) }
{
    if let Some(c) = last_printed {
        for _ in 0..count {
            handler.input_char(c);
        }
    }
}

/// Makes the call of a window operation (XTWINOPS), by its number.
fn operate_window<H: Handler>(handler: &mut H, number: u16)
    ensures { H.value_of handler.new ≡ after H.step (H.value_of handler.old)
        (unwrap_or (entry_of window_operation_table number) []) }
{
    match number {
        14 => handler.text_area_size_pixels(),
        18 => handler.text_area_size_chars(),
        22 => handler.push_title(),
        23 => handler.pop_title(),
        _ => {}
    }
}

/// Clears the tab stops that TBC selects.
fn clear_tabs<H: Handler>(handler: &mut H, number: u16)
    ensures { H.value_of handler.new ≡ after H.step (H.value_of handler.old)
        (call_some (λ x. call.ClearTabs x) (entry_of clear_tabs_table number)) }
{
    match number {
        0 => handler.clear_tabs(TabulationClearMode::Current),
        3 => handler.clear_tabs(TabulationClearMode::All),
        _ => {}
    }
}

/// Clears the part of the screen that ED selects.
fn clear_screen<H: Handler>(handler: &mut H, number: u16)
    ensures { H.value_of handler.new ≡ after H.step (H.value_of handler.old)
        (call_some (λ x. call.ClearScreen x) (entry_of clear_screen_table number)) }
{
    match number {
        0 => handler.clear_screen(ClearMode::Below),
        1 => handler.clear_screen(ClearMode::Above),
        2 => handler.clear_screen(ClearMode::All),
        3 => handler.clear_screen(ClearMode::Saved),
        _ => {}
    }
}

/// Clears the part of the line that EL selects.
fn clear_line<H: Handler>(handler: &mut H, number: u16)
    ensures { H.value_of handler.new ≡ after H.step (H.value_of handler.old)
        (call_some (λ x. call.ClearLine x) (entry_of clear_line_table number)) }
{
    match number {
        0 => handler.clear_line(LineClearMode::Right),
        1 => handler.clear_line(LineClearMode::Left),
        2 => handler.clear_line(LineClearMode::All),
        _ => {}
    }
}

/// Sets how modified keys are sent.
fn set_modify_other_keys<H: Handler>(handler: &mut H, number: u16)
    ensures { H.value_of handler.new ≡ after H.step (H.value_of handler.old)
        (call_some (λ x. call.SetModifyOtherKeys x) (entry_of modify_other_keys_table number)) }
{
    match number {
        0 => handler.set_modify_other_keys(ModifyOtherKeys::Reset),
        1 => handler.set_modify_other_keys(ModifyOtherKeys::EnableExceptWellDefined),
        2 => handler.set_modify_other_keys(ModifyOtherKeys::EnableAll),
        _ => {}
    }
}

/// Sets the character path, and how the display follows it, if SCP selects both.
fn set_character_path<H: Handler>(handler: &mut H, path: u16, update: u16)
    ensures { H.value_of handler.new ≡ after H.step (H.value_of handler.old)
        (scp_calls path update) }
{
    let path = read_character_path(path);
    let update = read_scp_update_mode(update);
    if let (Some(path), Some(update)) = (path, update) {
        handler.set_scp(path, update);
    }
}

/// Sets the cursor style of DECSCUSR. `None` is the terminal's own style.
fn set_cursor_style<H: Handler>(handler: &mut H, number: u16)
    ensures { H.value_of handler.new ≡ after H.step (H.value_of handler.old)
        (call_some (λ x. call.SetCursorStyle x) (entry_of cursor_style_table number)) }
{
    let shape = match number {
        0 => return handler.set_cursor_style(None),
        1 | 2 => CursorShape::Block,
        3 | 4 => CursorShape::Underline,
        5 | 6 => CursorShape::Beam,
        _ => return,
    };
    let blinking = number % 2 == 1;
    handler.set_cursor_style(Some(CursorStyle { shape, blinking }));
}

/// What happens to modes.
#[derive(Clone, Copy)]
pub(crate) enum ModeChange {
    /// SM
    Set,
    /// RM
    Reset,
    /// DECSET
    SetPrivate,
    /// DECRST
    ResetPrivate,
}

/// Changes the modes that the first numbers of the groups name.
fn change_modes<H: Handler>(handler: &mut H, params: &Params, change: ModeChange)
    ensures { H.value_of handler.new ≡ after H.step (H.value_of handler.old)
        (change_calls change (first_numbers params.now)) }
{
    for group in params {
        change_mode(handler, change, first_number(group));
    }
}

/// Changes one mode.
pub(crate) fn change_mode<H: Handler>(handler: &mut H, change: ModeChange, number: u16)
    ensures { H.value_of handler.new
        ≡ H.step (H.value_of handler.old) (change_call change number) }
{
    match change {
        ModeChange::Set => handler.set_mode(Mode::new(number)),
        ModeChange::Reset => handler.unset_mode(Mode::new(number)),
        ModeChange::SetPrivate => handler.set_private_mode(PrivateMode::new(number)),
        ModeChange::ResetPrivate => handler.unset_private_mode(PrivateMode::new(number)),
    }
}
