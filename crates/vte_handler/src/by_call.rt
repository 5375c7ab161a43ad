//! Handlers that take each call as a value, by one `match`.
ghost use Rattle.std.specs.Prelude.{length, map, ◌<◌, ◌≡◌};
ghost use Rattle.std.specs.Str.{chars};
ghost use Rattle.vte_handler.specs.Call.{Call};
ghost use Rattle.vte_handler.specs.Call as call;
ghost use Rattle.vte_handler.specs.Handler.{after, AreShown};
ghost use Rattle.vte_handler.specs.HandlerCall.{call_of};

use crate::handler::{Handler, HandlerText};
use crate::hyperlink::Hyperlink;
use vte_types::cursor_icon::CursorIcon;
use vte_types::{
    Attr, CharsetIndex, ClearMode, CursorShape, CursorStyle, KeyboardModes,
    KeyboardModesApplyBehavior, LineClearMode, Mode, ModifyOtherKeys, PrivateMode, Rgb,
    ScpCharPath, ScpUpdateMode, StandardCharset, TabulationClearMode,
};

/// A call of a [`Handler`], as a value. Each variant has the name and the arguments of its method.
#[derive(Drop)]
// cargo: #[derive(Debug)]
pub enum HandlerCall<'a> {
    // ---- Characters and format effectors

    /// [`Handler::input`]
    Input(char),
    /// [`Handler::bell`]
    Bell,
    /// [`Handler::backspace`]
    Backspace,
    /// [`Handler::put_tab`]
    PutTab(u16),
    /// [`Handler::linefeed`]
    Linefeed,
    /// [`Handler::carriage_return`]
    CarriageReturn,
    /// [`Handler::newline`]
    Newline,
    /// [`Handler::substitute`]
    Substitute,

    // ---- Cursor position

    /// [`Handler::goto`]
    Goto(i32, usize),
    /// [`Handler::goto_line`]
    GotoLine(i32),
    /// [`Handler::goto_col`]
    GotoCol(usize),
    /// [`Handler::move_up`]
    MoveUp(usize),
    /// [`Handler::move_down`]
    MoveDown(usize),
    /// [`Handler::move_forward`]
    MoveForward(usize),
    /// [`Handler::move_backward`]
    MoveBackward(usize),
    /// [`Handler::move_down_and_cr`]
    MoveDownAndCr(usize),
    /// [`Handler::move_up_and_cr`]
    MoveUpAndCr(usize),
    /// [`Handler::save_cursor_position`]
    SaveCursorPosition,
    /// [`Handler::restore_cursor_position`]
    RestoreCursorPosition,

    // ---- Scrolling

    /// [`Handler::reverse_index`]
    ReverseIndex,
    /// [`Handler::scroll_up`]
    ScrollUp(usize),
    /// [`Handler::scroll_down`]
    ScrollDown(usize),
    /// [`Handler::set_scrolling_region`]
    SetScrollingRegion(usize, Option<usize>),

    // ---- Tab stops

    /// [`Handler::set_horizontal_tabstop`]
    SetHorizontalTabstop,
    /// [`Handler::clear_tabs`]
    ClearTabs(TabulationClearMode),
    /// [`Handler::set_tabs`]
    SetTabs(u16),
    /// [`Handler::move_forward_tabs`]
    MoveForwardTabs(u16),
    /// [`Handler::move_backward_tabs`]
    MoveBackwardTabs(u16),

    // ---- Editing

    /// [`Handler::insert_blank`]
    InsertBlank(usize),
    /// [`Handler::insert_blank_lines`]
    InsertBlankLines(usize),
    /// [`Handler::delete_chars`]
    DeleteChars(usize),
    /// [`Handler::delete_lines`]
    DeleteLines(usize),
    /// [`Handler::erase_chars`]
    EraseChars(usize),
    /// [`Handler::clear_line`]
    ClearLine(LineClearMode),
    /// [`Handler::clear_screen`]
    ClearScreen(ClearMode),
    /// [`Handler::decaln`]
    Decaln,

    // ---- Appearance

    /// [`Handler::terminal_attribute`]
    TerminalAttribute(Attr),
    /// [`Handler::set_color`]
    SetColor(usize, Rgb),
    /// [`Handler::reset_color`]
    ResetColor(usize),
    /// [`Handler::dynamic_color_sequence`]
    DynamicColorSequence(&'a str, usize, &'a str),
    /// [`Handler::set_hyperlink`]
    SetHyperlink(Option<Hyperlink<'a>>),
    /// [`Handler::set_cursor_style`]
    SetCursorStyle(Option<CursorStyle>),
    /// [`Handler::set_cursor_shape`]
    SetCursorShape(CursorShape),
    /// [`Handler::set_mouse_cursor_icon`]
    SetMouseCursorIcon(CursorIcon),

    // ---- Character sets and the direction of text

    /// [`Handler::set_active_charset`]
    SetActiveCharset(CharsetIndex),
    /// [`Handler::configure_charset`]
    ConfigureCharset(CharsetIndex, StandardCharset),
    /// [`Handler::set_scp`]
    SetScp(ScpCharPath, ScpUpdateMode),

    // ---- Modes

    /// [`Handler::set_mode`]
    SetMode(Mode),
    /// [`Handler::unset_mode`]
    UnsetMode(Mode),
    /// [`Handler::report_mode`]
    ReportMode(Mode),
    /// [`Handler::set_private_mode`]
    SetPrivateMode(PrivateMode),
    /// [`Handler::unset_private_mode`]
    UnsetPrivateMode(PrivateMode),
    /// [`Handler::report_private_mode`]
    ReportPrivateMode(PrivateMode),
    /// [`Handler::reset_state`]
    ResetState,

    // ---- Keyboard

    /// [`Handler::set_keypad_application_mode`]
    SetKeypadApplicationMode,
    /// [`Handler::unset_keypad_application_mode`]
    UnsetKeypadApplicationMode,
    /// [`Handler::push_keyboard_mode`]
    PushKeyboardMode(KeyboardModes),
    /// [`Handler::pop_keyboard_modes`]
    PopKeyboardModes(u16),
    /// [`Handler::set_keyboard_mode`]
    SetKeyboardMode(KeyboardModes, KeyboardModesApplyBehavior),
    /// [`Handler::report_keyboard_mode`]
    ReportKeyboardMode,
    /// [`Handler::set_modify_other_keys`]
    SetModifyOtherKeys(ModifyOtherKeys),
    /// [`Handler::report_modify_other_keys`]
    ReportModifyOtherKeys,

    // ---- Titles, clipboards and reports

    /// [`Handler::set_title`]
    SetTitle(Option<&'a str>),
    /// [`Handler::push_title`]
    PushTitle,
    /// [`Handler::pop_title`]
    PopTitle,
    /// [`Handler::clipboard_store`]
    ClipboardStore(u8, &'a [u8]),
    /// [`Handler::clipboard_load`]
    ClipboardLoad(u8, &'a str),
    /// [`Handler::device_status`]
    DeviceStatus(usize),
    /// [`Handler::identify_terminal`]
    IdentifyTerminal(Option<char>),
    /// [`Handler::text_area_size_pixels`]
    TextAreaSizePixels,
    /// [`Handler::text_area_size_chars`]
    TextAreaSizeChars,
}

/// Takes the calls of a handler as values.
///
/// ```rattle
/// impl TakeCall for Page {
///     fn take(&mut self, call: HandlerCall<'_>) {
///         match call {
///             HandlerCall::Input(c) => self.show(c),
///             HandlerCall::Linefeed => self.next_line(),
///             _ => {}
///         }
///     }
/// }
///
/// let mut handler = ByCall(page);
/// processor.advance(&mut handler, b"text\n");
/// ```
pub trait TakeCall {
    // The ghost members are those of a `Handler`.
    ghost Value: { Type 0 };

    ghost value_of: { Self → Value };

    ghost step: { Value → Call → Value };

    /// Takes one call.
    fn take(&mut self, call: HandlerCall<'_>)
        ensures { value_of self.new ≡ step (value_of self.old) (call_of call.entry) };
}

/// Takes characters to show in runs, and the other calls of a handler as values.
pub trait TakeText: TakeCall {
    /// Takes characters to show, one after another: the same as [`HandlerCall::Input`] for each.
    /// The text is never empty and has no control: neither U+0000..U+001F nor U+0080..U+009F.
    fn take_text(&mut self, text: &str)
        requires not_empty { 0 < length text.now }
        requires shown { AreShown text.now }
        ensures { Self.value_of self.new
            ≡ after Self.step (Self.value_of self.old) (map call.Input (chars text.now)) }
    {
        for c in text.chars() {
            self.take(HandlerCall::Input(c));
        }
    }
}

/// A [`Handler`] that passes each call on as a value. It takes text in runs if the inner value is
/// [`TakeText`].
#[derive(Drop)]
// cargo: #[derive(Debug)]
pub struct ByCall<T: Drop>(pub T);

impl<T: TakeCall + Drop> Handler for ByCall<T> {
    ghost Value = { T.Value };

    ghost value_of = { λ handler. T.value_of handler.0 };

    ghost step = { T.step };

    // ---- Characters and format effectors

    #[inline]
    fn input(&mut self, c: char) {
        self.0.take(HandlerCall::Input(c));
    }

    fn bell(&mut self) {
        self.0.take(HandlerCall::Bell);
    }

    fn backspace(&mut self) {
        self.0.take(HandlerCall::Backspace);
    }

    fn put_tab(&mut self, count: u16) {
        self.0.take(HandlerCall::PutTab(count));
    }

    #[inline]
    fn linefeed(&mut self) {
        self.0.take(HandlerCall::Linefeed);
    }

    #[inline]
    fn carriage_return(&mut self) {
        self.0.take(HandlerCall::CarriageReturn);
    }

    fn newline(&mut self) {
        self.0.take(HandlerCall::Newline);
    }

    fn substitute(&mut self) {
        self.0.take(HandlerCall::Substitute);
    }

    // ---- Cursor position

    #[inline]
    fn goto(&mut self, line: i32, column: usize) {
        self.0.take(HandlerCall::Goto(line, column));
    }

    fn goto_line(&mut self, line: i32) {
        self.0.take(HandlerCall::GotoLine(line));
    }

    fn goto_col(&mut self, column: usize) {
        self.0.take(HandlerCall::GotoCol(column));
    }

    fn move_up(&mut self, count: usize) {
        self.0.take(HandlerCall::MoveUp(count));
    }

    fn move_down(&mut self, count: usize) {
        self.0.take(HandlerCall::MoveDown(count));
    }

    fn move_forward(&mut self, count: usize) {
        self.0.take(HandlerCall::MoveForward(count));
    }

    fn move_backward(&mut self, count: usize) {
        self.0.take(HandlerCall::MoveBackward(count));
    }

    fn move_down_and_cr(&mut self, count: usize) {
        self.0.take(HandlerCall::MoveDownAndCr(count));
    }

    fn move_up_and_cr(&mut self, count: usize) {
        self.0.take(HandlerCall::MoveUpAndCr(count));
    }

    fn save_cursor_position(&mut self) {
        self.0.take(HandlerCall::SaveCursorPosition);
    }

    fn restore_cursor_position(&mut self) {
        self.0.take(HandlerCall::RestoreCursorPosition);
    }

    // ---- Scrolling

    fn reverse_index(&mut self) {
        self.0.take(HandlerCall::ReverseIndex);
    }

    fn scroll_up(&mut self, count: usize) {
        self.0.take(HandlerCall::ScrollUp(count));
    }

    fn scroll_down(&mut self, count: usize) {
        self.0.take(HandlerCall::ScrollDown(count));
    }

    fn set_scrolling_region(&mut self, top: usize, bottom: Option<usize>) {
        self.0.take(HandlerCall::SetScrollingRegion(top, bottom));
    }

    // ---- Tab stops

    fn set_horizontal_tabstop(&mut self) {
        self.0.take(HandlerCall::SetHorizontalTabstop);
    }

    fn clear_tabs(&mut self, which: TabulationClearMode) {
        self.0.take(HandlerCall::ClearTabs(which));
    }

    fn set_tabs(&mut self, interval: u16) {
        self.0.take(HandlerCall::SetTabs(interval));
    }

    fn move_forward_tabs(&mut self, count: u16) {
        self.0.take(HandlerCall::MoveForwardTabs(count));
    }

    fn move_backward_tabs(&mut self, count: u16) {
        self.0.take(HandlerCall::MoveBackwardTabs(count));
    }

    // ---- Editing

    fn insert_blank(&mut self, count: usize) {
        self.0.take(HandlerCall::InsertBlank(count));
    }

    fn insert_blank_lines(&mut self, count: usize) {
        self.0.take(HandlerCall::InsertBlankLines(count));
    }

    fn delete_chars(&mut self, count: usize) {
        self.0.take(HandlerCall::DeleteChars(count));
    }

    fn delete_lines(&mut self, count: usize) {
        self.0.take(HandlerCall::DeleteLines(count));
    }

    fn erase_chars(&mut self, count: usize) {
        self.0.take(HandlerCall::EraseChars(count));
    }

    fn clear_line(&mut self, part: LineClearMode) {
        self.0.take(HandlerCall::ClearLine(part));
    }

    fn clear_screen(&mut self, part: ClearMode) {
        self.0.take(HandlerCall::ClearScreen(part));
    }

    fn decaln(&mut self) {
        self.0.take(HandlerCall::Decaln);
    }

    // ---- Appearance

    // cargo instead: #[inline]
    #[inline(always)]
    fn terminal_attribute(&mut self, attribute: Attr) {
        self.0.take(HandlerCall::TerminalAttribute(attribute));
    }

    fn set_color(&mut self, index: usize, color: Rgb) {
        self.0.take(HandlerCall::SetColor(index, color));
    }

    fn reset_color(&mut self, index: usize) {
        self.0.take(HandlerCall::ResetColor(index));
    }

    fn dynamic_color_sequence(&mut self, prefix: &str, index: usize, terminator: &str) {
        self.0.take(HandlerCall::DynamicColorSequence(prefix, index, terminator));
    }

    fn set_hyperlink(&mut self, link: Option<Hyperlink<'_>>) {
        self.0.take(HandlerCall::SetHyperlink(link));
    }

    fn set_cursor_style(&mut self, style: Option<CursorStyle>) {
        self.0.take(HandlerCall::SetCursorStyle(style));
    }

    fn set_cursor_shape(&mut self, shape: CursorShape) {
        self.0.take(HandlerCall::SetCursorShape(shape));
    }

    fn set_mouse_cursor_icon(&mut self, icon: CursorIcon) {
        self.0.take(HandlerCall::SetMouseCursorIcon(icon));
    }

    // ---- Character sets and the direction of text

    fn set_active_charset(&mut self, index: CharsetIndex) {
        self.0.take(HandlerCall::SetActiveCharset(index));
    }

    fn configure_charset(&mut self, index: CharsetIndex, charset: StandardCharset) {
        self.0.take(HandlerCall::ConfigureCharset(index, charset));
    }

    fn set_scp(&mut self, path: ScpCharPath, update: ScpUpdateMode) {
        self.0.take(HandlerCall::SetScp(path, update));
    }

    // ---- Modes

    fn set_mode(&mut self, mode: Mode) {
        self.0.take(HandlerCall::SetMode(mode));
    }

    fn unset_mode(&mut self, mode: Mode) {
        self.0.take(HandlerCall::UnsetMode(mode));
    }

    fn report_mode(&mut self, mode: Mode) {
        self.0.take(HandlerCall::ReportMode(mode));
    }

    fn set_private_mode(&mut self, mode: PrivateMode) {
        self.0.take(HandlerCall::SetPrivateMode(mode));
    }

    fn unset_private_mode(&mut self, mode: PrivateMode) {
        self.0.take(HandlerCall::UnsetPrivateMode(mode));
    }

    fn report_private_mode(&mut self, mode: PrivateMode) {
        self.0.take(HandlerCall::ReportPrivateMode(mode));
    }

    fn reset_state(&mut self) {
        self.0.take(HandlerCall::ResetState);
    }

    // ---- Keyboard

    fn set_keypad_application_mode(&mut self) {
        self.0.take(HandlerCall::SetKeypadApplicationMode);
    }

    fn unset_keypad_application_mode(&mut self) {
        self.0.take(HandlerCall::UnsetKeypadApplicationMode);
    }

    fn push_keyboard_mode(&mut self, mode: KeyboardModes) {
        self.0.take(HandlerCall::PushKeyboardMode(mode));
    }

    fn pop_keyboard_modes(&mut self, count: u16) {
        self.0.take(HandlerCall::PopKeyboardModes(count));
    }

    fn set_keyboard_mode(&mut self, mode: KeyboardModes, behavior: KeyboardModesApplyBehavior) {
        self.0.take(HandlerCall::SetKeyboardMode(mode, behavior));
    }

    fn report_keyboard_mode(&mut self) {
        self.0.take(HandlerCall::ReportKeyboardMode);
    }

    fn set_modify_other_keys(&mut self, keys: ModifyOtherKeys) {
        self.0.take(HandlerCall::SetModifyOtherKeys(keys));
    }

    fn report_modify_other_keys(&mut self) {
        self.0.take(HandlerCall::ReportModifyOtherKeys);
    }

    // ---- Titles, clipboards and reports

    fn set_title(&mut self, title: Option<&str>) {
        self.0.take(HandlerCall::SetTitle(title));
    }

    fn push_title(&mut self) {
        self.0.take(HandlerCall::PushTitle);
    }

    fn pop_title(&mut self) {
        self.0.take(HandlerCall::PopTitle);
    }

    fn clipboard_store(&mut self, clipboard: u8, bytes: &[u8]) {
        self.0.take(HandlerCall::ClipboardStore(clipboard, bytes));
    }

    fn clipboard_load(&mut self, clipboard: u8, terminator: &str) {
        self.0
            .take(HandlerCall::ClipboardLoad(clipboard, terminator));
    }

    fn device_status(&mut self, kind: usize) {
        self.0.take(HandlerCall::DeviceStatus(kind));
    }

    fn identify_terminal(&mut self, intermediate: Option<char>) {
        self.0.take(HandlerCall::IdentifyTerminal(intermediate));
    }

    fn text_area_size_pixels(&mut self) {
        self.0.take(HandlerCall::TextAreaSizePixels);
    }

    fn text_area_size_chars(&mut self) {
        self.0.take(HandlerCall::TextAreaSizeChars);
    }
}

impl<T: TakeText + Drop> HandlerText for ByCall<T> {
    #[inline(always)]
    fn input_text(&mut self, text: &str) {
        self.0.take_text(text);
    }
}
