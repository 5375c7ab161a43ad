//! What a call is made of: its name and its arguments, one by one.

use crate::variant::Variant;
use vte::ansi::cursor_icon::CursorIcon;
use vte::ansi::{Attr, CursorStyle, HandlerCall, Hyperlink, KeyboardModesApplyBehavior, Rgb};

/// Visits the names and arguments of calls. There is a method for each kind of argument.
pub trait CallVisitor {
    /// A call begins. This is the name of its method.
    fn visit_name(&mut self, name: &'static str);

    /// A count, a position, an index, a kind, or the bits of keyboard modes.
    fn visit_number(&mut self, number: u64);

    /// The last line of a scrolling region, if it is given.
    fn visit_optional_number(&mut self, number: Option<usize>);

    /// A line.
    fn visit_line(&mut self, line: i32);

    /// A character that is printed.
    fn visit_character(&mut self, c: char);

    /// The intermediate of a question, if it has one.
    fn visit_optional_character(&mut self, c: Option<char>);

    /// The byte that names a clipboard.
    fn visit_byte(&mut self, byte: u8);

    /// The contents of a clipboard.
    fn visit_bytes(&mut self, bytes: &[u8]);

    /// The prefix or the terminator of an answer.
    fn visit_text(&mut self, text: &str);

    /// A title, or `None` for the terminal's own.
    fn visit_optional_text(&mut self, text: Option<&str>);

    /// A link, or `None` for the end of one.
    fn visit_link(&mut self, link: Option<Hyperlink<'_>>);

    /// A colour.
    fn visit_color(&mut self, color: Rgb);

    /// An attribute of characters.
    fn visit_attribute(&mut self, attribute: Attr);

    /// The style of the cursor, or `None` for the terminal's own.
    fn visit_style(&mut self, style: Option<CursorStyle>);

    /// The icon of the mouse cursor.
    fn visit_icon(&mut self, icon: CursorIcon);

    /// How keyboard modes are applied.
    fn visit_behavior(&mut self, behavior: KeyboardModesApplyBehavior);

    /// A value of any other enum.
    fn visit_variant<T: Variant + Drop>(&mut self, value: T);
}

/// The arms of a match: each call with its arguments, its method, and what is visited of it.
macro_rules! visited {
    ($call:ident, $visitor:ident:
    $($variant:ident $(($($argument:ident),+))?: $name:ident $($visit:ident($value:expr))*;)*) => {
        match $call {
            $(HandlerCall::$variant $(($($argument),+))? => {
                $visitor.visit_name(stringify!($name));
                $($visitor.$visit($value);)*
            })*
        }
    };
}

/// Visits the name of a call, and then its arguments.
// Callers know which call they make, so all of the match but its arm goes. That holds while the
// visitor's methods are not `inline(always)` too, for a function that would grow too large isn't
// inlined.
#[inline(always)]
pub fn visit_call<V: CallVisitor>(call: HandlerCall<'_>, visitor: &mut V) {
    visited! {
        call, visitor:
        Backspace: backspace;
        CarriageReturn: carriage_return;
        Linefeed: linefeed;
        Bell: bell;
        Substitute: substitute;
        Newline: newline;
        SetHorizontalTabstop: set_horizontal_tabstop;
        SaveCursorPosition: save_cursor_position;
        RestoreCursorPosition: restore_cursor_position;
        ResetState: reset_state;
        ReverseIndex: reverse_index;
        SetKeypadApplicationMode: set_keypad_application_mode;
        UnsetKeypadApplicationMode: unset_keypad_application_mode;
        Decaln: decaln;
        PushTitle: push_title;
        PopTitle: pop_title;
        TextAreaSizePixels: text_area_size_pixels;
        TextAreaSizeChars: text_area_size_chars;
        ReportKeyboardMode: report_keyboard_mode;
        ReportModifyOtherKeys: report_modify_other_keys;
        GotoCol(column): goto_col visit_number(column as u64);
        InsertBlank(count): insert_blank visit_number(count as u64);
        MoveUp(count): move_up visit_number(count as u64);
        MoveDown(count): move_down visit_number(count as u64);
        DeviceStatus(kind): device_status visit_number(kind as u64);
        MoveForward(count): move_forward visit_number(count as u64);
        MoveBackward(count): move_backward visit_number(count as u64);
        MoveDownAndCr(count): move_down_and_cr visit_number(count as u64);
        MoveUpAndCr(count): move_up_and_cr visit_number(count as u64);
        ScrollUp(count): scroll_up visit_number(count as u64);
        ScrollDown(count): scroll_down visit_number(count as u64);
        InsertBlankLines(count): insert_blank_lines visit_number(count as u64);
        DeleteLines(count): delete_lines visit_number(count as u64);
        EraseChars(count): erase_chars visit_number(count as u64);
        DeleteChars(count): delete_chars visit_number(count as u64);
        ResetColor(index): reset_color visit_number(index as u64);
        PutTab(count): put_tab visit_number(count as u64);
        MoveBackwardTabs(count): move_backward_tabs visit_number(count as u64);
        MoveForwardTabs(count): move_forward_tabs visit_number(count as u64);
        SetTabs(interval): set_tabs visit_number(interval as u64);
        PopKeyboardModes(count): pop_keyboard_modes visit_number(count as u64);
        SetTitle(title): set_title visit_optional_text(title);
        SetCursorStyle(style): set_cursor_style visit_style(style);
        SetCursorShape(shape): set_cursor_shape visit_variant(shape);
        Input(c): input visit_character(c);
        Goto(line, column): goto visit_line(line) visit_number(column as u64);
        GotoLine(line): goto_line visit_line(line);
        IdentifyTerminal(intermediate): identify_terminal visit_optional_character(intermediate);
        ClearLine(part): clear_line visit_variant(part);
        ClearScreen(part): clear_screen visit_variant(part);
        ClearTabs(which): clear_tabs visit_variant(which);
        TerminalAttribute(attribute): terminal_attribute visit_attribute(attribute);
        SetMode(mode): set_mode visit_variant(mode);
        UnsetMode(mode): unset_mode visit_variant(mode);
        ReportMode(mode): report_mode visit_variant(mode);
        SetPrivateMode(mode): set_private_mode visit_variant(mode);
        UnsetPrivateMode(mode): unset_private_mode visit_variant(mode);
        ReportPrivateMode(mode): report_private_mode visit_variant(mode);
        SetScrollingRegion(top, bottom): set_scrolling_region visit_number(top as u64)
            visit_optional_number(bottom);
        SetActiveCharset(index): set_active_charset visit_variant(index);
        ConfigureCharset(index, charset): configure_charset visit_variant(index)
            visit_variant(charset);
        SetColor(index, color): set_color visit_number(index as u64) visit_color(color);
        DynamicColorSequence(prefix, index, terminator): dynamic_color_sequence visit_text(prefix)
            visit_number(index as u64) visit_text(terminator);
        ClipboardStore(clipboard, bytes): clipboard_store visit_byte(clipboard) visit_bytes(bytes);
        ClipboardLoad(clipboard, terminator): clipboard_load visit_byte(clipboard)
            visit_text(terminator);
        SetHyperlink(link): set_hyperlink visit_link(link);
        SetMouseCursorIcon(icon): set_mouse_cursor_icon visit_icon(icon);
        PushKeyboardMode(mode): push_keyboard_mode visit_number(mode.bits() as u64);
        SetKeyboardMode(mode, behavior): set_keyboard_mode visit_number(mode.bits() as u64)
            visit_behavior(behavior);
        SetModifyOtherKeys(keys): set_modify_other_keys visit_variant(keys);
        SetScp(path, update): set_scp visit_variant(path) visit_variant(update);
    }
}
