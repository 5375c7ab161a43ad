//! What a processor asks of a terminal, one method per request.
ghost use Rattle.std.specs.Prelude.{length, map, option_map, ◌<◌, ◌≡◌};
ghost use Rattle.std.specs.Str.{chars};
ghost use Rattle.vte_handler.specs.Call.{Call};
ghost use Rattle.vte_handler.specs.Call as call;
ghost use Rattle.vte_handler.specs.Handler.{after, AreShown};
ghost use Rattle.vte_handler.specs.Link.{link_of};

// cargo: use crate::adapter::handlers::handlers;
// cargo: use alloc::string::String;
use crate::hyperlink::Hyperlink;
use vte_types::cursor_icon::CursorIcon;
use vte_types::{
    Attr, CharsetIndex, ClearMode, CursorShape, CursorStyle, KeyboardModes,
    KeyboardModesApplyBehavior, LineClearMode, Mode, ModifyOtherKeys, PrivateMode, Rgb,
    ScpCharPath, ScpUpdateMode, StandardCharset, TabulationClearMode,
};

// cargo defaults: a handler implements what it needs
// cargo: handlers! {
/// Receives the calls of a processor, in order.
///
/// A number that a sequence omits or gives as 0 arrives as 1 if it is a count, and as 0 if it
/// selects something. No number exceeds 65,535.
///
/// # Operating system commands
///
/// A command that CAN, SUB or ESC cancelled makes its call like one that ended. A handler can
/// tell only SUB, which makes a call of its own, `substitute`, after that of the command. Of a
/// command the first 16 pieces count, and with a limit no more bytes than that; the rest is
/// dropped without a call, and `command_lost_data` of the processor says so.
///
/// The standards: ECMA-48, fifth edition; DEC's VT510 manual; xterm's control sequences; kitty's
/// keyboard protocol.
// cargo instead: pub trait Handler;
pub trait Handler {
    /// The values that handlers stand for.
    ghost Value: { Type 0 };

    /// The value that a handler stands for.
    ghost value_of: { Self → Value };

    /// The value after one call.
    ghost step: { Value → Call → Value };

    // ---- Characters and format effectors

    /// Shows a character: neither U+0000..U+001F nor U+0080..U+009F. REP, `CSI b`, repeats the last
    /// one (ECMA-48 8.3.103).
    fn input(&mut self, c: char)
        ensures { value_of self.new ≡ step (value_of self.old) (call.Input c) };

    /// Rings or blinks (BEL, 07, outside an operating system command; ECMA-48 8.3.3).
    fn bell(&mut self)
        ensures { value_of self.new ≡ step (value_of self.old) call.Bell };

    /// Moves the cursor one column to the left, not past the first (BS, 08; ECMA-48 8.3.5).
    fn backspace(&mut self)
        ensures { value_of self.new ≡ step (value_of self.old) call.Backspace };

    /// Moves the cursor to the next tab stop, with `count` 1 (HT, 09; ECMA-48 8.3.60).
    fn put_tab(&mut self, count: u16)
        ensures { value_of self.new ≡ step (value_of self.old) (call.PutTab count) };

    /// Moves the cursor one line down, or scrolls the text up at the bottom of the scrolling region
    /// (LF, VT and FF, 0A to 0C, and IND, `ESC D`; ECMA-48 8.3.74; DEC VT510, IND). With
    /// `NamedMode::LineFeedNewLine` set, it goes to the first column too.
    fn linefeed(&mut self)
        ensures { value_of self.new ≡ step (value_of self.old) call.Linefeed };

    /// Moves the cursor to the first column of the line (CR, 0D, and a part of NEL, `ESC E`;
    /// ECMA-48 8.3.15).
    fn carriage_return(&mut self)
        ensures { value_of self.new ≡ step (value_of self.old) call.CarriageReturn };

    /// Makes a line feed and a carriage return in one. No sequence calls it: NEL calls `linefeed`
    /// and `carriage_return`.
    fn newline(&mut self)
        ensures { value_of self.new ≡ step (value_of self.old) call.Newline };

    /// Stands for a character that was lost (SUB, 1A; ECMA-48 8.3.148). SUB also cancels the
    /// sequence that it interrupts.
    fn substitute(&mut self)
        ensures { value_of self.new ≡ step (value_of self.old) call.Substitute };

    // ---- Cursor position

    /// Moves the cursor to a line and a column, both counted from 0, up to 65,534 (CUP, `CSI H`,
    /// and HVP, `CSI f`; ECMA-48 8.3.21, 8.3.63).
    fn goto(&mut self, line: i32, column: usize)
        ensures { value_of self.new ≡ step (value_of self.old) (call.Goto line column) };

    /// Moves the cursor to a line, counted from 0, up to 65,534 (VPA, `CSI d`; ECMA-48 8.3.158).
    fn goto_line(&mut self, line: i32)
        ensures { value_of self.new ≡ step (value_of self.old) (call.GotoLine line) };

    /// Moves the cursor to a column of the line, counted from 0, up to 65,534 (CHA, `CSI G`, and
    /// HPA, `` CSI ` ``; ECMA-48 8.3.9, 8.3.57).
    fn goto_col(&mut self, column: usize)
        ensures { value_of self.new ≡ step (value_of self.old) (call.GotoCol column) };

    /// Moves the cursor `count` lines up, 1 to 65,535 (CUU, `CSI A`; ECMA-48 8.3.22).
    fn move_up(&mut self, count: usize)
        ensures { value_of self.new ≡ step (value_of self.old) (call.MoveUp count) };

    /// Moves the cursor `count` lines down, 1 to 65,535 (CUD, `CSI B`, and VPR, `CSI e`; ECMA-48
    /// 8.3.19, 8.3.160).
    fn move_down(&mut self, count: usize)
        ensures { value_of self.new ≡ step (value_of self.old) (call.MoveDown count) };

    /// Moves the cursor `count` columns to the right, 1 to 65,535 (CUF, `CSI C`, and HPR, `CSI a`;
    /// ECMA-48 8.3.20, 8.3.59).
    fn move_forward(&mut self, count: usize)
        ensures { value_of self.new ≡ step (value_of self.old) (call.MoveForward count) };

    /// Moves the cursor `count` columns to the left, 1 to 65,535 (CUB, `CSI D`; ECMA-48 8.3.18).
    fn move_backward(&mut self, count: usize)
        ensures { value_of self.new ≡ step (value_of self.old) (call.MoveBackward count) };

    /// Moves the cursor to the first column, `count` lines down, 1 to 65,535 (CNL, `CSI E`; ECMA-48
    /// 8.3.12).
    fn move_down_and_cr(&mut self, count: usize)
        ensures { value_of self.new ≡ step (value_of self.old) (call.MoveDownAndCr count) };

    /// Moves the cursor to the first column, `count` lines up, 1 to 65,535 (CPL, `CSI F`; ECMA-48
    /// 8.3.13).
    fn move_up_and_cr(&mut self, count: usize)
        ensures { value_of self.new ≡ step (value_of self.old) (call.MoveUpAndCr count) };

    /// Saves the cursor's position, rendition and character sets (DECSC, `ESC 7`, and SCOSC,
    /// `CSI s`; DEC VT510; xterm).
    fn save_cursor_position(&mut self)
        ensures { value_of self.new ≡ step (value_of self.old) call.SaveCursorPosition };

    /// Restores what was saved last (DECRC, `ESC 8`, and SCORC, `CSI u`; DEC VT510; xterm).
    fn restore_cursor_position(&mut self)
        ensures { value_of self.new ≡ step (value_of self.old) call.RestoreCursorPosition };

    // ---- Scrolling

    /// Moves the cursor one line up, or scrolls the text down at the top of the scrolling region
    /// (RI, `ESC M`; ECMA-48 8.3.104).
    fn reverse_index(&mut self)
        ensures { value_of self.new ≡ step (value_of self.old) call.ReverseIndex };

    /// Moves the text of the scrolling region up `count` lines, 1 to 65,535 (SU, `CSI S`; ECMA-48
    /// 8.3.147).
    fn scroll_up(&mut self, count: usize)
        ensures { value_of self.new ≡ step (value_of self.old) (call.ScrollUp count) };

    /// Moves the text of the scrolling region down `count` lines, 1 to 65,535 (SD, `CSI T`; ECMA-48
    /// 8.3.113).
    fn scroll_down(&mut self, count: usize)
        ensures { value_of self.new ≡ step (value_of self.old) (call.ScrollDown count) };

    /// Sets the lines that scroll, counted from 1, up to 65,535 (DECSTBM, `CSI Pt ; Pb r`; DEC
    /// VT510). Without a bottom they reach to the last. The bottom may be above the top.
    fn set_scrolling_region(&mut self, top: usize, bottom: Option<usize>)
        ensures { value_of self.new
            ≡ step (value_of self.old) (call.SetScrollingRegion top bottom) };

    // ---- Tab stops

    /// Sets a tab stop in the cursor's column (HTS, `ESC H`; ECMA-48 8.3.62).
    fn set_horizontal_tabstop(&mut self)
        ensures { value_of self.new ≡ step (value_of self.old) call.SetHorizontalTabstop };

    /// Clears the tab stop in the cursor's column, or all tab stops (TBC, `CSI g`; ECMA-48
    /// 8.3.154).
    fn clear_tabs(&mut self, which: TabulationClearMode)
        ensures { value_of self.new ≡ step (value_of self.old) (call.ClearTabs which) };

    /// Sets a tab stop at each eighth column; `interval` is 8 (DECST8C, `CSI ? 5 W`; DEC VT510).
    fn set_tabs(&mut self, interval: u16)
        ensures { value_of self.new ≡ step (value_of self.old) (call.SetTabs interval) };

    /// Moves the cursor `count` tab stops forward, 1 to 65,535 (CHT, `CSI I`; ECMA-48 8.3.10).
    fn move_forward_tabs(&mut self, count: u16)
        ensures { value_of self.new ≡ step (value_of self.old) (call.MoveForwardTabs count) };

    /// Moves the cursor `count` tab stops back, 1 to 65,535 (CBT, `CSI Z`; ECMA-48 8.3.7).
    fn move_backward_tabs(&mut self, count: u16)
        ensures { value_of self.new ≡ step (value_of self.old) (call.MoveBackwardTabs count) };

    // ---- Editing

    /// Inserts `count` blanks at the cursor, 1 to 65,535; the rest of the line moves right (ICH,
    /// `CSI @`; ECMA-48 8.3.64).
    fn insert_blank(&mut self, count: usize)
        ensures { value_of self.new ≡ step (value_of self.old) (call.InsertBlank count) };

    /// Inserts `count` blank lines at the cursor's line, 1 to 65,535; those below move down (IL,
    /// `CSI L`; ECMA-48 8.3.67).
    fn insert_blank_lines(&mut self, count: usize)
        ensures { value_of self.new ≡ step (value_of self.old) (call.InsertBlankLines count) };

    /// Deletes `count` characters from the cursor on, 1 to 65,535; the rest moves left (DCH,
    /// `CSI P`; ECMA-48 8.3.26).
    fn delete_chars(&mut self, count: usize)
        ensures { value_of self.new ≡ step (value_of self.old) (call.DeleteChars count) };

    /// Deletes `count` lines from the cursor's on, 1 to 65,535; those below move up (DL, `CSI M`;
    /// ECMA-48 8.3.32).
    fn delete_lines(&mut self, count: usize)
        ensures { value_of self.new ≡ step (value_of self.old) (call.DeleteLines count) };

    /// Blanks `count` characters from the cursor on, 1 to 65,535; none moves (ECH, `CSI X`; ECMA-48
    /// 8.3.38).
    fn erase_chars(&mut self, count: usize)
        ensures { value_of self.new ≡ step (value_of self.old) (call.EraseChars count) };

    /// Blanks a part of the line (EL, `CSI K`; ECMA-48 8.3.41).
    fn clear_line(&mut self, part: LineClearMode)
        ensures { value_of self.new ≡ step (value_of self.old) (call.ClearLine part) };

    /// Blanks a part of the screen, or clears the scrollback (ED, `CSI J`; ECMA-48 8.3.39; xterm).
    fn clear_screen(&mut self, part: ClearMode)
        ensures { value_of self.new ≡ step (value_of self.old) (call.ClearScreen part) };

    /// Fills the screen with `E` (DECALN, `ESC # 8`; DEC VT510).
    fn decaln(&mut self)
        ensures { value_of self.new ≡ step (value_of self.old) call.Decaln };

    // ---- Appearance

    /// Sets one attribute of the characters that follow; one call per attribute (SGR, `CSI m`;
    /// ECMA-48 8.3.117; xterm).
    fn terminal_attribute(&mut self, attribute: Attr)
        ensures { value_of self.new ≡ step (value_of self.old) (call.TerminalAttribute attribute) };

    /// Sets the colour of an index (OSC 4, 10, 11, 12; xterm). 0 to 255 are the palette, 256 the
    /// foreground, 257 the background, 258 the cursor.
    fn set_color(&mut self, index: usize, color: Rgb)
        ensures { value_of self.new ≡ step (value_of self.old) (call.SetColor index color) };

    /// Resets the colour of an index to its first value (OSC 104, 110, 111, 112; xterm). 0 to 255
    /// are the palette, 256 the foreground, 257 the background, 258 the cursor.
    fn reset_color(&mut self, index: usize)
        ensures { value_of self.new ≡ step (value_of self.old) (call.ResetColor index) };

    /// Reports the colour of an index, 0 to 258 as those of `set_color` (OSC 4, 10, 11, 12 with
    /// `?`; xterm). The answer is `ESC ]`, the prefix, `;`, the colour and the terminator: `4;7` or
    /// `11`, and BEL or `ESC \\` as the question ended.
    // cargo instead: fn dynamic_color_sequence(
    // cargo instead:     &mut self,
    // cargo instead:     prefix: &str as String = prefix.into(), index: usize, terminator: &str)
    fn dynamic_color_sequence(&mut self, prefix: &str, index: usize, terminator: &str)
        ensures { value_of self.new
            ≡ step (value_of self.old)
            (call.DynamicColorSequence prefix.now index terminator.now) };

    /// Makes the characters that follow a link; `None` ends it (OSC 8; the hyperlinks proposal of
    /// VTE and iTerm2).
    ///
    /// The URI is cut at its 14th `;`.
    // cargo: /// Without the feature `std` it has at most 1,023 bytes, with the parameters
    // cargo: /// before it.
    /// A cancelled command makes this call too ([why](Handler#operating-system-commands)).
    // cargo instead: fn set_hyperlink(
    // cargo instead:     &mut self,
    // cargo instead:     link: Option<Hyperlink<'_>> as Option<Hyperlink>
    // cargo instead:         = link.map(|link| link.owned()))
    fn set_hyperlink(&mut self, link: Option<Hyperlink<'_>>)
        ensures { value_of self.new
            ≡ step (value_of self.old) (call.SetHyperlink (option_map link_of link.entry)) };

    /// Sets the cursor's shape, and whether it blinks (DECSCUSR, `CSI Ps SP q`; DEC VT510; xterm).
    /// `None`, for 0, is the terminal's own style.
    fn set_cursor_style(&mut self, style: Option<CursorStyle>)
        ensures { value_of self.new ≡ step (value_of self.old) (call.SetCursorStyle style) };

    /// Sets the cursor's shape alone: block, beam or underline (OSC 50, `CursorShape=`; Konsole).
    fn set_cursor_shape(&mut self, shape: CursorShape)
        ensures { value_of self.new ≡ step (value_of self.old) (call.SetCursorShape shape) };

    /// Sets the mouse pointer's shape (OSC 22; xterm; the keywords of CSS).
    fn set_mouse_cursor_icon(&mut self, icon: CursorIcon)
        ensures { value_of self.new ≡ step (value_of self.old) (call.SetMouseCursorIcon icon) };

    // ---- Character sets and the direction of text

    /// Takes characters from the set G0 or G1 (SI, 0F, and SO, 0E; ECMA-48 8.3.119, 8.3.126).
    fn set_active_charset(&mut self, index: CharsetIndex)
        ensures { value_of self.new ≡ step (value_of self.old) (call.SetActiveCharset index) };

    /// Chooses what the set G0, G1, G2 or G3 is (SCS, `ESC (`, `)`, `*` or `+` and then `B` or `0`;
    /// ECMA-35; DEC VT510).
    fn configure_charset(&mut self, index: CharsetIndex, charset: StandardCharset)
        ensures { value_of self.new
            ≡ step (value_of self.old) (call.ConfigureCharset index charset) };

    /// Sets the direction of characters, and how what is shown follows it (SCP,
    /// `CSI Ps1 ; Ps2 SP k`; ECMA-48 8.3.111).
    fn set_scp(&mut self, path: ScpCharPath, update: ScpUpdateMode)
        ensures { value_of self.new ≡ step (value_of self.old) (call.SetScp path update) };

    // ---- Modes

    /// Sets a mode; one call per mode (SM, `CSI h`; ECMA-48 8.3.125).
    fn set_mode(&mut self, mode: Mode)
        ensures { value_of self.new ≡ step (value_of self.old) (call.SetMode mode) };

    /// Resets a mode; one call per mode (RM, `CSI l`; ECMA-48 8.3.106).
    fn unset_mode(&mut self, mode: Mode)
        ensures { value_of self.new ≡ step (value_of self.old) (call.UnsetMode mode) };

    /// Reports whether a mode is set (DECRQM, `CSI Ps $ p`; DEC VT510).
    fn report_mode(&mut self, mode: Mode)
        ensures { value_of self.new ≡ step (value_of self.old) (call.ReportMode mode) };

    /// Sets a private mode; one call per mode (DECSET, `CSI ? h`; xterm).
    fn set_private_mode(&mut self, mode: PrivateMode)
        ensures { value_of self.new ≡ step (value_of self.old) (call.SetPrivateMode mode) };

    /// Resets a private mode; one call per mode (DECRST, `CSI ? l`; xterm).
    fn unset_private_mode(&mut self, mode: PrivateMode)
        ensures { value_of self.new ≡ step (value_of self.old) (call.UnsetPrivateMode mode) };

    /// Reports whether a private mode is set (DECRQM, `CSI ? Ps $ p`; DEC VT510).
    fn report_private_mode(&mut self, mode: PrivateMode)
        ensures { value_of self.new ≡ step (value_of self.old) (call.ReportPrivateMode mode) };

    /// Resets everything to its state when the terminal was switched on (RIS, `ESC c`; ECMA-48
    /// 8.3.105).
    fn reset_state(&mut self)
        ensures { value_of self.new ≡ step (value_of self.old) call.ResetState };

    // ---- Keyboard

    /// Makes the keypad's keys send sequences (DECKPAM, `ESC =`; DEC VT510).
    fn set_keypad_application_mode(&mut self)
        ensures { value_of self.new ≡ step (value_of self.old) call.SetKeypadApplicationMode };

    /// Makes the keypad's keys send digits (DECKPNM, `ESC >`; DEC VT510).
    fn unset_keypad_application_mode(&mut self)
        ensures { value_of self.new ≡ step (value_of self.old) call.UnsetKeypadApplicationMode };

    /// Pushes these keyboard modes onto their stack, and sets them (`CSI > u`; kitty's keyboard
    /// protocol). All 32 values are possible.
    fn push_keyboard_mode(&mut self, mode: KeyboardModes)
        ensures { value_of self.new ≡ step (value_of self.old) (call.PushKeyboardMode mode) };

    /// Pops this many keyboard modes off their stack, 1 to 65,535 (`CSI < u`; kitty's keyboard
    /// protocol).
    fn pop_keyboard_modes(&mut self, count: u16)
        ensures { value_of self.new ≡ step (value_of self.old) (call.PopKeyboardModes count) };

    /// Replaces the keyboard modes, adds to them, or removes some (`CSI = u`; kitty's keyboard
    /// protocol). All 32 values are possible.
    fn set_keyboard_mode(&mut self, mode: KeyboardModes, behavior: KeyboardModesApplyBehavior)
        ensures { value_of self.new
            ≡ step (value_of self.old) (call.SetKeyboardMode mode behavior) };

    /// Reports the keyboard modes that are set (`CSI ? u`; kitty's keyboard protocol).
    fn report_keyboard_mode(&mut self)
        ensures { value_of self.new ≡ step (value_of self.old) call.ReportKeyboardMode };

    /// Sets how modified keys are sent (XTMODKEYS, `CSI > 4 ; Pv m`; xterm).
    fn set_modify_other_keys(&mut self, keys: ModifyOtherKeys)
        ensures { value_of self.new ≡ step (value_of self.old) (call.SetModifyOtherKeys keys) };

    /// Reports how modified keys are sent (XTQMODKEYS, `CSI ? 4 m`; xterm).
    fn report_modify_other_keys(&mut self)
        ensures { value_of self.new ≡ step (value_of self.old) call.ReportModifyOtherKeys };

    // ---- Titles, clipboards and reports

    /// Sets the window's title (OSC 0 and 2; xterm). It may be empty.
    // cargo instead: /// Without the feature `std` it has at most 1,023 bytes.
    /// It has at most 1,023 bytes, not counting its `;`.
    /// White space at both ends is trimmed. `None`, the terminal's own title, never arrives.
    ///
    /// The title is cut at its 15th `;`. A cancelled command makes this call too
    /// ([why](Handler#operating-system-commands)).
    // cargo instead: fn set_title(
    // cargo instead:     &mut self, title: Option<&str> as Option<String> = title.map(Into::into))
    fn set_title(&mut self, title: Option<&str>)
        ensures { value_of self.new
            ≡ step (value_of self.old)
            (call.SetTitle (option_map (λ text. text.now) title.entry)) };

    /// Pushes the title onto a stack (XTWINOPS 22, `CSI 22 t`; xterm).
    fn push_title(&mut self)
        ensures { value_of self.new ≡ step (value_of self.old) call.PushTitle };

    /// Pops the title off the stack (XTWINOPS 23, `CSI 23 t`; xterm).
    fn pop_title(&mut self)
        ensures { value_of self.new ≡ step (value_of self.old) call.PopTitle };

    /// Stores data in a clipboard (OSC 52; xterm). Its letter is the first byte of the selection,
    /// or `c` if that is empty. The data are passed on as they came: they should be base64, and may
    /// be anything.
    // cargo instead: /// Without the feature `std` they have at most 1,022 bytes.
    /// They have at most 1,022 bytes.
    ///
    /// The data end at their first `;`. A cancelled command makes this call too
    /// ([why](Handler#operating-system-commands)): they may be a part of what was to be stored.
    fn clipboard_store(&mut self, clipboard: u8, bytes: &[u8])
        ensures { value_of self.new
            ≡ step (value_of self.old) (call.ClipboardStore clipboard bytes.now) };

    /// Reports what a clipboard holds, by its letter as in `clipboard_store` (OSC 52 with `?`;
    /// xterm). The answer ends with the terminator, BEL or `ESC \\` as the question did.
    fn clipboard_load(&mut self, clipboard: u8, terminator: &str)
        ensures { value_of self.new
            ≡ step (value_of self.old) (call.ClipboardLoad clipboard terminator.now) };

    /// Makes a report by its number, up to 65,535 (DSR, `CSI n`; ECMA-48 8.3.35). 5 asks for the
    /// status, 6 for the cursor's position.
    fn device_status(&mut self, kind: usize)
        ensures { value_of self.new ≡ step (value_of self.old) (call.DeviceStatus kind) };

    /// Reports what terminal this is, by the intermediate: `None` for the primary, `Some('>')` for
    /// the secondary, `Some('=')` for the tertiary attributes (DA, `CSI c` and `ESC Z`; ECMA-48
    /// 8.3.24; DEC VT510; xterm).
    fn identify_terminal(&mut self, intermediate: Option<char>)
        ensures { value_of self.new
            ≡ step (value_of self.old) (call.IdentifyTerminal intermediate) };

    /// Reports the text area's size in pixels (XTWINOPS 14, `CSI 14 t`; xterm).
    fn text_area_size_pixels(&mut self)
        ensures { value_of self.new ≡ step (value_of self.old) call.TextAreaSizePixels };

    /// Reports the text area's size in characters (XTWINOPS 18, `CSI 18 t`; xterm).
    fn text_area_size_chars(&mut self)
        ensures { value_of self.new ≡ step (value_of self.old) call.TextAreaSizeChars };
}

/// Receives text in runs, from a processor's `advance_text` and `stop_sync_text` alone: there
/// [`input`](Handler::input) isn't called.
///
/// `advance` and `stop_sync` pass text by `input`, and never by `input_text`. A handler that leaves
/// `input` empty loses their text, so implement both.
///
/// How a text is cut into runs may change from version to version.
// cargo: #[doc = include_str!("../../docs/handler_text.md")]
pub trait HandlerText: Handler {
    /// Shows characters, at least one, in order. None is a control: neither U+0000..U+001F nor
    /// U+0080..U+009F.
    fn input_text(&mut self, text: &str)
        requires not_empty { 0 < length text.now }
        requires shown { AreShown text.now }
        ensures { Self.value_of self.new
            ≡ after Self.step (Self.value_of self.old) (map call.Input (chars text.now)) };
}
