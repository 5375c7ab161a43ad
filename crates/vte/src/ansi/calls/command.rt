//! The calls of operating system commands.
ghost use Rattle.std.specs.Prelude.{bytes_eq, codes, map, ◌≡◌, ◌≤◌};
ghost use Rattle.vte.specs.CommandCalls.{all_reset, clipboard_calls, color_calls, cursor_shape_calls, dynamic_calls, dynamic_color_calls, dynamic_colors, link_calls, link_to, mouse_cursor_icon_calls, palette_calls, palette_entry_calls, reset_calls, system_command_calls, title_calls};
ghost use Rattle.vte.specs.Numbers.{decimal_number};
ghost use Rattle.vte.specs.private.JoinedTexts.{FitsTextCapacity};
ghost use Rattle.vte_handler.specs.Call.{SetHyperlink};
ghost use Rattle.vte_handler.specs.Handler.{after};
ghost use Rattle.vte_types.specs.CursorIcon.{icon_of};
ghost use Rattle.vte_types.specs.Words.{entry_of};

use crate::ansi::calls::color_text::xparse_color;
use crate::ansi::calls::joined_text::{MalformedPiece, join_texts, text_in};
use crate::ansi::calls::numbers::{parse_number, push_number};
use crate::ansi::calls::split::{find_link_id, strip_word};
use crate::ansi::calls::text_buffer::TextBuffer;
use arrayvec::ArrayString;
use std::str::FromStr;
use vte_handler::{Handler, Hyperlink};
use vte_types::NamedColor::{Background, Cursor, Foreground};
use vte_types::cursor_icon::CursorIcon;
use vte_types::{CursorShape, laws};

/// Makes the calls of an operating system command.
#[tactic(auto, unfolding(vte_types::specs::NamedColor::number_of_color))]
pub(crate) fn perform_system_command<H: Handler, B: TextBuffer>(
    handler: &mut H,
    text: &mut B,
    pieces: &[&[u8]],
    bell_terminated: bool,
)
    requires { FitsTextCapacity (B.text_capacity text.old) (map (λ piece. piece.now) pieces.now) }
    ensures calls { H.value_of handler.new
        ≡ after H.step (H.value_of handler.old)
        (system_command_calls (map (λ piece. piece.now) pieces.now) bell_terminated) }
    ensures same_capacity { B.text_capacity text.new ≡ B.text_capacity text.old }
{
    // proof: a word that is matched is no other word.
    laws::words_differ_from_other_texts();
    if let [first, texts @ ..] = pieces {
        let terminator = if bell_terminated { "\x07" } else { "\x1b\\" };
        match *first {
            b"0" | b"2" => set_title(handler, text, texts),
            b"4" => set_palette(handler, texts, terminator),
            b"8" => set_link(handler, text, texts),
            b"10" => set_dynamic_colors(handler, 10, texts, terminator),
            b"11" => set_dynamic_colors(handler, 11, texts, terminator),
            b"12" => set_dynamic_colors(handler, 12, texts, terminator),
            b"22" => set_mouse_cursor_icon(handler, texts),
            b"50" => set_cursor_shape(handler, texts),
            b"52" => store_or_load_clipboard(handler, texts, terminator),
            b"104" => reset_colors(handler, texts),
            b"110" => handler.reset_color(Foreground as usize),
            b"111" => handler.reset_color(Background as usize),
            b"112" => handler.reset_color(Cursor as usize),
            _ => {}
        }
    }
}

/// Sets the title that these pieces make (OSC 0 and 2). A title of one piece is lent, not copied.
#[tactic(auto, using(crate::proofs::lemmas::calls::JoinedTexts::one_text))]
fn set_title<H: Handler, B: TextBuffer>(handler: &mut H, text: &mut B, texts: &[&[u8]])
    requires { FitsTextCapacity (B.text_capacity text.old) (map (λ piece. piece.now) texts.now) }
    ensures calls { H.value_of handler.new
        ≡ after H.step (H.value_of handler.old) (title_calls (map (λ piece. piece.now) texts.now)) }
    ensures same_capacity { B.text_capacity text.new ≡ B.text_capacity text.old }
{
    match texts {
        [] => {}
        [title] => handler.set_title(Some(
            text_in(title, MalformedPiece::LeftOut).unwrap_or("").trim(),
        )),
        _ => {
            join_texts(text, texts, MalformedPiece::LeftOut);
            handler.set_title(Some(text.as_str().trim()));
        }
    }
}

/// Returns whether a text asks for a value.
fn is_question(text: &[u8]) -> bool
    ensures { result ≡ bytes_eq text.now (codes "?") }
{
    // proof: a word that is matched is no other word.
    laws::words_differ_from_other_texts();
    matches!(text, [b'?'])
}

/// Sets a colour, or asks for it.
fn set_color<H: Handler>(handler: &mut H, prefix: &str, index: usize, text: &[u8], terminator: &str)
    ensures { H.value_of handler.new
        ≡ after H.step (H.value_of handler.old)
        (color_calls prefix.now index terminator.now text.now) }
{
    if is_question(text) {
        handler.dynamic_color_sequence(prefix, index, terminator);
    } else if let Some(color) = xparse_color(text) {
        handler.set_color(index, color);
    }
}

/// Sets a colour of the palette, or asks for it.
#[tactic(auto, using(crate::proofs::lemmas::calls::Colors::few_digits))]
fn set_palette_entry<H: Handler>(handler: &mut H, index: &[u8], color: &[u8], terminator: &str)
    ensures { H.value_of handler.new
        ≡ after H.step (H.value_of handler.old)
        (palette_entry_calls terminator.now (decimal_number index.now) color.now) }
{
    if let Some(index) = parse_number(index) {
        let mut prefix = ArrayString::<5>::new();
        prefix.push_str("4;");
        push_number(&mut prefix, index);
        set_color(
            handler,
            prefix.as_str(),
            usize::from(index),
            color,
            terminator,
        );
    }
}

/// Sets colours of the palette, or asks for them (OSC 4). Each index is followed by its colour.
#[tactic(auto, using(crate::proofs::lemmas::calls::Loops::entry_made))]
fn set_palette<H: Handler>(handler: &mut H, texts: &[&[u8]], terminator: &str)
    ensures { H.value_of handler.new
        ≡ after H.step (H.value_of handler.old)
        (palette_calls terminator.now (map (λ piece. piece.now) texts.now)) }
{
    if texts.len() % 2 != 0 {
        return;
    }
    let mut left = texts;
    while let [index, color, rest @ ..] = left {
        set_palette_entry(handler, index, color, terminator);
        left = rest;
    }
}

/// Sets the link that these pieces make (OSC 8). A URI of one piece is lent, not copied.
#[tactic(auto, using(crate::proofs::lemmas::calls::JoinedTexts::one_text))]
fn set_link<H: Handler, B: TextBuffer>(handler: &mut H, text: &mut B, texts: &[&[u8]])
    requires { FitsTextCapacity (B.text_capacity text.old) (map (λ piece. piece.now) texts.now) }
    ensures calls { H.value_of handler.new
        ≡ after H.step (H.value_of handler.old) (link_calls (map (λ piece. piece.now) texts.now)) }
    ensures same_capacity { B.text_capacity text.new ≡ B.text_capacity text.old }
{
    match texts {
        [] | [_] => {}
        [parameters, uri] => {
            let uri = text_in(uri, MalformedPiece::Empty).unwrap_or("");
            set_link_to(handler, parameters, uri);
        }
        [parameters, uri @ ..] => {
            join_texts(text, uri, MalformedPiece::Empty);
            set_link_to(handler, parameters, text.as_str());
        }
    }
}

/// Begins a link to a URI, or ends one if it is empty.
#[tactic(auto, using(crate::proofs::lemmas::calls::JoinedTexts::some_link))]
fn set_link_to<H: Handler>(handler: &mut H, parameters: &[u8], uri: &str)
    ensures { H.value_of handler.new
        ≡ H.step (H.value_of handler.old) (SetHyperlink (link_to parameters.now uri.now)) }
{
    if uri.is_empty() {
        handler.set_hyperlink(None);
    } else {
        let id = find_link_id(parameters).and_then(|id| text_in(id, MalformedPiece::LeftOut));
        handler.set_hyperlink(Some(Hyperlink { id, uri }));
    }
}

/// Sets the colour of the foreground, of the background or of the cursor, or asks for it.
#[tactic(auto, unfolding(crate::proofs::Common::digits, vte_types::specs::NamedColor::number_of_color))]
fn set_dynamic_color<H: Handler>(handler: &mut H, code: usize, text: &[u8], terminator: &str)
    ensures { H.value_of handler.new ≡ after H.step (H.value_of handler.old)
        (dynamic_color_calls code terminator.now text.now (entry_of dynamic_colors code)) }
{
    match code {
        10 => set_color(handler, "10", Foreground as usize, text, terminator),
        11 => set_color(handler, "11", Background as usize, text, terminator),
        12 => set_color(handler, "12", Cursor as usize, text, terminator),
        _ => {}
    }
}

/// Sets dynamic colours, or asks for them (OSC 10, 11 and 12): that of `first` and those that
/// follow, one for each text.
#[tactic(auto, using(crate::proofs::lemmas::events::EventCalls::appended))]
fn set_dynamic_colors<H: Handler>(handler: &mut H, first: usize, texts: &[&[u8]], terminator: &str)
    requires { first ≤ 12 }
    ensures { H.value_of handler.new
        ≡ after H.step (H.value_of handler.old)
        (dynamic_calls first terminator.now (map (λ piece. piece.now) texts.now)) }
{
    let mut code = first;
    for text in texts {
        set_dynamic_color(handler, code, text, terminator);
        code += 1;
    }
}

/// Sets the icon of the mouse pointer (OSC 22).
fn set_mouse_cursor_icon<H: Handler>(handler: &mut H, texts: &[&[u8]])
    ensures { H.value_of handler.new
        ≡ after H.step (H.value_of handler.old)
        (mouse_cursor_icon_calls (map (λ piece. piece.now) texts.now)) }
{
    if let [name] = texts {
        if let Some(icon) = find_icon(name) {
            handler.set_mouse_cursor_icon(icon);
        }
    }
}

/// Returns the icon of a keyword.
fn find_icon(name: &[u8]) -> Option<CursorIcon>
    ensures { result ≡ icon_of name.now }
{
    laws::keywords_are_text();
    CursorIcon::from_str(text_in(name, MalformedPiece::LeftOut)?).ok()
}

/// Sets the shape of the cursor (OSC 50).
fn set_cursor_shape<H: Handler>(handler: &mut H, texts: &[&[u8]])
    ensures { H.value_of handler.new
        ≡ after H.step (H.value_of handler.old)
        (cursor_shape_calls (map (λ piece. piece.now) texts.now)) }
{
    if let [text, ..] = texts {
        match strip_word(text, b"CursorShape=") {
            Some([b'0', ..]) => handler.set_cursor_shape(CursorShape::Block),
            Some([b'1', ..]) => handler.set_cursor_shape(CursorShape::Beam),
            Some([b'2', ..]) => handler.set_cursor_shape(CursorShape::Underline),
            _ => {}
        }
    }
}

/// Stores data in a clipboard, or asks for what it holds (OSC 52).
fn store_or_load_clipboard<H: Handler>(handler: &mut H, texts: &[&[u8]], terminator: &str)
    ensures { H.value_of handler.new
        ≡ after H.step (H.value_of handler.old)
        (clipboard_calls terminator.now (map (λ piece. piece.now) texts.now)) }
{
    if let [name, data, ..] = texts {
        let clipboard = name.first().copied().unwrap_or(b'c');
        if is_question(data) {
            handler.clipboard_load(clipboard, terminator);
        } else {
            handler.clipboard_store(clipboard, data);
        }
    }
}

/// Resets all colours of the palette.
#[tactic(auto, using(crate::proofs::lemmas::calls::Loops::one_less), unfolding(crate::specs::CommandCalls::all_reset))]
fn reset_all<H: Handler>(handler: &mut H)
    ensures { H.value_of handler.new ≡ after H.step (H.value_of handler.old) all_reset }
{
    for index in 0..256 {
        handler.reset_color(index);
    }
}

/// Resets colours of the palette (OSC 104). Without an index, all are reset.
fn reset_colors<H: Handler>(handler: &mut H, texts: &[&[u8]])
    ensures { H.value_of handler.new
        ≡ after H.step (H.value_of handler.old) (reset_calls (map (λ piece. piece.now) texts.now)) }
{
    match texts {
        [] | [[], ..] => reset_all(handler),
        _ => {
            for text in texts {
                if let Some(index) = parse_number(text) {
                    handler.reset_color(usize::from(index));
                }
            }
        }
    }
}
