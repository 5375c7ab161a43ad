//! A handler that folds all calls into a checksum, as cheaply as possible.
//!
//! bench/peer does the same for the crate.

use crate::checksum::Checksum;
use test_lines::{CallVisitor, Variant, visit_call};
use vte::ansi::cursor_icon::CursorIcon;
use vte::ansi::{
    Attr, Color, CursorStyle, HandlerCall, Hyperlink, KeyboardModesApplyBehavior, Rgb, TakeCall,
};

/// Folds the calls of a processor: a number for the name of each, and its arguments. `ByCall` makes
/// a handler of it.
#[derive(Drop)]
pub(crate) struct CallChecksum {
    pub(crate) checksum: Checksum,
}

impl CallChecksum {
    pub(crate) fn new() -> Self {
        CallChecksum {
            checksum: Checksum::new(),
        }
    }

    fn fold_color(&mut self, color: Color) {
        match color {
            Color::Named(name) => self.checksum.fold(name as u64),
            Color::Spec(rgb) => self.visit_color(rgb),
            Color::Indexed(index) => self.checksum.fold(index as u64),
        }
    }
}

/// Returns a number for a name of four bytes or more: its first and last four bytes, and its
/// length. It is straight-line code, which the compiler computes.
#[inline]
fn number_of(name: &str) -> u64 {
    let bytes = name.as_bytes();
    let (Some(first), Some(last)) = (bytes.first_chunk::<4>(), bytes.last_chunk::<4>()) else {
        return 0;
    };
    let first = u32::from_be_bytes(*first) as u64;
    let last = u32::from_be_bytes(*last) as u64;
    (first << 32 | last).wrapping_add(bytes.len() as u64)
}

impl TakeCall for CallChecksum {
    // It is compared with the crate's, and no contract speaks of it.
    ghost Value = { Unit };

    ghost value_of = { λ checksum. tt };

    ghost step = { λ value call. value };

    // Callers know which call they make, so all of the match but its arm goes.
    #[inline(always)]
    fn take(&mut self, call: HandlerCall<'_>) {
        visit_call(call, self);
    }
}

impl CallVisitor for CallChecksum {
    #[inline]
    fn visit_name(&mut self, name: &'static str) {
        self.checksum.fold(number_of(name));
    }

    #[inline]
    fn visit_number(&mut self, number: u64) {
        self.checksum.fold(number);
    }

    fn visit_optional_number(&mut self, number: Option<usize>) {
        self.checksum.fold(number.is_some() as u64);
        if let Some(number) = number {
            self.checksum.fold(number as u64);
        }
    }

    #[inline]
    fn visit_line(&mut self, line: i32) {
        self.checksum.fold(line.unsigned_abs() as u64);
    }

    #[inline]
    fn visit_character(&mut self, c: char) {
        self.checksum.fold(c as u64);
    }

    fn visit_optional_character(&mut self, c: Option<char>) {
        self.checksum.fold(c.is_some() as u64);
        if let Some(c) = c {
            self.checksum.fold(c as u64);
        }
    }

    fn visit_byte(&mut self, byte: u8) {
        self.checksum.fold(byte as u64);
    }

    fn visit_bytes(&mut self, bytes: &[u8]) {
        self.checksum.fold_piece(bytes);
    }

    fn visit_text(&mut self, text: &str) {
        self.checksum.fold_piece(text.as_bytes());
    }

    fn visit_optional_text(&mut self, text: Option<&str>) {
        self.checksum.fold(text.is_some() as u64);
        if let Some(text) = text {
            self.checksum.fold_piece(text.as_bytes());
        }
    }

    fn visit_link(&mut self, link: Option<Hyperlink<'_>>) {
        self.checksum.fold(link.is_some() as u64);
        if let Some(Hyperlink { id, uri }) = link {
            self.visit_optional_text(id);
            self.checksum.fold_piece(uri.as_bytes());
        }
    }

    #[inline]
    fn visit_color(&mut self, color: Rgb) {
        let Rgb { r, g, b } = color;
        self.checksum
            .fold(u64::from_be_bytes([0, 0, 0, 0, 0, r, g, b]));
    }

    #[inline]
    fn visit_attribute(&mut self, attribute: Attr) {
        self.checksum.fold(index_of(&attribute));
        match attribute {
            Attr::Foreground(color) | Attr::Background(color) => self.fold_color(color),
            Attr::UnderlineColor(color) => {
                self.checksum.fold(color.is_some() as u64);
                if let Some(color) = color {
                    self.fold_color(color);
                }
            }
            _ => {}
        }
    }

    fn visit_style(&mut self, style: Option<CursorStyle>) {
        self.checksum.fold(style.is_some() as u64);
        if let Some(style) = style {
            self.checksum.fold(style.shape as u64);
            self.checksum.fold(style.blinking as u64);
        }
    }

    // The icon alone doesn't count: on the other side its numbers are those of another crate.
    fn visit_icon(&mut self, _icon: CursorIcon) {}

    fn visit_behavior(&mut self, behavior: KeyboardModesApplyBehavior) {
        self.checksum.fold(behavior as u64);
    }

    #[inline]
    fn visit_variant<T: Variant + Drop>(&mut self, value: T) {
        self.checksum.fold(value.number());
    }
}

/// Returns the index of an attribute's variant in its declaration.
fn index_of(attribute: &Attr) -> u64 {
    match attribute {
        Attr::Reset => 0,
        Attr::Bold => 1,
        Attr::Dim => 2,
        Attr::Italic => 3,
        Attr::Underline => 4,
        Attr::DoubleUnderline => 5,
        Attr::Undercurl => 6,
        Attr::DottedUnderline => 7,
        Attr::DashedUnderline => 8,
        Attr::BlinkSlow => 9,
        Attr::BlinkFast => 10,
        Attr::Reverse => 11,
        Attr::Hidden => 12,
        Attr::Strike => 13,
        Attr::CancelBold => 14,
        Attr::CancelBoldDim => 15,
        Attr::CancelItalic => 16,
        Attr::CancelUnderline => 17,
        Attr::CancelBlink => 18,
        Attr::CancelReverse => 19,
        Attr::CancelHidden => 20,
        Attr::CancelStrike => 21,
        Attr::Foreground(_) => 22,
        Attr::Background(_) => 23,
        Attr::UnderlineColor(_) => 24,
    }
}
