//! A handler that writes one line per call: the name of the method and its arguments, separated by
//! blanks.
//!
//! It also takes lines for the calls of a timeout, for logs of both. Characters and bytes are
//! written in hex, texts in quotes, keyboard modes as their bits, and anything else as its debug
//! text.

use crate::hex::Hex;
use crate::variant::Variant;
use crate::visitor::{CallVisitor, visit_call};
use std::alloc::{AllocError, Allocator, Global};
use std::fmt;
use std::time::Duration;
use vte::ansi::cursor_icon::CursorIcon;
use vte::ansi::{
    Attr, CursorStyle, HandlerCall, Hyperlink, KeyboardModesApplyBehavior, Rgb, TakeCall, TakeText,
};

/// The lines of the calls so far. `ByCall` makes a handler of it.
#[derive(Drop)]
pub struct CallLines<A: Allocator = Global> {
    text: String<A>,
    refused: bool,
}

impl<A: Allocator> CallLines<A> {
    /// Creates a log without lines, which allocates as lines come.
    pub fn new(alloc: A) -> Self {
        CallLines {
            text: String::new(alloc),
            refused: false,
        }
    }

    /// Creates a log without lines, with memory for `bytes` bytes of them.
    pub fn with_capacity(alloc: A, bytes: usize) -> Result<Self, AllocError> {
        Ok(CallLines {
            text: String::with_capacity(alloc, bytes)?,
            refused: false,
        })
    }

    /// Returns the lines, or `None` if memory ran out.
    pub fn text(&self) -> Option<&str> {
        if self.refused {
            None
        } else {
            Some(self.text.as_str())
        }
    }

    /// Removes all lines.
    pub fn clear(&mut self) {
        self.text.clear();
    }

    /// Appends a line for a call of `set_timeout`.
    pub fn add_set(&mut self, duration: Duration) {
        let millis = duration.as_millis();
        self.add(format_args!("set_timeout {millis}\n"));
    }

    /// Appends a line for a call of `clear_timeout`.
    pub fn add_clear(&mut self) {
        self.add("clear_timeout\n");
    }

    fn add(&mut self, text: impl fmt::Display + Drop) {
        if write!(self.text, "{text}").is_err() {
            self.refused = true;
        }
    }
}

impl<A: Allocator> TakeCall for CallLines<A> {
    // The contract says nothing about the lines; the vectors and the comparisons check them.
    ghost Value = { Unit {0} };

    ghost value_of = { λ _. tt };

    ghost step = { λ _ _. tt };

    fn take(&mut self, call: HandlerCall<'_>) {
        visit_call(call, self);
        self.add("\n");
    }
}

/// A run has the lines of its characters.
impl<A: Allocator> TakeText for CallLines<A> {}

impl<A: Allocator> CallVisitor for CallLines<A> {
    fn visit_name(&mut self, name: &'static str) {
        self.add(name);
    }

    fn visit_number(&mut self, number: u64) {
        self.add(format_args!(" {number}"));
    }

    fn visit_optional_number(&mut self, number: Option<usize>) {
        self.add(format_args!(" {number:?}"));
    }

    fn visit_line(&mut self, line: i32) {
        self.add(format_args!(" {line}"));
    }

    fn visit_character(&mut self, c: char) {
        let code = c as u32;
        self.add(format_args!(" {code:04x}"));
    }

    fn visit_optional_character(&mut self, c: Option<char>) {
        self.add(format_args!(" {c:?}"));
    }

    fn visit_byte(&mut self, byte: u8) {
        self.add(format_args!(" {byte:02x}"));
    }

    fn visit_bytes(&mut self, bytes: &[u8]) {
        let bytes = Hex(bytes);
        self.add(format_args!(" {bytes}"));
    }

    fn visit_text(&mut self, text: &str) {
        let text = Quoted(text);
        self.add(format_args!(" {text:?}"));
    }

    fn visit_optional_text(&mut self, text: Option<&str>) {
        let text = text.map(Quoted);
        self.add(format_args!(" {text:?}"));
    }

    fn visit_link(&mut self, link: Option<Hyperlink<'_>>) {
        match link {
            Some(Hyperlink { id, uri }) => {
                let id = id.map(Quoted);
                let uri = Quoted(uri);
                self.add(format_args!(" Some(Hyperlink {{ id: {id:?}, uri: {uri:?} }})"));
            }
            None => self.add(" None"),
        }
    }

    fn visit_color(&mut self, color: Rgb) {
        self.add(format_args!(" {color:?}"));
    }

    fn visit_attribute(&mut self, attribute: Attr) {
        self.add(format_args!(" {attribute:?}"));
    }

    fn visit_style(&mut self, style: Option<CursorStyle>) {
        self.add(format_args!(" {style:?}"));
    }

    fn visit_icon(&mut self, icon: CursorIcon) {
        self.add(format_args!(" {icon:?}"));
    }

    fn visit_behavior(&mut self, behavior: KeyboardModesApplyBehavior) {
        self.add(match behavior {
            KeyboardModesApplyBehavior::Replace => " Replace",
            KeyboardModesApplyBehavior::Union => " Union",
            KeyboardModesApplyBehavior::Difference => " Difference",
        });
    }

    fn visit_variant<T: Variant + Drop>(&mut self, value: T) {
        self.add(format_args!(" {value:?}"));
    }
}

/// A text in quotes: 20..7E are written as they are, except for `\"` and `\\`, and any other
/// character as `\u{7}`.
#[derive(Clone, Copy)]
struct Quoted<'a>(&'a str);

impl fmt::Debug for Quoted<'_> {
    fn fmt<W: fmt::Write>(&self, f: &mut fmt::Formatter<W>) -> fmt::Result {
        f.write_str("\"")?;
        for c in self.0.chars() {
            match c {
                '"' => f.write_str("\\\"")?,
                '\\' => f.write_str("\\\\")?,
                ' '..='~' => f.write_char(c)?,
                _ => {
                    let code = c as u32;
                    write!(f, "\\u{{{code:x}}}")?;
                }
            }
        }
        f.write_str("\"")
    }
}
