//! What a screen shows of streams, worked by hand from ECMA-48; both by a parser and by a
//! processor. Runs of text must show the same as characters, in each cell.

use examples::{Cell, ROWS, Screen};
use std::alloc::Global;
use test_lines::{Answers, TestTimeout};
use vte::ansi::{ByCall, Color, NamedColor, Processor, Rgb};
use vte_core::Parser;

fn parsed(stream: &[u8]) -> Screen {
    let mut screen = Screen::new();
    Parser::new().advance(&mut screen, stream);
    screen
}

/// Returns the screen of a stream whose text comes in runs, in calls of `chunk` bytes.
fn parsed_in_runs(stream: &[u8], chunk: usize) -> Screen {
    let mut screen = Screen::new();
    let mut parser = Parser::new();
    for bytes in stream.chunks(chunk.max(1)) {
        parser.advance_text(&mut screen, bytes);
    }
    screen
}

/// Returns the screen of a stream by a processor, unless memory runs out.
fn processed(alloc: Global, stream: &[u8]) -> Option<Screen> {
    let mut handler = ByCall(Screen::new());
    match Processor::new(alloc, TestTimeout::new(Answers::Never)) {
        Ok(mut processor) => processor.advance(&mut handler, stream),
        Err(_) => return None,
    }
    Some(handler.0)
}

/// Returns the screen of a stream by a processor, with text in runs, in calls of `chunk` bytes.
fn processed_in_runs(alloc: Global, stream: &[u8], chunk: usize) -> Option<Screen> {
    let mut handler = ByCall(Screen::new());
    match Processor::new(alloc, TestTimeout::new(Answers::Never)) {
        Ok(mut processor) => for bytes in stream.chunks(chunk.max(1)) {
            processor.advance_text(&mut handler, bytes);
        },
        Err(_) => return None,
    }
    Some(handler.0)
}

/// Returns whether two screens have the same cells and the same cursor.
fn are_same(one: &Screen, other: &Screen) -> bool {
    for row in 0..ROWS {
        if one.row(row) != other.row(row) {
            return false;
        }
    }
    one.cursor() == other.cursor()
}

/// Returns whether runs of text show what characters show, in calls of `chunk` bytes.
fn runs_show_the_same(alloc: Global, stream: &[u8], chunk: usize) -> bool {
    match (
        processed(alloc, stream),
        processed_in_runs(alloc, stream, chunk),
    ) {
        (Some(by_characters), Some(in_runs)) => {
            are_same(&in_runs, &by_characters)
                && are_same(&parsed_in_runs(stream, chunk), &parsed(stream))
        }
        _ => false,
    }
}

/// Returns whether runs of text show what characters show, in one call and byte by byte.
fn runs_agree(alloc: Global, stream: &[u8]) -> bool {
    runs_show_the_same(alloc, stream, stream.len()) && runs_show_the_same(alloc, stream, 1)
}

/// Returns whether a row has this text, and blanks after it.
fn has_text(screen: &Screen, row: usize, text: &str) -> bool {
    let mut expected = text.chars();
    for cell in screen.row(row) {
        if cell.character != expected.next().unwrap_or(' ') {
            return false;
        }
    }
    expected.next().is_none()
}

/// Returns whether both show a text in a row, and runs show the same.
fn both_show(alloc: Global, stream: &[u8], row: usize, text: &str) -> bool {
    match processed(alloc, stream) {
        Some(screen) => {
            has_text(&screen, row, text)
                && has_text(&parsed(stream), row, text)
                && runs_agree(alloc, stream)
        }
        None => false,
    }
}

#[test]
fn controls(rt: HostRuntime) {
    assert!(rt; both_show(rt.alloc(), b"ab\ncd\re", 0, "ab"));
    assert!(rt; both_show(rt.alloc(), b"ab\ncd\re", 1, "e cd"));
    assert!(rt; both_show(rt.alloc(), b"ab\x08c", 0, "ac"));
    assert!(rt; both_show(rt.alloc(), b"\x08a\x0bb\x0cc", 2, "  c"));
}

#[test]
fn motions(rt: HostRuntime) {
    assert!(rt; both_show(rt.alloc(), b"\x1b[3;5Ha", 2, "    a"));
    assert!(rt; both_show(rt.alloc(), b"\x1b[3;5H\x1b[Ha", 0, "a"));
    assert!(rt; both_show(rt.alloc(), b"\x1b[2B\x1b[3C\x1b[A\x1b[2Da", 1, " a"));
    assert!(rt; both_show(rt.alloc(), b"\x1b[3;5fa\x1b[2Gb\x1b[dc", 2, " b  a"));
    assert!(rt; both_show(rt.alloc(), b"\x1b[3;5fa\x1b[2Gb\x1b[dc", 0, "  c"));
    // None leaves the screen.
    assert!(rt; both_show(rt.alloc(), b"\x1b[99B\x1b[9Da", 23, "a"));
    assert!(rt; both_show(rt.alloc(), b"\x1b[9A\x1b[99C\x1b[79Da", 0, "a"));
}

#[test]
fn the_last_column(rt: HostRuntime) {
    // The cursor waits at the last column for the next character.
    assert!(rt; both_show(rt.alloc(), b"\x1b[80Gab", 1, "b"));
    assert!(rt; both_show(rt.alloc(), b"\x1b[80Ga\rb", 1, ""));
    // Moves count from the last column.
    assert!(rt; both_show(rt.alloc(), b"\x1b[80Ga\x1b[79Db\x1b[80G\x1b[K", 0, "b"));
}

#[test]
fn scrolling(rt: HostRuntime) {
    assert!(rt; both_show(rt.alloc(), b"a\r\nb\x1b[24H\nc", 0, "b"));
    assert!(rt; both_show(rt.alloc(), b"a\r\nb\x1b[24H\nc", 23, "c"));
    assert!(rt; both_show(rt.alloc(), b"a\r\nb\r\nc\x1b[24H\n\n", 0, "c"));
    assert!(rt; both_show(rt.alloc(), b"a\r\nb\x1b[24;80Hcd", 23, "d"));
}

#[test]
fn erasures(rt: HostRuntime) {
    assert!(rt; both_show(rt.alloc(), b"abc\x1b[2G\x1b[K", 0, "a"));
    assert!(rt; both_show(rt.alloc(), b"abc\x1b[2G\x1b[1K", 0, "  c"));
    assert!(rt; both_show(rt.alloc(), b"abc\x1b[2K", 0, ""));
    assert!(rt; both_show(rt.alloc(), b"abc\r\ndef\x1b[1;2H\x1b[J", 0, "a"));
    assert!(rt; both_show(rt.alloc(), b"abc\r\ndef\x1b[1;2H\x1b[J", 1, ""));
    assert!(rt; both_show(rt.alloc(), b"abc\r\ndef\x1b[2D\x1b[1J", 0, ""));
    assert!(rt; both_show(rt.alloc(), b"abc\r\ndef\x1b[2D\x1b[1J", 1, "  f"));
    assert!(rt; both_show(rt.alloc(), b"abc\x1b[2J", 0, ""));
}

#[test]
fn wraps(rt: HostRuntime) {
    // 80 digits, and three letters.
    let line = "01234567890123456789012345678901234567890123456789012345678901234567890123456789";
    let long =
        b"01234567890123456789012345678901234567890123456789012345678901234567890123456789abc";
    assert!(rt; both_show(rt.alloc(), long, 0, line));
    assert!(rt; both_show(rt.alloc(), long, 1, "abc"));
    // The row is full before the run, and after it.
    assert!(rt; both_show(rt.alloc(), b"\x1b[80Ga\x1b[31mbcd", 1, "bcd"));
    assert!(rt; both_show(rt.alloc(), b"\x1b[79Gab\x1b[31m\rc", 1, ""));
    // A run over three rows, and one that scrolls.
    assert!(rt; both_show(rt.alloc(), &[b'a'; 163], 2, "aaa"));
    assert!(rt; both_show(rt.alloc(), &[b'a'; 1923], 23, "aaa"));
    // Characters that aren't ASCII, alone, in a run, and across the end of a row.
    let row = "\u{e9}a\u{20ac}\u{4e2d}\u{6587}b \u{1f600}";
    assert!(rt; both_show(rt.alloc(), row.as_bytes(), 0, row));
    let wrapped = "\x1b[79Ga\u{4e2d}\u{6587}\u{5b57}b";
    assert!(rt; both_show(rt.alloc(), wrapped.as_bytes(), 1, "\u{6587}\u{5b57}b"));
    // 80 characters, and three more.
    let line = "\u{e4}1234567890123456789\u{e4}1234567890123456789\
         \u{e4}1234567890123456789\u{e4}1234567890123456789";
    let long = "\u{e4}1234567890123456789\u{e4}1234567890123456789\
         \u{e4}1234567890123456789\u{e4}1234567890123456789\u{e4}bc";
    assert!(rt; both_show(rt.alloc(), long.as_bytes(), 0, line));
    assert!(rt; both_show(rt.alloc(), long.as_bytes(), 1, "\u{e4}bc"));
    // A malformed byte among letters.
    assert!(rt;
        both_show(
            rt.alloc(),
            b"ab\xffcd\xc3\x28ef",
            0,
            "ab\u{fffd}cd\u{fffd}(ef"
        )
    );
}

/// Returns whether both show these colors and attributes in the first cell, and runs show the same.
fn both_style(
    alloc: Global,
    stream: &[u8],
    foreground: Color,
    background: Color,
    attributes: u32,
) -> bool {
    match processed(alloc, stream) {
        Some(screen) => {
            has_style(screen.row(0), foreground, background, attributes)
                && has_style(parsed(stream).row(0), foreground, background, attributes)
                && runs_agree(alloc, stream)
        }
        None => false,
    }
}

/// Returns whether the first cell of a row has these colors and attributes.
fn has_style(row: &[Cell], foreground: Color, background: Color, attributes: u32) -> bool {
    match row {
        [cell, ..] => {
            cell.style.attributes == attributes
                && prefer_index(cell.style.foreground) == foreground
                && prefer_index(cell.style.background) == background
        }
        _ => false,
    }
}

/// Returns a color, by its index if it has a name and one.
fn prefer_index(color: Color) -> Color {
    match color {
        Color::Named(name) => match name as u16 {
            index @ 0..=15 => Color::Indexed(index as u8),
            _ => color,
        },
        _ => color,
    }
}

#[test]
fn colors(rt: HostRuntime) {
    let front = Color::Named(NamedColor::Foreground);
    let back = Color::Named(NamedColor::Background);
    assert!(rt; both_style(rt.alloc(), b"a", front, back, 0));
    let (red, green) = (Color::Indexed(1), Color::Indexed(2));
    assert!(rt; both_style(rt.alloc(), b"\x1b[31;42ma", red, green, 0));
    let (bright_white, bright_black) = (Color::Indexed(15), Color::Indexed(8));
    assert!(rt; both_style(rt.alloc(), b"\x1b[97;100ma", bright_white, bright_black, 0));
    let (indexed, other) = (Color::Indexed(200), Color::Indexed(7));
    assert!(rt; both_style(rt.alloc(), b"\x1b[38;5;200;48;5;7ma", indexed, other, 0));
    assert!(rt; both_style(rt.alloc(), b"\x1b[38:5:200;48:5:7ma", indexed, other, 0));
    let (one, two) = (Rgb { r: 1, g: 2, b: 3 }, Rgb { r: 4, g: 5, b: 6 });
    let (one, two) = (Color::Spec(one), Color::Spec(two));
    assert!(rt; both_style(rt.alloc(), b"\x1b[38;2;1;2;3;48:2:4:5:6ma", one, two, 0));
    assert!(rt; both_style(rt.alloc(), b"\x1b[31;42m\x1b[39;49ma", front, back, 0));
    // Erased cells get the colors too, and no attribute.
    assert!(rt; both_style(rt.alloc(), b"\x1b[31;42;7m\x1b[K", red, green, 0));
}

#[test]
fn attributes(rt: HostRuntime) {
    let front = Color::Named(NamedColor::Foreground);
    let back = Color::Named(NamedColor::Background);
    // Bold is bit 1, italic bit 3, underline bit 4, reverse bit 7.
    assert!(rt; both_style(rt.alloc(), b"\x1b[1;3;4;7ma", front, back, 0b1001_1010));
    assert!(rt; both_style(rt.alloc(), b"\x1b[1;4;7;22;24ma", front, back, 0b1000_0000));
    assert!(rt; both_style(rt.alloc(), b"\x1b[3;7;23;27ma", front, back, 0));
    assert!(rt; both_style(rt.alloc(), b"\x1b[31;1m\x1b[ma", front, back, 0));
}
