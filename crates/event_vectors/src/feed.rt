//! Feeds streams to a parser, in chunks, character by character or in runs of text, or with an
//! early stop.

use test_lines::EventLines;
use vte_core::{Parser, Saved};

/// Calls a function with a new parser whose buffer has this size, if it is one of those that are
/// listed here. Returns whether it is.
macro_rules! with_parser {
    ($size:ident, $parser:ident => $call:expr) => {
        with_parser!($size, $parser => $call; 0, 1, 2, 5, 30, 32, 1024)
    };
    ($size:ident, $parser:ident => $call:expr; $($listed:literal),*) => {
        match $size {
            $($listed => {
                let $parser = &mut Parser::<$listed>::new_with_size();
                $call;
                true
            })*
            _ => false,
        }
    };
}

/// How text is reported.
#[derive(Clone, Copy)]
pub(crate) enum Text {
    /// By `advance`.
    Characters,
    /// By `advance_text`.
    Runs,
    /// By both in turn, chunk by chunk.
    InTurn,
}

fn feed<const N: usize>(
    parser: &mut Parser<N>,
    lines: &mut EventLines,
    text: Text,
    chunks: &[&[u8]],
) {
    let mut is_in_runs = matches!(text, Text::Runs);
    for chunk in chunks {
        if is_in_runs {
            parser.advance_text(lines, chunk);
        } else {
            parser.advance(lines, chunk);
        }
        if let Text::InTurn = text {
            is_in_runs = !is_in_runs;
        }
    }
}

/// Feeds the chunks to a new parser whose buffer has `size` bytes. Returns false for a size that
/// `with_parser` doesn't list.
pub(crate) fn feed_new(size: usize, lines: &mut EventLines, text: Text, chunks: &[&[u8]]) -> bool {
    with_parser!(size, parser => feed(parser, lines, text, chunks))
}

/// Reads until the performer asks for a stop, and then the unread bytes in one call.
fn stop<const N: usize>(parser: &mut Parser<N>, lines: &mut EventLines, bytes: &[u8]) {
    let read = parser.advance_until_terminated(lines, bytes);
    parser.advance(lines, &bytes[read..]);
}

/// Does this with a new parser whose buffer has `size` bytes. Returns false for a size that
/// `with_parser` doesn't list.
pub(crate) fn feed_with_stop(size: usize, lines: &mut EventLines, bytes: &[u8]) -> bool {
    with_parser!(size, parser => stop(parser, lines, bytes))
}

/// Feeds the chunks to a parser that is saved after each and restored before the next.
pub(crate) fn feed_saved(lines: &mut EventLines, chunks: &[&[u8]]) {
    let mut saved = Saved::new();
    for chunk in chunks {
        let mut parser = Parser::new();
        parser.restore(&saved);
        parser.advance(lines, chunk);
        parser.save(&mut saved);
    }
}
