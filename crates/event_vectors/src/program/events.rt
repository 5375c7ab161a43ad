//! What a parser tells of a stream, as lines.

use crate::program::frames::Frame;
use std::alloc::Global;
use std::io::{self, ErrorKind, Write};
use test_lines::{EventLines, Stop};
use vte_core::Parser;

/// A parser, and the lines of its events so far.
#[derive(Drop)]
pub(crate) struct Events {
    parser: Parser<1024>,
    lines: EventLines,
    is_in_runs: bool,
}

impl Events {
    pub(crate) fn new(alloc: Global) -> Self {
        Events {
            parser: Parser::new_with_size(),
            lines: EventLines::new(alloc, Stop::Never),
            is_in_runs: false,
        }
    }

    pub(crate) fn take(&mut self, frame: Frame<'_>) {
        match frame {
            Frame::TextInRuns => self.is_in_runs = true,
            Frame::Chunk(chunk) if self.is_in_runs => {
                self.parser.advance_text(&mut self.lines, chunk);
            }
            Frame::Chunk(chunk) => self.parser.advance(&mut self.lines, chunk),
            _ => {}
        }
    }

    /// Writes and clears the lines. The next stream has a new parser.
    pub(crate) fn end<W: Write>(&mut self, output: &mut W) -> io::Result<()> {
        let text = self
            .lines
            .text()
            .ok_or(io::Error::from(ErrorKind::OutOfMemory))?;
        output.write_all(text.as_bytes())?;
        self.lines.clear();
        self.parser = Parser::new_with_size();
        self.is_in_runs = false;
        Ok(())
    }
}
