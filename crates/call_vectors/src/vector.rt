//! Test vectors, as the program reads them: blocks of lines, separated by empty lines.
//!
//! The first line of a block is its kind and its name: `stream`, `stops`, `order` or `run`. The
//! other lines are acts on one processor, each followed by its results:
//!
//! - `timeout WORD`: how the timeout of a run answers: `counting`, `always`, `never`,
//!   `alternating` or `expiring`
//! - `advance HEX`, `advances N HEX`: a call of `advance` with these bytes, or N copies of them
//! - `stop_sync`, `expire`: a call of `stop_sync`; the timeout expires
//! - `call LINE`, `calls N LINE`: a handler call, or N of them; in an `order`, also a call of the
//!   timeout
//! - `held N`: N bytes are held
//! - `count N`: the timeout was set N times since it was last cleared
//! - `sets N`, `clears N`: the act has set, or cleared, the timeout N times

use std::alloc::Global;
use std::fmt::Write;
use std::io::{self, ErrorKind};
use std::str::Lines;
use test_lines::Answers;

/// What a vector shows.
#[derive(Clone, Copy)]
pub(crate) enum Kind {
    /// Its bytes make its calls, however they are cut.
    Stream,
    /// Its bytes make its prints and attributes, with a stop at the cut.
    Stops,
    /// Its bytes make its calls of the handler and the timeout, in this order, in chunks of every
    /// length.
    Order,
    /// Each act makes the calls that follow it.
    Run,
}

#[derive(Clone, Copy)]
pub(crate) struct Vector<'a> {
    pub(crate) kind: Kind,
    pub(crate) name: &'a str,
    lines: &'a str,
}

/// A line of a vector, after the first.
#[derive(Clone, Copy)]
pub(crate) enum Line<'a> {
    Timeout(Answers),
    Advance(Repeated<'a>),
    StopSync,
    Expire,
    Call(Repeated<'a>),
    Held(usize),
    Count(u64),
    Sets(u64),
    Clears(u64),
}

/// A text that is repeated.
#[derive(Clone, Copy)]
pub(crate) struct Repeated<'a> {
    times: u64,
    text: &'a str,
}

impl<'a> Vector<'a> {
    /// Reads the vector of a block, unless its first line names no kind.
    pub(crate) fn read(block: &'a str) -> Option<Self> {
        let (first, lines) = block.split_once('\n')?;
        let (kind, name) = first.split_once(' ')?;
        let kind = match kind {
            "stream" => Kind::Stream,
            "stops" => Kind::Stops,
            "order" => Kind::Order,
            "run" => Kind::Run,
            _ => return None,
        };
        Some(Vector { kind, name, lines })
    }

    pub(crate) fn lines(&self) -> Lines<'a> {
        self.lines.lines()
    }

    /// Returns how its timeout answers.
    pub(crate) fn answers(&self) -> io::Result<Answers> {
        for line in self.lines() {
            if let Line::Timeout(answers) = Line::read(line)? {
                return Ok(answers);
            }
        }
        Ok(Answers::Counting)
    }

    /// Returns all of its bytes.
    pub(crate) fn bytes(&self, alloc: Global) -> io::Result<Vec<u8>> {
        let mut bytes = Vec::new(alloc);
        for line in self.lines() {
            if let Line::Advance(chunk) = Line::read(line)? {
                chunk.add_bytes(alloc, &mut bytes)?;
            }
        }
        Ok(bytes)
    }

    /// Returns the lines of all of its calls.
    pub(crate) fn calls(&self, alloc: Global) -> io::Result<String> {
        let mut calls = String::new(alloc);
        for line in self.lines() {
            if let Line::Call(call) = Line::read(line)? {
                call.add_lines(&mut calls)?;
            }
        }
        Ok(calls)
    }
}

impl<'a> Line<'a> {
    /// Reads a line.
    ///
    /// # Errors
    ///
    /// Fails with `InvalidData` if the line has no meaning.
    pub(crate) fn read(line: &'a str) -> io::Result<Self> {
        let (word, rest) = line.split_once(' ').unwrap_or((line, ""));
        Self::of_word(word, rest).ok_or(io::Error::from(ErrorKind::InvalidData))
    }

    fn of_word(word: &'a str, rest: &'a str) -> Option<Self> {
        Some(match word {
            "timeout" => Line::Timeout(Answers::from_name(rest)?),
            "advance" => Line::Advance(Repeated::once(rest)),
            "advances" => Line::Advance(Repeated::read(rest)?),
            "stop_sync" => Line::StopSync,
            "expire" => Line::Expire,
            "call" => Line::Call(Repeated::once(rest)),
            "calls" => Line::Call(Repeated::read(rest)?),
            "held" => Line::Held(rest.parse().ok()?),
            "count" => Line::Count(rest.parse().ok()?),
            "sets" => Line::Sets(rest.parse().ok()?),
            "clears" => Line::Clears(rest.parse().ok()?),
            _ => return None,
        })
    }
}

impl<'a> Repeated<'a> {
    fn once(text: &'a str) -> Self {
        Repeated { times: 1, text }
    }

    fn read(rest: &'a str) -> Option<Self> {
        let (times, text) = rest.split_once(' ')?;
        Some(Repeated {
            times: times.parse().ok()?,
            text,
        })
    }

    /// Appends the text as lines.
    pub(crate) fn add_lines(&self, lines: &mut String) -> io::Result<()> {
        for _ in 0..self.times {
            writeln!(lines, "{}", self.text).map_err(|_| io::Error::from(ErrorKind::OutOfMemory))?;
        }
        Ok(())
    }

    /// Appends the bytes that the text gives in hex.
    pub(crate) fn add_bytes(&self, alloc: Global, bytes: &mut Vec<u8>) -> io::Result<()> {
        let unit = hex::decode(alloc, self.text).map_err(|_| io::Error::from(
            ErrorKind::InvalidData,
        ))?;
        for _ in 0..self.times {
            bytes.extend_from_slice(unit.as_slice())?;
        }
        Ok(())
    }
}
