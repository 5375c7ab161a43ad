//! Vectors, worked out by hand. `tools/make_vectors` writes the tables whose first lines say so.

mod basics;
mod characters;
mod cuts;
pub(crate) mod failing_reads;
pub(crate) mod long;
pub(crate) mod long_lines;
mod parameters;
pub(crate) mod plain;
pub(crate) mod stops;
mod strings;

use std::alloc::{AllocError, Global};
use test_lines::Stop;

/// Returns the tables of short streams and the lines of their events. No other function names them:
/// each that does costs a proof over the whole table.
pub(crate) fn tables() -> [&'static [LinesVector]; 5] {
    [
        &basics::VECTORS,
        &parameters::VECTORS,
        &characters::VECTORS,
        &strings::VECTORS,
        &cuts::VECTORS,
    ]
}

/// The size of the buffer of a parser that can be saved, and of the parser of a run.
pub(crate) const DEFAULT_SIZE: usize = 1024;

/// A stream in chunks, for a parser whose buffer has `size` bytes.
pub(crate) struct LinesVector {
    pub(crate) name: &'static str,
    pub(crate) size: usize,
    pub(crate) chunks: &'static [&'static [u8]],
    pub(crate) lines: &'static [&'static str],
}

impl LinesVector {
    /// Returns the whole stream.
    pub(crate) fn bytes(&self, alloc: Global) -> Result<Vec<u8>, AllocError> {
        let mut bytes = Vec::new(alloc);
        for chunk in self.chunks {
            bytes.extend_from_slice(chunk)?;
        }
        Ok(bytes)
    }

    /// Returns the lines of all its events.
    pub(crate) fn text(&self, alloc: Global) -> Result<String, AllocError> {
        joined_lines(alloc, self.lines)
    }
}

/// Returns lines with an LF after each.
pub(crate) fn joined_lines(alloc: Global, lines: &[&str]) -> Result<String, AllocError> {
    let mut text = String::new(alloc);
    for line in lines {
        text.push_str(line)?;
        text.push_str("\n")?;
    }
    Ok(text)
}

/// A long stream in one chunk.
pub(crate) struct LongVector {
    pub(crate) name: &'static str,
    pub(crate) size: usize,
    pub(crate) bytes: RepeatedBytes,
    pub(crate) text: RepeatedText,
}

/// `front`, then `times` times `unit`, then `back`.
pub(crate) struct RepeatedBytes {
    pub(crate) front: &'static [u8],
    pub(crate) unit: &'static [u8],
    pub(crate) times: usize,
    pub(crate) back: &'static [u8],
}

/// `front`, then `times` times `unit`, then `back`: all lines, each with its LF.
pub(crate) struct RepeatedText {
    pub(crate) front: &'static str,
    pub(crate) unit: &'static str,
    pub(crate) times: usize,
    pub(crate) back: &'static str,
}

/// Calls of a parser that has read `before`, with a performer that asks for a stop at `stop`.
pub(crate) struct StopVector {
    pub(crate) name: &'static str,
    pub(crate) stop: Stop,
    pub(crate) before: &'static [u8],
    pub(crate) calls: &'static [ExpectedCall],
}

/// A call, and the lines of the events that it reports.
pub(crate) struct ExpectedCall {
    pub(crate) method: Method,
    pub(crate) bytes: &'static [u8],
    pub(crate) lines: &'static [&'static str],
}

pub(crate) enum Method {
    Advance,
    UntilTerminated { answer: usize },
}

/// A stream and its plain text.
pub(crate) struct PlainVector {
    pub(crate) name: &'static str,
    pub(crate) bytes: &'static [u8],
    pub(crate) text: &'static [u8],
}

/// The chunks that a reader gives before it fails, and the lines that are written for them.
pub(crate) struct FailingReadVector {
    pub(crate) name: &'static str,
    pub(crate) reads: &'static [&'static [u8]],
    pub(crate) lines: &'static [&'static str],
}

/// A stream, the number of bytes that a recorder holds after it, and whether a line was lost.
pub(crate) struct LongLineVector {
    pub(crate) name: &'static str,
    pub(crate) stream: RepeatedBytes,
    pub(crate) bytes: usize,
    pub(crate) lost: bool,
}
