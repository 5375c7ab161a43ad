//! Vectors of streams: however the bytes are cut, they make the same calls.
ghost use Rattle.std.specs.Prelude.{◌<◌};

use crate::held::{is_inside_an_update, is_within_limits};
use crate::memory::{Memory, new_processor};
use crate::vector::Vector;
use std::alloc::{Allocator, Global};
use std::io::{self, ErrorKind};
use test_lines::{Answers, CallLines, TestTimeout};
use vte::ansi::{ByCall, Processor};

/// Streams are cut at this many places at most, from their start.
const MAX_CUT: usize = 2048;

/// Returns whether the bytes of a vector make its calls: whole, byte by byte, and cut at every
/// place; and whole and byte by byte without any memory beyond the processor's buffer.
pub(crate) fn is_shown(alloc: Global, vector: &Vector<'_>) -> io::Result<bool> {
    let (stream, calls) = (vector.bytes(alloc)?, vector.calls(alloc)?);
    let (stream, calls) = (stream.as_slice(), calls.as_str());
    let mut same = true;
    for length in [1, usize::MAX] {
        let processor = new_processor(alloc, Answers::Counting)?;
        same = same && makes(processor, CallLines::new(alloc), stream, length, calls)?;
    }
    for length in [1, usize::MAX] {
        let memory = Memory::new(alloc, calls.len())?;
        let (processor, lines) = (
            memory.new_processor(Answers::Counting)?,
            memory.new_lines()?,
        );
        same = same && memory.is_used_up() && makes(processor, lines, stream, length, calls)?;
    }
    for cut in 0..stream.len().min(MAX_CUT) {
        let (front, back) = stream.split_at(cut);
        same = same && makes_in_two(alloc, front, back, calls)?;
    }
    Ok(same)
}

/// Returns whether the bytes of a vector make its prints and attributes, cut at every position with
/// a stop there, and the promises about held bytes are kept after each call.
pub(crate) fn is_shown_with_stops(alloc: Global, vector: &Vector<'_>) -> io::Result<bool> {
    let (stream, calls) = (vector.bytes(alloc)?, vector.calls(alloc)?);
    let mut same = true;
    for cut in 0..=stream.len().min(MAX_CUT) {
        same = same && makes_with_stop(alloc, stream.as_slice(), cut, calls.as_str())?;
    }
    Ok(same)
}

/// Returns whether a stream in chunks of this length makes the calls.
fn makes<A: Allocator, B: Allocator>(
    mut processor: Processor<TestTimeout, A>,
    lines: CallLines<B>,
    stream: &[u8],
    length: usize,
    calls: &str,
) -> io::Result<bool>
    requires { 0 < length }
{
    let mut handler = ByCall(lines);
    for chunk in stream.chunks(length) {
        processor.advance(&mut handler, chunk);
    }
    Ok(text_of(&handler.0)? == calls)
}

/// Returns whether a stream that is cut in two makes the calls.
fn makes_in_two(alloc: Global, front: &[u8], back: &[u8], calls: &str) -> io::Result<bool> {
    let mut processor = new_processor(alloc, Answers::Counting)?;
    let mut handler = ByCall(CallLines::new(alloc));
    processor.advance(&mut handler, front);
    processor.advance(&mut handler, back);
    Ok(text_of(&handler.0)? == calls)
}

/// Returns whether a stream that is cut in two, with a stop there, makes the prints and attributes.
fn makes_with_stop(alloc: Global, stream: &[u8], cut: usize, calls: &str) -> io::Result<bool> {
    let Some((front, back)) = stream.split_at_checked(cut) else {
        return Ok(false);
    };
    let mut processor = new_processor(alloc, Answers::Counting)?;
    let mut handler = ByCall(CallLines::new(alloc));
    processor.advance(&mut handler, front);
    let mut well = keeps_hold_invariant(&processor, front);
    processor.stop_sync(&mut handler);
    well = well && keeps_hold_invariant(&processor, front) && processor.sync_bytes_count() == 0;
    processor.advance(&mut handler, back);
    well = well && keeps_hold_invariant(&processor, stream);
    Ok(well && shown_lines(alloc, text_of(&handler.0)?)?.as_str() == calls)
}

/// Returns whether a processor that was given these bytes keeps the promises about held bytes.
fn keeps_hold_invariant(processor: &Processor<TestTimeout, Global>, given: &[u8]) -> bool {
    is_within_limits(processor, given) && is_inside_an_update(processor, given)
}

pub(crate) fn text_of<A: Allocator>(lines: &CallLines<A>) -> io::Result<&str> {
    lines.text().ok_or(io::Error::from(ErrorKind::OutOfMemory))
}

/// Keeps the lines of prints and attributes.
fn shown_lines(alloc: Global, lines: &str) -> io::Result<String> {
    let mut shown = String::new(alloc);
    for line in lines.lines() {
        if line.starts_with("input ") || line.starts_with("terminal_attribute ") {
            shown.push_str(line)?;
            shown.push('\n')?;
        }
    }
    Ok(shown)
}
