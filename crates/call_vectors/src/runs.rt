//! Vectors of acts on one processor: what each act makes, and what is held after it.

use crate::held::{is_inside_an_update, is_within_limits};
use crate::memory::{Memory, new_processor};
use crate::streams::text_of;
use crate::vector::{Line, Vector};
use std::alloc::{Allocator, Global};
use std::io;
use test_lines::{Answers, CallLines, TestTimeout};
use vte::ansi::{ByCall, Processor};

/// Returns whether each act of a vector has its results, with memory and without any beyond the
/// processor's buffer.
pub(crate) fn is_shown(alloc: Global, vector: &Vector<'_>) -> io::Result<bool> {
    let processor = new_processor(alloc, vector.answers()?)?;
    let run = Run::new(alloc, processor, CallLines::new(alloc));
    if !run.is_made(alloc, vector)? {
        return Ok(false);
    }
    let memory = Memory::new(alloc, vector.calls(alloc)?.len())?;
    let processor = memory.new_processor(vector.answers()?)?;
    let run = Run::new(alloc, processor, memory.new_lines()?);
    Ok(memory.is_used_up() && run.is_made(alloc, vector)?)
}

/// A processor, the calls expected of its last act, and whether all matched the vector so far.
#[derive(Drop)]
struct Run<A: Allocator, B: Allocator> {
    processor: Processor<TestTimeout, A>,
    handler: ByCall<CallLines<B>>,
    /// All bytes that the processor was given.
    given: Vec<u8>,
    calls: String,
    /// How many times the timeout was set and cleared before the last act.
    sets: u64,
    clears: u64,
    same: bool,
}

impl<A: Allocator, B: Allocator> Run<A, B> {
    fn new(alloc: Global, processor: Processor<TestTimeout, A>, lines: CallLines<B>) -> Self {
        Run {
            processor,
            handler: ByCall(lines),
            given: Vec::new(alloc),
            calls: String::new(alloc),
            sets: 0,
            clears: 0,
            same: true,
        }
    }

    fn is_made(mut self, alloc: Global, vector: &Vector<'_>) -> io::Result<bool> {
        for line in vector.lines() {
            self.take(alloc, &Line::read(line)?)?;
        }
        self.settle()?;
        Ok(self.same)
    }

    fn take(&mut self, alloc: Global, line: &Line<'_>) -> io::Result<()> {
        match line {
            Line::Timeout(_answers) => {}
            Line::Advance(bytes) => {
                self.settle()?;
                let mut chunk = Vec::new(alloc);
                bytes.add_bytes(alloc, &mut chunk)?;
                self.processor.advance(&mut self.handler, chunk.as_slice());
                self.given.extend_from_slice(chunk.as_slice())?;
                self.same = self.same && self.keeps_hold_invariant();
            }
            Line::StopSync => {
                self.settle()?;
                self.processor.stop_sync(&mut self.handler);
                self.same = self.same && self.processor.sync_bytes_count() == 0;
            }
            Line::Expire => {
                self.settle()?;
                self.processor.sync_timeout().expire();
            }
            Line::Call(call) => call.add_lines(&mut self.calls)?,
            _ => self.same = self.same && self.is_so(line),
        }
        Ok(())
    }

    /// Returns whether the promises about held bytes are kept.
    fn keeps_hold_invariant(&self) -> bool {
        let (processor, given) = (&self.processor, self.given.as_slice());
        let is_kept = matches!(processor.sync_timeout().answers, Answers::Counting);
        is_within_limits(processor, given) && (!is_kept || is_inside_an_update(processor, given))
    }

    /// Returns whether a line about held bytes or the timeout is right.
    fn is_so(&self, line: &Line<'_>) -> bool {
        let timeout = self.processor.sync_timeout();
        match line {
            Line::Held(held) => self.processor.sync_bytes_count() == *held,
            Line::Count(count) => timeout.count == *count,
            Line::Sets(sets) => timeout.sets == self.sets.saturating_add(*sets),
            Line::Clears(clears) => timeout.clears == self.clears.saturating_add(*clears),
            _ => false,
        }
    }

    /// Ends an act: its calls must be those of the vector.
    fn settle(&mut self) -> io::Result<()> {
        self.same = self.same && text_of(&self.handler.0)? == self.calls.as_str();
        self.handler.0.clear();
        self.calls.clear();
        let timeout = self.processor.sync_timeout();
        self.sets = timeout.sets;
        self.clears = timeout.clears;
        Ok(())
    }
}
