//! Processors and handlers with as much memory as they need, or with only what they allocate first.

use linked_list_allocator::LocalHeap;
use std::alloc::{Allocator, Global};
use std::io;
use test_lines::{Answers, CallLines, TestTimeout, require_memory};
use vte::ansi::Processor;

/// The size of the buffer that a processor allocates.
const HOLD: usize = 2_097_152;

/// Creates a processor that has read nothing.
pub(crate) fn new_processor<A: Allocator>(
    alloc: A,
    answers: Answers,
) -> io::Result<Processor<TestTimeout, A>> {
    Ok(require_memory(Processor::new(alloc, TestTimeout::new(answers)))?)
}

/// The memory of one processor and of the lines of one handler.
#[derive(Drop)]
pub(crate) struct Memory {
    hold: LocalHeap,
    lines: LocalHeap,
}

impl Memory {
    /// Allocates memory for a processor and for `lines` bytes of lines.
    pub(crate) fn new(alloc: Global, lines: usize) -> io::Result<Self> {
        Ok(Memory {
            hold: LocalHeap::new(alloc, HOLD)?,
            lines: LocalHeap::new(alloc, lines)?,
        })
    }

    /// Creates a processor, which takes all of its memory.
    pub(crate) fn new_processor(
        &self,
        answers: Answers,
    ) -> io::Result<Processor<TestTimeout, &LocalHeap>> {
        new_processor(&self.hold, answers)
    }

    /// Creates a log without lines, which takes all of its memory.
    pub(crate) fn new_lines(&self) -> io::Result<CallLines<&LocalHeap>> {
        Ok(CallLines::with_capacity(&self.lines, self.lines.size())?)
    }

    /// Returns whether nothing is left, so that every growth is refused.
    pub(crate) fn is_used_up(&self) -> bool {
        self.hold.free() == 0 && self.lines.free() == 0
    }
}
