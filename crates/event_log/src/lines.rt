//! A buffer of lines or text, each appended whole or not at all.
ghost use Rattle.std.specs.Prelude.{false, length, [], ◌+◌, ◌≡◌};
ghost use Rattle.event_log.specs.CollectedText.{capacity, collected_text_of, empty_text, is_to_be_written, with_text};
ghost use Rattle.event_log.specs.private.Line.{BeginsLine, EndsLine, ExtendsLine};

mod fields;
mod hex;

use arrayvec::ArrayVec;
pub(crate) use hex::{line_of_execute, line_of_put};

/// The size of a buffer.
const CAPACITY: usize = 8192;

/// A buffer of 8,192 bytes for lines or text, each appended whole or not at all.
///
/// What doesn't fit is dropped. The buffer never allocates.
// cargo instead:
/// Once anything was dropped, [`lost`](Self::lost) is true until [`clear`](Self::clear).
#[derive(Drop)]
pub struct LogBuffer {
    /// What was appended, and after it what has been pushed of the next line.
    bytes: ArrayVec<u8, CAPACITY>,
    /// The start of the line that is being written.
    start: usize,
    /// Whether all of it has fitted so far.
    fits: bool,
    /// Whether anything was dropped since the last `clear`.
    lost: bool,
}

impl LogBuffer {
    /// Creates an empty buffer.
    pub fn new() -> Self
        ensures { collected_text_of result ≡ empty_text }
    {
        LogBuffer {
            bytes: ArrayVec::new(),
            start: 0,
            fits: true,
            lost: false,
        }
    }

    /// Returns what was appended.
    pub fn bytes(&self) -> &[u8]
        ensures { result.now ≡ (collected_text_of self.now).bytes }
    {
        self.bytes.as_slice()
    }

    /// Returns the number of bytes in the buffer.
    // cargo lacks: not used
    pub fn len(&self) -> usize
        ensures { result ≡ length (collected_text_of self.now).bytes }
    {
        self.bytes.len()
    }

    /// Returns the number of bytes that still fit.
    pub(crate) fn remaining_capacity(&self) -> usize
        ensures { length (collected_text_of self.now).bytes + result ≡ capacity }
    {
        CAPACITY - self.bytes.len()
    }

    /// Returns whether more than half of the capacity is in use: then the bytes should be written.
    pub(crate) fn is_to_be_written(&self) -> bool
        ensures { result ≡ is_to_be_written (collected_text_of self.now) }
    {
        self.bytes.len() > CAPACITY / 2
    }

    /// Returns whether anything was dropped since the last `clear`.
    // cargo lacks: not used
    pub fn lost(&self) -> bool
        ensures { result ≡ (collected_text_of self.now).lost }
    {
        self.lost
    }

    /// Removes all bytes, and forgets that any was lost.
    pub fn clear(&mut self)
        ensures { collected_text_of self.new ≡ empty_text }
    {
        self.bytes.clear();
        self.lost = false;
    }

    /// Appends a text, or drops it if there isn't room for all of it.
    #[inline]
    #[tactic(auto, unfolding(crate::specs::CollectedText::with_text))]
    pub fn append(&mut self, text: &[u8])
        ensures { collected_text_of self.new ≡ with_text (collected_text_of self.old) text.now }
    {
        if self.bytes.try_extend_from_slice(text).is_err() {
            self.lost = true;
        }
    }

    /// Begins a line. What is pushed until `end` belongs to it.
    pub(crate) fn begin(&mut self)
        ensures { BeginsLine self.old self.new }
    {
        self.start = self.bytes.len();
        self.fits = true;
    }

    /// Adds a text to the line, if it fits and everything before it in the line did.
    pub(crate) fn push(&mut self, text: &[u8])
        ensures { ExtendsLine self.old text.now self.new }
    {
        if self.fits {
            self.fits = self.bytes.try_extend_from_slice(text).is_ok();
        }
    }

    /// Ends the line, and removes it if it didn't fit.
    pub(crate) fn end(&mut self)
        ensures { EndsLine self.old self.new }
    {
        if !self.fits {
            self.bytes.truncate(self.start);
            self.lost = true;
        }
    }
}
