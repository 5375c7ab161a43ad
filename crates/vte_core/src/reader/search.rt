//! Searches for the byte that ends data, a text or a string.
//!
//! Ignored strings may hold megabytes, so they are searched by blocks. Their first bytes are read
//! one by one before any block is tried, so that no byte is read often. Bytes are read only by
//! `byte_at`, `get_block` and `find_escape`, which count them.
ghost use Rattle.std.specs.Prelude.{IsTrue, length, min, slice_index, true, ℕ, ◌*◌, ◌+◌, ◌<◌, ◌≡◌, ◌≢◌, ◌≤◌};
ghost use Rattle.vte_core.specs.private.Prelude.{AreIgnored, ArePositions, class_of, ends_sequence, escape, FindsEnd, IsCommandData, IsDeviceData, looks_of, Scans};

use crate::class::{cannot_end, ends_sequence, is_command_data, is_device_data};
use crate::reader::{Input, Reader};

impl Reader {
    /// Returns the end of the data of an operating system command that starts at `from`: the
    /// position of the next `;` or control, or the length of the input.
    pub(crate) fn find_command_data_end(&mut self, input: Input<'_>, from: usize) -> usize
        requires { from ≤ length input.bytes.now }
        ensures { FindsEnd IsCommandData input.entry.bytes.now from result self.old self.new }
    {
        for end in from..input.len() {
            if !is_command_data(self.byte_at(input, end)) {
                return end;
            }
        }
        input.len()
    }

    /// Returns the end of the data of a device control string that starts at `from`: the position
    /// of the next byte that isn't put, or the length of the input.
    pub(crate) fn find_device_data_end(&mut self, input: Input<'_>, from: usize) -> usize
        requires { from ≤ length input.bytes.now }
        ensures { FindsEnd IsDeviceData input.entry.bytes.now from result self.old self.new }
    {
        for end in from..input.len() {
            if !is_device_data(self.byte_at(input, end)) {
                return end;
            }
        }
        input.len()
    }

    /// Returns the end of the bytes of a text that are read next: the position after the next ESC,
    /// or the end of the search if it found none.
    // Inlined, it would make the loop over bytes longer.
    // cargo: #[inline(never)]
    pub(crate) fn find_text_part_end<const MAY_STOP: bool>(
        &mut self,
        input: Input<'_>,
        text_start: usize,
        from: usize,
    ) -> usize
        requires in_order { text_start < from }
        requires before_end { from < length input.bytes.now }
        ensures reads_some { from < result }
        ensures within { result ≤ length input.entry.bytes.now }
        ensures no_escape { (k : ℕ) → from ≤ k → k + 1 < result
            → slice_index input.entry.bytes.now k ≢ escape }
        ensures looks { looks_of self.new + from ≡ looks_of self.old + result }
        ensures unread_at_most_read { MAY_STOP ≡ true → result + text_start ≤ from + from }
    {
        let to = if MAY_STOP {
            // After a stop, searched bytes may be unread, so no more are searched than were read.
            from + (from - text_start).min(input.len() - from)
        } else {
            input.len()
        };
        let escape = self.find_escape(input.take_prefix(to), from);
        escape + usize::from(escape < to)
    }

    /// Returns the position of the CAN, SUB or ESC that ends an ignored string, or the length of
    /// the input if it has none from `from` on.
    pub(crate) fn find_ignored_string_end(&mut self, input: Input<'_>, from: usize) -> usize
        requires { from ≤ length input.bytes.now }
        ensures scans { Scans AreIgnored input.entry.bytes.now from result self.old self.new }
        ensures ended { result < length input.entry.bytes.now
            → ends_sequence (class_of (slice_index input.entry.bytes.now result)) ≡ true }
        ensures looks_at_most { looks_of self.new + 4 * from ≤ looks_of self.old + 4 * result + 1 }
    {
        let near_end = input.len().min(from + 8);
        let mut end = self.find_ending_byte(input, from, near_end);
        if end - from < 8 {
            return end;
        }
        while let Some(block) = self.get_block::<16>(input, end) {
            if !is_ignored_block(&block) {
                break;
            }
            end += 16;
        }
        self.find_ending_byte(input, end, input.len())
    }

    /// Returns the position of the first CAN, SUB or ESC from `from` on, or `to` if there is none
    /// before it.
    #[inline(always)]
    fn find_ending_byte(&mut self, input: Input<'_>, from: usize, to: usize) -> usize
        requires range { ArePositions input.bytes.now from to }
        ensures in_order { from ≤ result }
        ensures within { result ≤ to }
        ensures ignored { AreIgnored input.entry.bytes.now from result }
        ensures ended { result < to
            → ends_sequence (class_of (slice_index input.entry.bytes.now result)) ≡ true }
        ensures looks { looks_of self.new + from ≡ looks_of self.old + min (result + 1) to }
    {
        for end in from..to {
            if ends_sequence(self.byte_at(input, end)) {
                return end;
            }
        }
        to
    }
}

/// Returns whether none of 16 bytes can end a string.
#[inline(always)]
fn is_ignored_block(block: &[u8; 16]) -> bool
    ensures { IsTrue result → AreIgnored block.now 0 16 }
{
    let mut all = true;
    for byte in block {
        all &= cannot_end(*byte);
    }
    all
}
