//! Searches for the end of a run of printed text. `run.rt` has the runs that callers take.
//!
//! A word is eight bytes. The first bytes of a run are read one by one before any word is tried, so
//! that no byte is read often. Bytes are read only by `byte_at`, `get_byte`, `get_block` and
//! `get_window`, which count them.
// proof: specs/private/Costs says what the bounds on looks are made of.
ghost use Rattle.std.specs.Prelude.{false, IfSome, IsTrue, length, MatchOption, None, slice_index, true, ◌*◌, ◌+◌, ◌<◌, ◌↔◌, ◌≡◌, ◌≤◌};
ghost use Rattle.vte_core.specs.private.Prelude.{ArePositions, ArePrintedAscii, from_to, HasNoRunAt, is_in, IsPrintedAscii, IsRun, looks_of, LooksWithin, printed_ascii, Scans};

use crate::class::is_layout;
use crate::reader::{CountedPerform, Granularity, Input, Reader};
use crate::utf8::{is_continuation, is_lead, is_printed_ascii, may_begin_four, may_begin_three};

/// How many bytes of a run are read one by one or by words, before blocks.
// Blocks from the 24th byte on took 1.14 times the instructions on lines of prose
// (docs/DECISIONS.md).
// proof: At least 66 bytes, which pay for the looks of blocks (specs/private/Costs).
const SHORT_RUN: usize = 96;

/// The same for a run without ASCII, whose characters cost more one by one.
// proof: At least nine bytes, which pay for the looks of blocks at one look per byte.
const SHORT_NON_ASCII_RUN: usize = 24;

impl Reader {
    /// Returns whether four bytes of printed ASCII begin a run at a position. The caller has found
    /// the first of them, and passes the second as `next_byte`.
    #[inline(always)]
    pub(crate) fn begins_ascii_run(
        &mut self,
        input: Input<'_>,
        from: usize,
        next_byte: Option<u8>,
    ) -> bool
        requires before_end { from < length input.bytes.now }
        requires printed { IsPrintedAscii (slice_index input.bytes.now from) }
        requires next_is { IfSome next_byte
            (λ byte. (from + 1 < length input.bytes.now)
            × (byte ≡ slice_index input.bytes.now (from + 1))) }
        ensures within { result ≡ true → from + 4 ≤ length input.entry.bytes.now }
        ensures printed { result ≡ true → ArePrintedAscii input.entry.bytes.now from (from + 4) }
        ensures looks_at_most { LooksWithin 2 self.old self.new }
    {
        matches!(next_byte, Some(second) if is_printed_ascii(second))
            && matches!(self.get_byte(input, from + 2), Some(third) if is_printed_ascii(third))
            && matches!(self.get_byte(input, from + 3), Some(fourth) if is_printed_ascii(fourth))
    }

    /// Returns the end of the run that starts at `from` with four bytes of ASCII.
    #[inline(never)]
    pub(crate) fn find_ascii_run_end<P: CountedPerform<G>, G: Granularity>(
        &mut self,
        performer: &P,
        input: Input<'_>,
        from: usize,
    ) -> usize
        requires within { from + 4 ≤ length input.bytes.now }
        requires printed { ArePrintedAscii input.bytes.now from (from + 4) }
        ensures reads_some { from < result }
        ensures within { result ≤ length input.entry.bytes.now }
        ensures run { IsRun P.layout input.entry.bytes.now from result }
        ensures looks_at_most { looks_of self.new + 4 * from + 4 ≤ looks_of self.old + 4 * result }
        ensures looks_at_least { looks_of self.old ≤ looks_of self.new }
    {
        let end = self.find_ascii_end_by_words(input, from + 4);
        self.find_run_end(input, end, performer.keeps_layout())
    }

    /// Returns the end of the run that starts at `from` with a character of two or three bytes, or
    /// `from` if no such run starts there.
    ///
    /// Two bytes are tested before anything else, because malformed text seldom has them. For a
    /// character of two bytes, they are its second byte and a lead byte that follows it. For one of
    /// three bytes, they are its second and third byte.
    #[inline(always)]
    pub(crate) fn find_run_end_at_lead<P: CountedPerform<G>, G: Granularity>(
        &mut self,
        performer: &P,
        input: Input<'_>,
        from: usize,
        first: u8,
    ) -> usize
        requires before_end { from < length input.bytes.now }
        requires looked_at { first ≡ slice_index input.bytes.now from }
        requires lead { 0xc2 ≤ first }
        ensures range { ArePositions input.entry.bytes.now from result }
        ensures run { from < result → IsRun P.layout input.entry.bytes.now from result }
        ensures looks_at_most_if_none { result ≡ from → looks_of self.new ≤ looks_of self.old + 2 }
        ensures looks_at_most_if_found { from < result
            → looks_of self.new + 4 * from + 1 ≤ looks_of self.old + 4 * result }
        ensures looks_at_least { looks_of self.old ≤ looks_of self.new }
    {
        match self.get_byte(input, from + 1) {
            Some(second) if is_continuation(second) => match self.get_byte(input, from + 2) {
                Some(third) if first < 0xe0 => {
                    if is_lead(third) && is_printed_pair(first, second) {
                        self.find_run_end_after_non_ascii(performer, input, from + 2)
                    } else {
                        from
                    }
                }
                Some(third)
                    if first < 0xf0 && is_continuation(third) && may_begin_three(first, second) => {
                    self.find_run_end_after_non_ascii(performer, input, from + 3)
                }
                _ => from,
            },
            _ => from,
        }
    }

    /// Returns the end of a run that already reaches `from`, if a character that isn't ASCII was
    /// last.
    // The loop is that of `find_run_end_up_to`, but blocks begin later once the run has had ASCII.
    #[inline(never)]
    pub(crate) fn find_run_end_after_non_ascii<P: CountedPerform<G>, G: Granularity>(
        &mut self,
        performer: &P,
        input: Input<'_>,
        from: usize,
    ) -> usize
        requires { from ≤ length input.bytes.now }
        ensures scans { Scans (IsRun P.layout) input.entry.bytes.now from result self.old self.new }
        ensures looks_at_most { looks_of self.new + 4 * from ≤ looks_of self.old + 4 * result + 4 }
    {
        let layout = performer.keeps_layout();
        let mut to = input.len().min(from + SHORT_NON_ASCII_RUN);
        let mut end = from;
        while end < to {
            let byte = self.byte_at(input, end);
            if is_printed_ascii(byte) {
                end = self.find_ascii_end(input, end + 1);
                to = input.len().min(from + SHORT_RUN);
            } else {
                match self.find_non_ascii_end(input, end, byte, layout) {
                    Some(next) => end = next,
                    None => return end,
                }
            }
        }
        if end == input.len() {
            return end;
        }
        self.find_run_end_by_blocks(input, end, layout)
    }

    /// Returns the end of a run that already reaches `from`, searching bytes and words first, then
    /// blocks. With `layout`, HT, LF and CR don't end it.
    #[inline(always)]
    pub(crate) fn find_run_end(&mut self, input: Input<'_>, from: usize, layout: bool) -> usize
        requires { from ≤ length input.bytes.now }
        ensures scans { Scans (IsRun layout) input.entry.bytes.now from result self.old self.new }
        ensures ended { HasNoRunAt layout input.entry.bytes.now result }
        ensures looks_at_most { looks_of self.new + 4 * from ≤ looks_of self.old + 4 * result + 4 }
    {
        let to = input.len().min(from + SHORT_RUN);
        let end = self.find_run_end_up_to(input, from, to, layout);
        if end < to || end == input.len() {
            end
        } else {
            self.find_run_end_by_blocks(input, end, layout)
        }
    }

    /// Returns the end of a run that already reaches `from`, searching bytes and words alone. The
    /// search also stops after the first character of the run that ends at `to` or later.
    #[inline(always)]
    fn find_run_end_up_to(
        &mut self,
        input: Input<'_>,
        from: usize,
        to: usize,
        layout: bool,
    ) -> usize
        requires range { ArePositions input.bytes.now from to }
        ensures scans { Scans (IsRun layout) input.entry.bytes.now from result self.old self.new }
        ensures ended { result < to → HasNoRunAt layout input.entry.bytes.now result }
        ensures looks_at_most { 3 * looks_of self.new + 11 * from
            ≤ 3 * looks_of self.old + 11 * result + 12 }
        ensures looks_at_most_if_reached { to ≤ result
            → 3 * looks_of self.new + 11 * from ≤ 3 * looks_of self.old + 11 * result }
    {
        let mut end = from;
        while end < to {
            let byte = self.byte_at(input, end);
            if is_printed_ascii(byte) {
                end = self.find_ascii_end(input, end + 1);
            } else {
                match self.find_non_ascii_end(input, end, byte, layout) {
                    Some(next) => end = next,
                    None => return end,
                }
            }
        }
        end
    }

    /// Returns the end of a long run that already reaches `from`, searching blocks first.
    #[inline(never)]
    fn find_run_end_by_blocks(&mut self, input: Input<'_>, from: usize, layout: bool) -> usize
        requires has_three_before { 3 ≤ from }
        requires within { from ≤ length input.bytes.now }
        ensures scans { Scans (IsRun layout) input.entry.bytes.now from result self.old self.new }
        ensures ended { HasNoRunAt layout input.entry.bytes.now result }
        ensures looks_at_most { 3 * looks_of self.new + 11 * from
            ≤ 3 * looks_of self.old + 11 * result + 78 }
    {
        let end = self.skip_run_blocks(input, from, layout);
        self.find_run_end_up_to(input, end, input.len(), layout)
    }

    /// Returns the end of the character at a position, if a run may hold it. Its first byte isn't
    /// printed ASCII.
    #[inline(always)]
    fn find_non_ascii_end(
        &mut self,
        input: Input<'_>,
        from: usize,
        first: u8,
        layout: bool,
    ) -> Option<usize>
        requires before_end { from < length input.bytes.now }
        requires looked_at { first ≡ slice_index input.bytes.now from }
        requires not_printed_ascii { is_in printed_ascii first ≡ false }
        ensures reads_some { IfSome result (λ end. from < end) }
        ensures within { IfSome result (λ end. end ≤ length input.entry.bytes.now) }
        ensures run { IfSome result (IsRun layout input.entry.bytes.now from) }
        ensures ended { result ≡ None → HasNoRunAt layout input.entry.bytes.now from }
        ensures looks_at_most { LooksWithin 3 self.old self.new }
        ensures looks_if_some { IfSome result (λ end. looks_of self.new + from + 1
            ≡ looks_of self.old + end) }
    {
        if !is_lead(first) {
            if layout && is_layout(first) {
                return Some(from + 1);
            }
            return None;
        }
        let second = self.get_byte(input, from + 1)?;
        if first < 0xe0 {
            if is_printed_pair(first, second) {
                return Some(from + 2);
            }
        } else if first < 0xf0 {
            if may_begin_three(first, second) && is_continuation(self.get_byte(input, from + 2)?) {
                return Some(from + 3);
            }
        } else if may_begin_four(first, second)
            && is_continuation(self.get_byte(input, from + 2)?)
            && is_continuation(self.get_byte(input, from + 3)?)
        {
            return Some(from + 4);
        }
        None
    }

    /// Returns the end of printed ASCII that already reaches `from`. Two more bytes are read one by
    /// one, then words.
    #[inline(always)]
    fn find_ascii_end(&mut self, input: Input<'_>, from: usize) -> usize
        requires { from ≤ length input.bytes.now }
        ensures scans { Scans ArePrintedAscii input.entry.bytes.now from result self.old self.new }
        ensures looks_at_most { 3 * looks_of self.new + 11 * from
            ≤ 3 * looks_of self.old + 11 * result + 8 }
    {
        match self.get_byte(input, from) {
            Some(second) if is_printed_ascii(second) => match self.get_byte(input, from + 1) {
                Some(third) if is_printed_ascii(third) => self.find_ascii_end_by_words(
                    input,
                    from + 2,
                ),
                _ => from + 1,
            },
            _ => from,
        }
    }

    /// Returns the position of the first byte from `from` on that isn't printed ASCII. If no word
    /// has one, returns the position after the last word.
    #[inline(always)]
    fn find_ascii_end_by_words(&mut self, input: Input<'_>, from: usize) -> usize
        requires { from ≤ length input.bytes.now }
        ensures scans { Scans ArePrintedAscii input.entry.bytes.now from result self.old self.new }
        ensures looks_at_most { looks_of self.new + from ≤ looks_of self.old + result + 8 }
    {
        let mut end = from;
        while let Some(word) = self.get_block::<8>(input, end) {
            if let Some(position) = find_printed_ascii_end(&word) {
                return end + position;
            }
            end += 8;
        }
        end
    }
}

/// Returns the index of the first of eight bytes that isn't printed ASCII.
#[inline(always)]
fn find_printed_ascii_end(word: &[u8; 8]) -> Option<usize>
    ensures { MatchOption result (ArePrintedAscii word.now 0 8)
        (λ position. (position < 8) × ArePrintedAscii word.now 0 position) }
{
    // The top bit of each byte marks it. From 80 on it is set, and below 20 a subtraction of 20
    // sets it. The borrow of such a byte may also mark a space after it, but the first mark counts.
    let bytes = u64::from_le_bytes(*word);
    let marks = (bytes.wrapping_sub(0x2020_2020_2020_2020) | bytes) & 0x8080_8080_8080_8080;
    if marks == 0 {
        return None;
    }
    Some(marks.trailing_zeros() as usize / 8)
}

/// Returns whether two bytes are a character that isn't a control. The first is the lead byte of a
/// character of two bytes.
#[inline(always)]
fn is_printed_pair(first: u8, second: u8) -> bool
    ensures { IsTrue result ↔ (is_in (from_to 0x80 0xbf) second ≡ true)
        × (first ≡ 0xc2 → 0xa0 ≤ second) }
{
    // U+0080 to U+009F are controls.
    is_continuation(second) && (first != 0xc2 || second >= 0xa0)
}
