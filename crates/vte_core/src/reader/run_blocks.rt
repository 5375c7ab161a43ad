//! Long runs, by blocks.
//!
//! Whether a byte fits depends only on the three bytes before it. So no test waits for another, and
//! compilers turn the tests of a block into vector instructions if they have no `&&` and `||`. But
//! the block in which a run ends is read without use, so only long runs come here.
// proof: specs/private/Costs says what the bounds on looks are made of.
ghost use Rattle.std.specs.Prelude.{length, slice_index, true, ℕ, ◌*◌, ◌+◌, ◌-◌, ◌<◌, ◌≡◌, ◌≤◌};
ghost use Rattle.vte_core.specs.private.Automaton.{Follows, FollowsAt, open_count, StaysBetweenCharacters};
ghost use Rattle.vte_core.specs.private.Prelude.{Each, IsRun, looks_of, Scans};

use crate::class::is_layout;
use crate::reader::{Input, Reader, Window};
use crate::utf8::{is_continuation, is_printed_ascii};

/// How many blocks in a row must be ASCII before larger blocks are tried. In text with a few other
/// characters, most larger blocks would be read without use. ASCII without line ends has been read
/// by words.
const ASCII_BLOCKS: usize = 4;

impl Reader {
    /// Skips blocks of a run, and returns the end of the last whole character in them. With
    /// `layout`, the run may hold HT, LF and CR. A block with a byte that doesn't fit, or with
    /// another control, isn't skipped.
    #[inline(never)]
    pub(crate) fn skip_run_blocks(&mut self, input: Input<'_>, from: usize, layout: bool) -> usize
        requires has_three_before { 3 ≤ from }
        requires within { from ≤ length input.bytes.now }
        ensures scans { Scans (IsRun layout) input.entry.bytes.now from result self.old self.new }
        ensures looks_at_most { 3 * looks_of self.new + 11 * from
            ≤ 3 * looks_of self.old + 11 * result + 66 }
    {
        if self.count_open_bytes(input, from) > 0 {
            return from;
        }
        let mut end = from;
        // Two are enough at first, since most runs are of ASCII.
        let mut ascii_blocks = ASCII_BLOCKS / 2;
        let enough = if layout { ASCII_BLOCKS } else { usize::MAX };
        while let Some(window) = self.get_window(input, end - 3) {
            if !continues_run(&window, layout) {
                break;
            }
            end += 16;
            ascii_blocks = if is_ascii(&window.current) {
                ascii_blocks + 1
            } else {
                0
            };
            if ascii_blocks >= enough {
                ascii_blocks = 0;
                end = self.skip_ascii_blocks(input, end);
            }
        }
        if end == from {
            return from;
        }
        end - self.count_open_bytes(input, end)
    }

    /// Skips blocks of printed ASCII, HT, LF and CR from a position on, if no character is open.
    #[inline(always)]
    fn skip_ascii_blocks(&mut self, input: Input<'_>, from: usize) -> usize
        requires has_three_before { 3 ≤ from }
        requires within { from ≤ length input.bytes.now }
        ensures in_order { from ≤ result }
        ensures within { result ≤ length input.entry.bytes.now }
        ensures none_open { from < result
            → open_count (slice_index input.entry.bytes.now (from - 3))
            (slice_index input.entry.bytes.now (from - 2))
            (slice_index input.entry.bytes.now (from - 1)) ≡ 0 }
        ensures stays_between { Each StaysBetweenCharacters input.entry.bytes.now from result }
        // Three bytes before `from`, and the block that isn't skipped. At least two blocks of 16
        // bytes, which `skip_run_blocks` has skipped before, pay for these.
        ensures looks_at_most { looks_of self.new + from ≤ looks_of self.old + result + 35 }
        ensures looks_at_least { looks_of self.old + result ≤ looks_of self.new + from }
    {
        if self.count_open_bytes(input, from) > 0 {
            return from;
        }
        let mut end = from;
        while let Some(block) = self.get_block::<32>(input, end) {
            if !are_printed_or_layout(&block) {
                break;
            }
            end += 32;
        }
        end
    }

    /// Returns how many bytes before a position belong to a character that is open there, at most
    /// three.
    #[inline(always)]
    fn count_open_bytes(&mut self, input: Input<'_>, position: usize) -> usize
        requires has_three_before { 3 ≤ position }
        requires within { position ≤ length input.bytes.now }
        ensures value { result ≡ open_count (slice_index input.entry.bytes.now (position - 3))
            (slice_index input.entry.bytes.now (position - 2))
            (slice_index input.entry.bytes.now (position - 1)) }
        ensures looks_at_most { looks_of self.new ≤ looks_of self.old + 3 }
        ensures looks_at_least { looks_of self.old ≤ looks_of self.new }
    {
        if self.byte_at(input, position - 1) >= 0xc0 {
            1
        } else if self.byte_at(input, position - 2) >= 0xe0 {
            2
        } else if self.byte_at(input, position - 3) >= 0xf0 {
            3
        } else {
            0
        }
    }
}

/// Returns whether 16 bytes are ASCII. The answer decides only which blocks are tried next.
#[inline(always)]
fn is_ascii(block: &[u8; 16]) -> bool {
    let mut all = true;
    for byte in block {
        all &= *byte < 0x80;
    }
    all
}

/// Returns whether 32 bytes are printed ASCII, HT, LF or CR.
#[inline(always)]
fn are_printed_or_layout(block: &[u8; 32]) -> bool
    ensures { result ≡ true → Each StaysBetweenCharacters block.now 0 32 }
{
    let mut all = true;
    for byte in block {
        all &= is_printed_ascii(*byte) | is_layout(*byte);
    }
    all
}

/// Returns whether the 16 bytes of a window continue a run, after the three bytes before them.
#[inline(always)]
fn continues_run(window: &Window, layout: bool) -> bool
    ensures { result ≡ true → (k : ℕ) → k < 16 → FollowsAt layout window.now k }
{
    let mut all = true;
    for k in 0..16 {
        all &= may_follow(
            window.three_back[k],
            window.two_back[k],
            window.one_back[k],
            window.current[k],
            layout,
        );
    }
    all
}

/// Returns whether a byte may follow these three in a run.
#[inline(always)]
fn may_follow(three_back: u8, two_back: u8, one_back: u8, byte: u8, layout: bool) -> bool
    ensures { result ≡ true → Follows layout three_back two_back one_back byte }
{
    // Vectors have one instruction for each of these, and two for a comparison.
    let begun_earlier = two_back
        .saturating_sub(0xdf)
        .max(three_back.saturating_sub(0xef));
    let is_open = one_back.saturating_sub(0xbf).max(begun_earlier) > 0;
    let is_unused = (byte == 0xc0) | (byte == 0xc1);
    let is_other = ((byte < 0x20) | (byte >= 0xf5)) & !(is_layout(byte) & layout);
    // These exclude the second bytes of overlong forms, surrogates, numbers above U+10FFFF
    // (Unicode, table 3-7) and controls.
    let is_low = (byte >= 0x80) & (byte < 0xa0);
    let is_lowest = (byte >= 0x80) & (byte < 0x90);
    let is_excluded = (((one_back == 0xe0) | (one_back == 0xc2)) & is_low)
        | ((one_back == 0xed) & !is_low)
        | ((one_back == 0xf0) & is_lowest)
        | ((one_back == 0xf4) & !is_lowest);
    (is_open == is_continuation(byte)) & !(is_unused | is_other | is_excluded)
}
