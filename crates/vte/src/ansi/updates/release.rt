//! What a hold releases when bytes are added to it.
ghost use Rattle.std.specs.Prelude.{IsTrue, length, List, None, ℕ, ◌++◌, ◌+◌, ◌<◌, ◌^◌, ◌≡◌, ◌≤◌};
ghost use Rattle.vte.specs.private.Hold.{FindsRelease, HasNoPrivateSequence, HasNoSequenceBetween, IsHeldTail};
ghost use Rattle.vte.specs.Synchronized.{after_last_end, begin_update, end_update, is_prefix_of};

use memchr::memrchr;
use vte_types::C0;

/// What a hold releases when bytes are added to it.
#[derive(Clone, Copy)]
pub(crate) struct Release {
    /// How many updates begin among the added bytes, after the last one that ends.
    pub(crate) begin_count: usize,
    /// How many bytes are released: none if no update ends, otherwise those before the next update,
    /// or all.
    pub(crate) released: usize,
}

/// Finds what a hold releases. `bytes` are those of the hold from `start` on: the new ones, and at
/// most seven before them. No update ends among the older ones, so it is enough to search `bytes`,
/// backward, down to the last end-update.
pub(crate) fn find_release(bytes: &[u8], start: usize) -> Release
    requires { start + length bytes.now < 2 ^ 64 }
    ensures { (held more : List ℕ) → IsHeldTail held more bytes.now start
        → after_last_end held ≡ None
        → FindsRelease (held ++ more) (length more) result }
{
    let mut first_begin = start + bytes.len();
    let mut begin_count = 0;
    // A sequence has eight bytes, and only the first is ESC: none begins among the last seven
    // bytes, or the seven before an ESC.
    let mut unread = skip_blocks(bytes, bytes.len().saturating_sub(7));
    while let Some(position) = memrchr(C0::ESC, &bytes[..unread]) {
        unread = skip_blocks(bytes, position.saturating_sub(7));
        let sequence = &bytes[position..];
        if begins_update(sequence) {
            first_begin = start + position;
            begin_count += 1;
        } else if ends_update(sequence) {
            let released = first_begin;
            return Release {
                begin_count,
                released,
            };
        }
    }
    let released = 0;
    Release {
        begin_count,
        released,
    }
}

/// Goes back from a position over blocks in which neither sequence begins. Returns the position
/// before them.
fn skip_blocks(bytes: &[u8], before: usize) -> usize
    requires { before ≤ length bytes.now }
    ensures within { result ≤ before }
    ensures none_between { HasNoSequenceBetween bytes.now result before }
{
    let mut unread = before;
    while unread >= 32 {
        match bytes[unread - 32..].first_chunk::<34>() {
            Some(block) if has_no_private_sequence(block) => unread -= 32,
            _ => break,
        }
    }
    unread
}

/// Returns whether no ESC in the first 32 bytes of a block has `?` two bytes after it. Then neither
/// sequence begins there. Compilers turn the loop into vector instructions.
#[inline(always)]
fn has_no_private_sequence(block: &[u8; 34]) -> bool
    ensures { IsTrue result → HasNoPrivateSequence block.now 32 }
{
    let mut none_found = true;
    for index in 0..32 {
        none_found &= (block[index] != C0::ESC) | (block[index + 2] != b'?');
    }
    none_found
}

/// Returns whether the bytes start with a begin-update.
fn begins_update(bytes: &[u8]) -> bool
    ensures has_eight_bytes { IsTrue result → 8 ≤ length bytes.now }
    ensures value { result ≡ is_prefix_of begin_update bytes.now }
{
    bytes.starts_with(b"\x1b[?2026h")
}

/// Returns whether the bytes start with an end-update.
fn ends_update(bytes: &[u8]) -> bool
    ensures has_eight_bytes { IsTrue result → 8 ≤ length bytes.now }
    ensures value { result ≡ is_prefix_of end_update bytes.now }
{
    bytes.starts_with(b"\x1b[?2026l")
}
