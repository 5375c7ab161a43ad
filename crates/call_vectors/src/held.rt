//! Checks what is promised of the held bytes.

use std::alloc::Allocator;
use test_lines::TestTimeout;
use vte::ansi::Processor;
use vte::{Params, Parser, Perform};

const MAX_HELD: usize = 2_097_150;

const BEGIN_UPDATE: &[u8] = b"\x1b[?2026h";

const END_UPDATE: &[u8] = b"\x1b[?2026l";

/// Returns whether a processor may hold the last of the bytes that it was given: not too many, and
/// no end of an update.
pub(crate) fn is_within_limits<A: Allocator>(
    processor: &Processor<TestTimeout, A>,
    given: &[u8],
) -> bool {
    let count = processor.sync_bytes_count();
    let Some(parsed) = given.len().checked_sub(count) else {
        return false;
    };
    let (_, held) = given.split_at(parsed);
    count <= MAX_HELD && !held.windows(8).any(|window| window == END_UPDATE)
}

/// Returns whether bytes are held only inside an update, for a timeout that is pending from
/// `set_timeout` to `clear_timeout`.
pub(crate) fn is_inside_an_update<A: Allocator>(
    processor: &Processor<TestTimeout, A>,
    given: &[u8],
) -> bool {
    let count = processor.sync_bytes_count();
    let (parsed, held) = given.split_at(given.len().saturating_sub(count));
    if processor.sync_timeout().count == 0 {
        held.is_empty()
    } else {
        held.starts_with(BEGIN_UPDATE) || ends_with_begin(parsed)
    }
}

/// Returns whether the last byte dispatches a sequence that begins an update.
fn ends_with_begin(parsed: &[u8]) -> bool {
    let Some((last, front)) = parsed.split_last() else {
        return false;
    };
    let mut begin = BeginSeen(false);
    let mut parser = Parser::<1024>::new();
    parser.advance(&mut begin, front);
    begin.0 = false;
    parser.advance(&mut begin, &[*last]);
    begin.0
}

/// Notes whether a sequence has begun an update.
#[derive(Drop)]
struct BeginSeen(bool);

impl Perform for BeginSeen {
    // The contract says nothing about the flag; the vectors check it.
    ghost use Rattle.std.specs.Prelude.{false};

    ghost Value = { Unit {0} };

    ghost value_of = { λ _. tt };

    ghost step = { λ _ _. tt };

    ghost is_terminated = { λ _. false };

    fn print(&mut self, _c: char) {}

    fn execute(&mut self, _byte: u8) {}

    fn hook(&mut self, _params: &Params, _intermediates: &[u8], _ignore: bool, _action: char) {}

    fn put(&mut self, _byte: u8) {}

    fn unhook(&mut self) {}

    fn osc_dispatch(&mut self, _params: &[&[u8]], _bell_terminated: bool) {}

    fn csi_dispatch(&mut self, params: &Params, intermediates: &[u8], ignore: bool, action: char) {
        let begins = action == 'h' && intermediates == b"?".as_slice() && !ignore;
        if begins
            && params
                .iter()
                .any(|group| group.starts_with([2026].as_slice()))
        {
            self.0 = true;
        }
    }

    fn esc_dispatch(&mut self, _intermediates: &[u8], _ignore: bool, _byte: u8) {}

    fn terminated(&self) -> bool {
        false
    }
}
