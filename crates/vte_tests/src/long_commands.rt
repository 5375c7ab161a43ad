//! Commands of any length: titles, links, clipboards and colours, whole and byte by byte, and with
//! memory refused.

use crate::updates::HOLD;
use linked_list_allocator::LocalHeap;
use std::alloc::{AllocError, Allocator, Global};
use std::process::Abort;
use std::test::Fail;
use test_lines::{Answers, TestTimeout, require_memory};
use vte::Refused;
use vte::ansi::laws::{RefusedStep, Step, replay_long};
use vte::ansi::{ByCall, HandlerCall, LongProcessor, TakeCall};

/// How many bytes the last text of each kind has, and how many calls there were.
#[derive(Clone, Copy, Drop, PartialEq, Eq, Debug)]
struct Lengths {
    title: usize,
    link: usize,
    clipboard: usize,
    calls: u64,
}

const NONE: Lengths = Lengths {
    title: 0,
    link: 0,
    clipboard: 0,
    calls: 0,
};

#[derive(Drop)]
struct Measure(Lengths);

impl TakeCall for Measure {
    ghost Value = { Unit {0} };

    ghost value_of = { λ _. tt };

    ghost step = { λ _ _. tt };

    fn take(&mut self, call: HandlerCall<'_>) {
        self.0.calls = self.0.calls.saturating_add(1);
        match call {
            HandlerCall::SetTitle(Some(title)) => self.0.title = title.len(),
            HandlerCall::SetHyperlink(Some(link)) => self.0.link = link.uri.len(),
            HandlerCall::ClipboardStore(_, data) => self.0.clipboard = data.len(),
            _ => {}
        }
    }
}

/// The number of data bytes that a processor with a limit keeps of a command by default.
const DEFAULT_LIMIT: usize = 1024;

/// The length of a chunk that is longer than any stream here.
const WHOLE: usize = 4_000_000;

/// Creates a processor whose timeout gives these answers.
fn new_processor<A: Allocator + Copy>(
    alloc: A,
    answers: Answers,
) -> Result<LongProcessor<TestTimeout, A>, AllocError> {
    require_memory(LongProcessor::new(alloc, TestTimeout::new(answers)))
}

/// Reads bytes. Tests call this and not `advance`, whose contract would be opened by the proof of
/// each.
fn read<A: Allocator>(
    processor: &mut LongProcessor<TestTimeout, A>,
    handler: &mut ByCall<Measure>,
    bytes: &[u8],
) -> Result<(), Refused> {
    processor.advance(handler, bytes)
}

/// Checks that there is memory to read bytes.
fn assert_read<A: Allocator>(
    rt: &impl Abort,
    processor: &mut LongProcessor<TestTimeout, A>,
    handler: &mut ByCall<Measure>,
    bytes: &[u8],
) {
    assert_eq!(rt; read(processor, handler, bytes), Ok(()));
}

/// Returns a command that begins with `begin`, and whose last two pieces have `count` bytes with
/// the `;` between them.
fn command_of<A: Allocator>(
    alloc: A,
    begin: &[u8],
    count: usize,
) -> Result<Vec<u8, A>, AllocError> {
    let mut stream = Vec::new(alloc);
    stream.extend_from_slice(begin)?;
    for index in 0..count {
        stream.push(if index == count / 2 { b';' } else { b'a' })?;
    }
    stream.push(b'\x07')?;
    Ok(stream)
}

/// Checks what the four kinds of commands call for texts with `length` bytes, which are read in
/// chunks of `chunk_length` bytes.
fn assert_commands_are_whole(
    rt: &impl Abort,
    alloc: Global,
    length: usize,
    chunk_length: usize,
) -> Result<(), Fail> {
    let mut handler = ByCall(Measure(NONE));
    let mut processor = new_processor(alloc, Answers::Never)?;
    for begin in [&b"\x1b]2;"[..], b"\x1b]8;;", b"\x1b]52;c;", b"\x1b]4;1;"] {
        let stream = command_of(alloc, begin, length)?;
        for bytes in stream.as_slice().chunks(chunk_length.max(1)) {
            assert_read(rt, &mut processor, &mut handler, bytes);
        }
    }
    // A clipboard ends at the next `;`, and such a colour is none.
    let wanted = Lengths {
        title: length,
        link: length,
        clipboard: length / 2,
        calls: 3,
    };
    assert_eq!(rt; handler.0.0, wanted);
    Ok(())
}

#[test]
fn commands_around_the_default_limit_are_whole(rt: HostRuntime) -> Result<(), Fail> {
    for length in [DEFAULT_LIMIT - 1, DEFAULT_LIMIT, DEFAULT_LIMIT + 1] {
        for chunk_length in [WHOLE, 1, 7] {
            assert_commands_are_whole(&rt, rt.alloc(), length, chunk_length)?;
        }
    }
    Ok(())
}

#[test]
fn commands_of_a_million_bytes_are_whole(rt: HostRuntime) -> Result<(), Fail> {
    for chunk_length in [WHOLE, 4096] {
        assert_commands_are_whole(&rt, rt.alloc(), 1_000_000, chunk_length)?;
    }
    Ok(())
}

#[test]
fn refused_call_does_nothing_whatever_memory_is_left(rt: HostRuntime) -> Result<(), Fail> {
    let stream = command_of(rt.alloc(), b"\x1b]2;", DEFAULT_LIMIT + 1)?;
    let mut was_refused = 0_u64;
    let mut was_read = 0_u64;
    for more in [0, 16, 512, 1024, 1536, 2048, 3072, 4096, 16384] {
        let heap = LocalHeap::new(rt.alloc(), HOLD + more)?;
        let mut handler = ByCall(Measure(NONE));
        let mut processor = new_processor(&heap, Answers::Never)?;
        match read(&mut processor, &mut handler, stream.as_slice()) {
            Ok(()) => {
                was_read = was_read.saturating_add(1);
                assert_eq!(rt; (handler.0.0.title, handler.0.0.calls), (DEFAULT_LIMIT + 1, 1));
            }
            Err(refused) => {
                was_refused = was_refused.saturating_add(1);
                assert_eq!(rt; (refused, handler.0.0), (Refused { read: 0 }, NONE));
            }
        }
    }
    assert!(rt; was_refused > 3, "some are refused");
    assert!(rt; was_read > 1, "some are read");
    Ok(())
}

#[test]
fn refused_call_can_go_on(rt: HostRuntime) -> Result<(), Fail> {
    let stream = command_of(rt.alloc(), b"\x1b]2;", 6000)?;
    // After the hold there is room for some bytes of a command and of a text, but not for these.
    let heap = LocalHeap::new(rt.alloc(), HOLD + 4096)?;
    let mut handler = ByCall(Measure(NONE));
    let mut processor = new_processor(&heap, Answers::Counting)?;
    let answer = read(&mut processor, &mut handler, stream.as_slice());
    assert_eq!(rt; (answer, handler.0.0), (Err(Refused { read: 0 }), NONE));
    assert_read(&rt, &mut processor, &mut handler, b"ab\x1b]2;a;b\x07");
    assert_eq!(rt; (handler.0.0.title, handler.0.0.calls), (3, 3));
    // In an update the bytes would be parsed when it ends.
    assert_read(&rt, &mut processor, &mut handler, b"\x1b[?2026h");
    let answer = read(&mut processor, &mut handler, stream.as_slice());
    assert_eq!(rt; (answer, handler.0.0.calls), (Err(Refused { read: 0 }), 4));
    assert_read(&rt, &mut processor, &mut handler, b"cd");
    // They are held.
    assert_eq!(rt; handler.0.0.calls, 4);
    processor.stop_sync(&mut handler);
    // Two characters and the end of the update.
    assert_eq!(rt; handler.0.0.calls, 7);
    processor.stop_sync(&mut handler);
    // The end of the update alone: nothing is held.
    assert_eq!(rt; handler.0.0.calls, 8);
    Ok(())
}

#[test]
fn reserved_memory_serves_and_is_given_back(rt: HostRuntime) -> Result<(), Fail> {
    let stream = command_of(rt.alloc(), b"\x1b]2;", 6000)?;
    let heap = LocalHeap::new(rt.alloc(), HOLD + 32768)?;
    let mut handler = ByCall(Measure(NONE));
    let mut processor = new_processor(&heap, Answers::Never)?;
    let used = heap.used();
    assert!(rt; !processor.reserve(100_000), "there is less");
    assert!(rt; processor.reserve(stream.len()), "there is memory");
    let reserved = heap.used();
    assert_read(&rt, &mut processor, &mut handler, stream.as_slice());
    assert_eq!(rt; (handler.0.0.title, heap.used()), (6000, reserved));
    processor.shrink();
    assert_eq!(rt; heap.used(), used);
    Ok(())
}

#[test]
fn replay_takes_all_steps_if_there_is_memory(rt: HostRuntime) -> Result<(), Fail> {
    let steps = [
        Step::Advance(b"\x1b]2;ti"),
        Step::Advance(b"tle\x07\x1b[?2026hab"),
        Step::StopSync,
        Step::Advance(b"c"),
    ];
    let mut handler = ByCall(Measure(NONE));
    let mut processor = new_processor(rt.alloc(), Answers::Counting)?;
    let answer = replay_long(&mut processor, &mut handler, &steps);
    assert_eq!(rt; (answer, processor.sync_bytes_count()), (Ok(()), 0));
    // The title, the begin and the end of an update, and three characters.
    assert_eq!(rt; (handler.0.0.title, handler.0.0.calls), (5, 6));
    Ok(())
}

#[test]
fn replay_stops_at_the_first_refused_step(rt: HostRuntime) -> Result<(), Fail> {
    let stream = command_of(rt.alloc(), b"\x1b]2;", 6000)?;
    let steps = [
        Step::Advance(b"ab"),
        Step::Advance(stream.as_slice()),
        Step::Advance(b"c"),
    ];
    // After the hold there is room for two bytes, but not for the command.
    let heap = LocalHeap::new(rt.alloc(), HOLD + 4096)?;
    let mut handler = ByCall(Measure(NONE));
    let mut processor = new_processor(&heap, Answers::Never)?;
    let answer = replay_long(&mut processor, &mut handler, &steps);
    assert_eq!(rt; answer, Err(RefusedStep { index: 1, read: 0 }));
    assert_eq!(rt; (handler.0.0.title, handler.0.0.calls), (0, 2));
    Ok(())
}
