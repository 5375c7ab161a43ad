//! A random stream gives the same events, lines, text and calls in random chunks as it does whole.

use crate::reader::ChunkReader;
use crate::streams::Streams;
use event_log::{Device, Source, run, run_text};
use std::alloc::{AllocError, Allocator, Global};
use std::process::Abort;
use std::test::Fail;
use test_lines::{Answers, CallLines, EventLines, Stop, TestTimeout, require_memory};
use vte::ansi::{ByCall, Processor};
use vte_core::{LongParser, Parser};

/// The number of streams per test.
const STREAMS: u32 = 1000;

/// Returns the lines of the events of a stream in chunks. Text comes in runs or by character.
fn events_of(alloc: Global, in_runs: bool, chunks: &[&[u8]]) -> EventLines {
    let mut lines = EventLines::new(alloc, Stop::Never);
    let mut parser = Parser::<1024>::new();
    for chunk in chunks {
        if in_runs {
            parser.advance_text(&mut lines, chunk);
        } else {
            parser.advance(&mut lines, chunk);
        }
    }
    lines
}

/// Returns the same lines, by a parser without a limit on commands.
fn unlimited_events_of(
    rt: &(impl Abort + AllocGlobal),
    in_runs: bool,
    chunks: &[&[u8]],
) -> Result<EventLines, Fail> {
    let mut lines = EventLines::new(rt.alloc(), Stop::Never);
    let mut parser = LongParser::new(rt.alloc());
    for chunk in chunks {
        let outcome = if in_runs {
            parser.advance_text(&mut lines, chunk)
        } else {
            parser.advance(&mut lines, chunk)
        };
        assert_eq!(rt; outcome, Ok(()));
    }
    Ok(lines)
}

/// Asserts that a stream has the same events in chunks, in runs or by character, as whole by
/// character.
fn assert_same_events(rt: &(impl Abort + AllocGlobal), in_runs: bool) -> Result<(), Fail> {
    let mut streams = Streams::new();
    for _ in 0..STREAMS {
        let stream = streams.stream(rt.alloc())?;
        let whole = [stream.as_slice()];
        let chunks = streams.cut(rt.alloc(), stream.as_slice())?;
        let want = events_of(rt.alloc(), false, &whole);
        let lines = events_of(rt.alloc(), in_runs, chunks.as_slice());
        assert_eq!(rt; lines.text(), want.text(), "{chunks:?}");
        assert!(rt; want.text().is_some(), "out of memory");
        let want = unlimited_events_of(rt, false, &whole)?;
        let lines = unlimited_events_of(rt, in_runs, chunks.as_slice())?;
        assert_eq!(rt; lines.text(), want.text(), "{chunks:?}");
    }
    Ok(())
}

#[test]
fn events(rt: HostRuntime) -> Result<(), Fail> {
    assert_same_events(&rt, false)
}

#[test]
fn events_in_runs(rt: HostRuntime) -> Result<(), Fail> {
    assert_same_events(&rt, true)
}

/// Returns the output of `run`.
fn lines_of<R: Source>(rt: &(impl Abort + AllocGlobal), reader: &mut R) -> Result<Vec<u8>, Fail> {
    let mut lines = Vec::new(rt.alloc());
    assert_eq!(rt; run(reader, &mut Device::new(&mut lines)), Ok(()));
    Ok(lines)
}

/// Returns the output of `run_text`.
fn text_of<R: Source>(rt: &(impl Abort + AllocGlobal), reader: &mut R) -> Result<Vec<u8>, Fail> {
    let mut text = Vec::new(rt.alloc());
    assert_eq!(rt; run_text(reader, &mut Device::new(&mut text)), Ok(()));
    Ok(text)
}

fn assert_same(rt: &impl Abort, written: &[u8], want: &[u8], chunks: &[&[u8]]) {
    assert!(rt; written == want, "{chunks:?}");
}

#[test]
fn lines_and_text(rt: HostRuntime) -> Result<(), Fail> {
    let mut streams = Streams::new();
    for _ in 0..STREAMS {
        let stream = streams.stream(rt.alloc())?;
        let chunks = streams.cut(rt.alloc(), stream.as_slice())?;
        let chunks = chunks.as_slice();
        let lines = lines_of(&rt, &mut ChunkReader::new(chunks))?;
        let want = lines_of(&rt, &mut Device::new(stream.as_slice()))?;
        assert_same(&rt, lines.as_slice(), want.as_slice(), chunks);
        // The same lines, by code that shares nothing with `run`.
        let events = events_of(rt.alloc(), false, chunks);
        let events = events.text().unwrap_or("out of memory");
        assert_same(&rt, events.as_bytes(), want.as_slice(), chunks);
        let text = text_of(&rt, &mut ChunkReader::new(chunks))?;
        let want = text_of(&rt, &mut Device::new(stream.as_slice()))?;
        assert_same(&rt, text.as_slice(), want.as_slice(), chunks);
    }
    Ok(())
}

/// Returns the calls of a stream in chunks, with stops after some of them. The stop after the last
/// leaves nothing held.
fn calls_of(
    rt: &(impl Abort + AllocGlobal),
    answers: Answers,
    in_runs: bool,
    chunks: &[&[u8]],
    stops: &mut Streams,
) -> Result<CallLines, Fail> {
    let mut handler = ByCall(CallLines::new(rt.alloc()));
    let mut processor = require_memory(Processor::new(rt.alloc(), TestTimeout::new(answers)))?;
    for chunk in chunks {
        if in_runs {
            processor.advance_text(&mut handler, chunk);
        } else {
            processor.advance(&mut handler, chunk);
        }
        if stops.below(8) == 0 {
            stop(&mut processor, in_runs, &mut handler);
        }
    }
    stop(&mut processor, in_runs, &mut handler);
    Ok(handler.0)
}

fn stop<A: Allocator>(
    processor: &mut Processor<TestTimeout, A>,
    in_runs: bool,
    handler: &mut ByCall<CallLines>,
) {
    if in_runs {
        processor.stop_sync_text(handler);
    } else {
        processor.stop_sync(handler);
    }
}

/// Returns the lines of the calls, except for those that end an update, of which each stop adds
/// one.
fn without_ends(alloc: Global, calls: &CallLines) -> Result<String, AllocError> {
    let mut kept = String::new(alloc);
    for line in calls.text().unwrap_or("out of memory").lines() {
        if line != "unset_private_mode Named(SyncUpdate)" {
            kept.push_str(line)?;
            kept.push('\n')?;
        }
    }
    Ok(kept)
}

/// Checks that a stream makes the same calls in the same order, whether or not bytes are held and
/// stops come.
fn assert_same_calls(rt: &(impl Abort + AllocGlobal), in_runs: bool) -> Result<(), Fail> {
    let mut streams = Streams::new();
    for _ in 0..STREAMS {
        let stream = streams.stream(rt.alloc())?;
        let whole = [stream.as_slice()];
        let chunks = streams.cut(rt.alloc(), stream.as_slice())?;
        let whole = calls_of(rt, Answers::Never, false, &whole, &mut streams)?;
        let want = without_ends(rt.alloc(), &whole)?;
        for answers in [Answers::Never, Answers::Counting] {
            let calls = calls_of(rt, answers, in_runs, chunks.as_slice(), &mut streams)?;
            let calls = without_ends(rt.alloc(), &calls)?;
            assert_eq!(rt; calls.as_str(), want.as_str(), "{chunks:?}");
        }
    }
    Ok(())
}

#[test]
fn calls(rt: HostRuntime) -> Result<(), Fail> {
    assert_same_calls(&rt, false)
}

#[test]
fn calls_in_runs(rt: HostRuntime) -> Result<(), Fail> {
    assert_same_calls(&rt, true)
}
