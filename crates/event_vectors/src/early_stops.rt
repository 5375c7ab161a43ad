//! Early stops: the vectors of them, and streams that are stopped after each event.

use crate::feed::feed_with_stop;
use crate::vectors::{LinesVector, Method, joined_lines, stops, tables};
use std::process::Abort;
use std::test::Fail;
use test_lines::{EventLines, Stop};
use vte_core::{Parser, Perform};

#[test]
fn until_terminated(rt: HostRuntime) -> Result<(), Fail> {
    for vector in &stops::VECTORS {
        let mut parser = Parser::<1024>::new_with_size();
        let mut lines = EventLines::new(rt.alloc(), vector.stop);
        parser.advance(&mut lines, vector.before);
        for call in vector.calls {
            lines.clear();
            match call.method {
                Method::Advance => parser.advance(&mut lines, call.bytes),
                Method::UntilTerminated { answer } => {
                    let read = parser.advance_until_terminated(&mut lines, call.bytes);
                    assert_eq!(rt; read, answer, "{}", vector.name);
                }
            }
            let want = joined_lines(rt.alloc(), call.lines)?;
            assert_eq!(rt; lines.text(), Some(want.as_str()), "{}", vector.name);
        }
    }
    Ok(())
}

/// Streams of at most this many bytes are stopped after each of their events.
const STOPPED: usize = 64;

/// Checks that, whichever event asks for the stop, the parser stops, and the unread bytes give the
/// rest.
fn assert_stops(rt: &(impl Abort + AllocGlobal), vector: &LinesVector) -> Result<(), Fail> {
    let bytes = vector.bytes(rt.alloc())?;
    if bytes.len() > STOPPED {
        return Ok(());
    }
    let want = vector.text(rt.alloc())?;
    for event in 0..vector.lines.len() {
        let mut lines = EventLines::new(rt.alloc(), Stop::After(event));
        let fed = feed_with_stop(vector.size, &mut lines, bytes.as_slice());
        assert!(rt; fed && lines.terminated(), "{}, event {event}", vector.name);
        assert_eq!(rt;
            lines.text(),
            Some(want.as_str()),
            "{}, event {event}",
            vector.name
        );
    }
    Ok(())
}

fn assert_vectors_stop(
    rt: &(impl Abort + AllocGlobal),
    vectors: &[LinesVector],
) -> Result<(), Fail> {
    for vector in vectors {
        assert_stops(rt, vector)?;
    }
    Ok(())
}

#[test]
fn a_stop_after_each_event(rt: HostRuntime) -> Result<(), Fail> {
    for table in tables() {
        assert_vectors_stop(&rt, table)?;
    }
    Ok(())
}
