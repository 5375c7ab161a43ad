//! Vectors with one log that a handler and a timeout share: the order in which both are called.
ghost use Rattle.std.specs.Prelude.{◌<◌};

use crate::streams;
use crate::vector::Vector;
use std::alloc::Global;
use std::cell::RefCell;
use std::io::{self, ErrorKind};
use std::time::Duration;
use test_lines::CallLines;
use vte::ansi::{ByCall, HandlerCall, Processor, TakeCall, Timeout};

/// Streams are given in chunks shorter than this.
const LONGEST_PIECE: usize = 32;

/// A handler that writes to the log.
#[derive(Drop)]
struct LoggedCalls<'a> {
    log: &'a RefCell<CallLines>,
}

impl<'a> TakeCall for LoggedCalls<'a> {
    ghost Value = { Unit {0} };

    ghost value_of = { λ _. tt };

    ghost step = { λ _ _. tt };

    fn take(&mut self, call: HandlerCall<'_>) {
        if let Ok(mut log) = self.log.try_borrow_mut() {
            log.take(call);
        }
    }
}

/// A timeout that writes to the log. It is pending from `set_timeout` to `clear_timeout`.
#[derive(Drop)]
struct LoggedTimeout<'a> {
    log: &'a RefCell<CallLines>,
    pending: bool,
}

impl<'a> Timeout for LoggedTimeout<'a> {
    ghost Value = { Unit {0} };

    ghost value_of = { λ _. tt };

    ghost set = { λ _ _. tt };

    ghost clear = { λ _. tt };

    // The contract allows any answer; the vectors check them.
    ghost allows = { λ _ _. Unit {0} };

    fn set_timeout(&mut self, duration: Duration) {
        self.pending = true;
        if let Ok(mut log) = self.log.try_borrow_mut() {
            log.add_set(duration);
        }
    }

    fn clear_timeout(&mut self) {
        self.pending = false;
        if let Ok(mut log) = self.log.try_borrow_mut() {
            log.add_clear();
        }
    }

    fn pending_timeout(&self) -> bool {
        self.pending
    }
}

/// Returns whether the bytes of a vector make its log, in chunks of every length.
pub(crate) fn is_shown(alloc: Global, vector: &Vector<'_>) -> io::Result<bool> {
    let (stream, calls) = (vector.bytes(alloc)?, vector.calls(alloc)?);
    let mut same = true;
    for length in 1..LONGEST_PIECE {
        same = is_logged(alloc, stream.as_slice(), length, calls.as_str())? && same;
    }
    Ok(same)
}

/// Returns whether a stream in chunks of this length makes this log.
fn is_logged(alloc: Global, stream: &[u8], length: usize, calls: &str) -> io::Result<bool>
    requires { 0 < length }
{
    let log = RefCell::new(CallLines::new(alloc));
    let timeout = LoggedTimeout {
        log: &log,
        pending: false,
    };
    let Ok(mut processor) = Processor::new(alloc, timeout) else {
        return Err(io::Error::from(ErrorKind::OutOfMemory));
    };
    let mut handler = ByCall(LoggedCalls { log: &log });
    for chunk in stream.chunks(length) {
        processor.advance(&mut handler, chunk);
    }
    match log.try_borrow() {
        Ok(lines) => Ok(streams::text_of(&lines)? == calls),
        Err(_) => Ok(false),
    }
}
