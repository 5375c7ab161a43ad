//! Readers and writers for the tests.
ghost use Rattle.std.specs.Prelude.{is_err, IsTrue, ◌≡◌};

use event_log::{Sink, Source};
use std::alloc::Global;
use std::io::{self, ErrorKind};

/// A reader that gives one chunk per call, and ends or fails after the last.
#[derive(Drop)]
pub(super) struct Chunks<'a> {
    chunks: &'a [&'a [u8]],
    given: usize,
    fails: bool,
    failed: bool,
}

impl<'a> Chunks<'a> {
    pub(super) fn new(chunks: &'a [&'a [u8]], fails: bool) -> Self {
        Chunks {
            chunks,
            given: 0,
            fails,
            failed: false,
        }
    }
}

impl Source for Chunks<'_> {
    ghost use Rattle.std.specs.Prelude.{None};

    ghost remaining = { λ chunks. None };

    ghost has_failed = { λ chunks. chunks.failed };

    fn read(&mut self, buffer: &mut [u8]) -> Result<usize, ()> {
        if self.failed {
            return Err(());
        }
        let Some(chunk) = self.chunks.get(self.given) else {
            self.failed = self.fails;
            return if self.fails { Err(()) } else { Ok(0) };
        };
        let count = chunk.len().min(buffer.len());
        buffer[..count].copy_from_slice(&chunk[..count]);
        self.given = self.given.saturating_add(1);
        Ok(count)
    }
}

/// A writer that keeps what it is given, and fails at the call with this number, counted from 0.
#[derive(Drop)]
pub(super) struct Written {
    pub(super) bytes: Vec<u8>,
    pub(super) calls: usize,
    failing_call: Option<usize>,
    failed: bool,
}

impl Written {
    pub(super) fn new(alloc: Global, failing_call: Option<usize>) -> Self {
        Written {
            bytes: Vec::new(alloc),
            calls: 0,
            failing_call,
            failed: false,
        }
    }

    fn call(&mut self, bytes: &[u8]) -> Result<(), ()>
        ensures fails { is_err result ≡ self.new.failed }
        ensures stays_failed { IsTrue self.old.failed → IsTrue self.new.failed }
    {
        let fails = self.failed || self.failing_call == Some(self.calls);
        self.calls = self.calls.saturating_add(1);
        self.failed = fails || self.bytes.extend_from_slice(bytes).is_err();
        if self.failed { Err(()) } else { Ok(()) }
    }
}

impl Sink for Written {
    ghost use Rattle.std.specs.Prelude.{None};

    ghost contents = { λ written. None };

    ghost has_failed = { λ written. written.failed };

    fn write_all(&mut self, bytes: &[u8]) -> Result<(), ()> {
        self.call(bytes)
    }

    fn flush(&mut self) -> Result<(), ()> {
        self.call(&[])
    }
}

/// A writer of std that takes at most `count` bytes per call, and passes none on before a flush. If
/// `count` is 0, a flush fails.
#[derive(Drop)]
pub(super) struct AtMost {
    pub(super) count: usize,
    pub(super) unflushed: Vec<u8>,
    pub(super) bytes: Vec<u8>,
}

impl AtMost {
    pub(super) fn new(alloc: Global, count: usize) -> Self {
        AtMost {
            count,
            unflushed: Vec::new(alloc),
            bytes: Vec::new(alloc),
        }
    }
}

impl io::Write for AtMost {
    fn write(&mut self, bytes: &[u8]) -> io::Result<usize> {
        let count = self.count.min(bytes.len());
        self.unflushed.extend_from_slice(&bytes[..count])?;
        Ok(count)
    }

    fn flush(&mut self) -> io::Result<()> {
        if self.count == 0 {
            return Err(io::Error::from(ErrorKind::WriteZero));
        }
        self.bytes.extend_from_slice(self.unflushed.as_slice())?;
        self.unflushed.clear();
        Ok(())
    }
}
