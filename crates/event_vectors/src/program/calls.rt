//! What a processor tells of a stream: the lines of its handler calls, and `held N` after each
//! chunk and each stop.

use crate::program::frames::Frame;
use crate::program::timeouts::Expiring;
use std::alloc::Global;
use std::io::{self, ErrorKind, Write};
use test_lines::CallLines;
use vte::ansi::{ByCall, Processor};

/// A processor, and the lines of its calls that haven't been written.
#[derive(Drop)]
pub(crate) struct Calls {
    processor: Processor<Expiring, Global>,
    handler: ByCall<CallLines>,
}

impl Calls {
    pub(crate) fn new(alloc: Global) -> io::Result<Self> {
        match Processor::new(alloc, Expiring::new()) {
            Ok(processor) => Ok(Calls {
                processor,
                handler: ByCall(CallLines::new(alloc)),
            }),
            Err(_timeout) => Err(io::Error::from(ErrorKind::OutOfMemory)),
        }
    }

    pub(crate) fn take<W: Write>(&mut self, frame: Frame<'_>, output: &mut W) -> io::Result<()> {
        match frame {
            Frame::Chunk(chunk) => self.processor.advance(&mut self.handler, chunk),
            Frame::StopSync => self.processor.stop_sync(&mut self.handler),
            Frame::Expiry => self.processor.sync_timeout().expire(),
            Frame::NeverPending => self.processor.sync_timeout().turn_off(),
            _ => {}
        }
        match frame {
            Frame::Chunk(_) | Frame::StopSync => self.write(output),
            _ => Ok(()),
        }
    }

    /// Writes and clears the lines of the calls.
    fn write<W: Write>(&mut self, output: &mut W) -> io::Result<()> {
        let lines = &mut self.handler.0;
        let text = lines.text().ok_or(io::Error::from(ErrorKind::OutOfMemory))?;
        output.write_all(text.as_bytes())?;
        lines.clear();
        writeln!(output, "held {}", self.processor.sync_bytes_count())
    }
}
