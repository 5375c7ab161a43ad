//! The program: what a parser, or a processor, tells of framed streams.

mod calls;
mod events;
mod frames;
mod timeouts;

use calls::Calls;
use events::Events;
use frames::{Frame, Frames};
use std::alloc::Global;
use std::io::{self, ErrorKind, Write};

/// Writes the lines of each stream in the input, and then `end`.
pub(crate) fn replay<W: Write>(alloc: Global, input: &[u8], output: &mut W) -> io::Result<()> {
    let mut events = Events::new(alloc);
    let mut calls: Option<Calls> = None;
    for frame in Frames::new(input) {
        match frame {
            Frame::HandlerCalls => calls = Some(Calls::new(alloc)?),
            Frame::EndOfStream => {
                if calls.is_none() {
                    events.end(output)?;
                }
                calls = None;
                output.write_all(b"end\n")?;
            }
            Frame::CutShort => return Err(io::Error::from(ErrorKind::UnexpectedEof)),
            _ => match &mut calls {
                Some(calls) => calls.take(frame, output)?,
                None => events.take(frame),
            },
        }
    }
    Ok(())
}
