//! The lines of a stream in memory, by `run` of `event_log`, with a sink of our own.
ghost use Rattle.std.specs.Prelude.{IfSome, ◌≡◌};
ghost use Rattle.event_log.specs.Lines.{lines_of};
ghost use Rattle.vte_core.specs.Stream.{default_limit, events};

use event_log::{Device, Sink, run};
use std::alloc::Global;

/// What was written, as long as there was memory for it.
#[derive(Drop)]
struct Text {
    bytes: Vec<u8>,
    refused: bool,
}

impl Sink for Text {
    ghost use Rattle.examples.specs.Logged.{bytes_unless};

    ghost contents = { λ text. bytes_unless text.refused text.bytes.items };

    ghost has_failed = { λ text. text.refused };

    fn write_all(&mut self, bytes: &[u8]) -> Result<(), ()> {
        self.refused = self.refused || self.bytes.extend_from_slice(bytes).is_err();
        if self.refused { Err(()) } else { Ok(()) }
    }

    fn flush(&mut self) -> Result<(), ()> {
        if self.refused { Err(()) } else { Ok(()) }
    }
}

/// Returns the lines of a stream's events; none if there is no memory for them.
pub fn lines(alloc: Global, stream: &[u8]) -> Option<Vec<u8>>
    ensures { IfSome result (λ lines. lines.items ≡ lines_of (events default_limit stream.now)) }
{
    let mut text = Text {
        bytes: Vec::new(alloc),
        refused: false,
    };
    match run(&mut Device::new(stream), &mut text) {
        Ok(()) => Some(text.bytes),
        Err(_) => None,
    }
}
