//! When a run flushes, and how much it reads at once.

use event_log::{Device, Sink, Source, run, run_text};
use std::alloc::Global;
use std::io::Read;
use std::test::Fail;

/// A writer that notes at each flush how many bytes it has taken.
#[derive(Drop)]
struct Flushes {
    taken: usize,
    at_flushes: Vec<usize>,
    failed: bool,
}

impl Flushes {
    fn new(alloc: Global) -> Self {
        Flushes {
            taken: 0,
            at_flushes: Vec::new(alloc),
            failed: false,
        }
    }
}

impl Sink for Flushes {
    ghost use Rattle.std.specs.Prelude.{None};

    ghost contents = { λ writer. None };

    ghost has_failed = { λ writer. writer.failed };

    fn write_all(&mut self, bytes: &[u8]) -> Result<(), ()> {
        self.taken = self.taken.saturating_add(bytes.len());
        if self.failed { Err(()) } else { Ok(()) }
    }

    fn flush(&mut self) -> Result<(), ()> {
        self.failed = self.failed || self.at_flushes.push(self.taken).is_err();
        if self.failed { Err(()) } else { Ok(()) }
    }
}

#[test]
fn the_lines_of_each_piece_are_flushed(rt: HostRuntime) -> Result<(), Fail> {
    let chunks = b"a"[..].chain(&b"\x1b(B"[..]).chain(&b"\n"[..]);
    let mut writer = Flushes::new(rt.alloc());
    assert_eq!(rt; run(&mut Device::new(chunks), &mut writer), Ok(()));
    assert_eq!(rt; writer.at_flushes.as_slice(), [11, 27, 38].as_slice());
    Ok(())
}

/// A reader that fills `buffer` with `a`, and notes its size.
#[derive(Drop)]
struct Sizes {
    left: usize,
    sizes: Vec<usize>,
    failed: bool,
}

impl Source for Sizes {
    ghost use Rattle.std.specs.Prelude.{None};

    ghost remaining = { λ reader. None };

    ghost has_failed = { λ reader. reader.failed };

    fn read(&mut self, buffer: &mut [u8]) -> Result<usize, ()> {
        self.failed = self.failed || self.sizes.push(buffer.len()).is_err();
        if self.failed {
            return Err(());
        }
        let count = self.left.min(buffer.len());
        buffer[..count].fill(b'a');
        self.left -= count;
        Ok(count)
    }
}

#[derive(Clone, Copy)]
enum What {
    Lines,
    Text,
}

#[test]
fn each_piece_has_at_most_4096_bytes_and_is_flushed(rt: HostRuntime) {
    for (what, at_flushes) in [
        (What::Lines, [45_056, 90_112, 110_000]),
        (What::Text, [4096, 8192, 10_000]),
    ] {
        let mut reader = Sizes {
            left: 10_000,
            sizes: Vec::new(rt.alloc()),
            failed: false,
        };
        let mut writer = Flushes::new(rt.alloc());
        let result = match what {
            What::Lines => run(&mut reader, &mut writer),
            What::Text => run_text(&mut reader, &mut writer),
        };
        assert_eq!(rt; result, Ok(()));
        assert_eq!(rt; reader.sizes.as_slice(), [4096; 4].as_slice());
        assert_eq!(rt; writer.at_flushes.as_slice(), at_flushes.as_slice());
    }
}
