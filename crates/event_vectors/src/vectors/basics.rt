//! Streams: basics.
// Written by tools/make_vectors.

use super::LinesVector;

pub(crate) static VECTORS: [LinesVector; 11] = [
    LinesVector {
        name: "empty input",
        size: 1024,
        chunks: &[b""],
        lines: &[],
    },
    LinesVector {
        name: "three ESC intermediates, two reported",
        size: 1024,
        chunks: &[b"\x1b()*B"],
        lines: &["esc 2829 true 42"],
    },
    LinesVector {
        name: "DEL printed, lone 80 executed, lone A0 replaced",
        size: 1024,
        chunks: &[b"\x7f\x80\xa0"],
        lines: &["print 007f", "execute 80", "print fffd"],
    },
    LinesVector {
        name: "LF executed inside an ESC sequence",
        size: 1024,
        chunks: &[b"\x1b(\x0aB"],
        lines: &["execute 0a", "esc 28 false 42"],
    },
    LinesVector {
        name: "ESC begins afresh at a second ESC",
        size: 1024,
        chunks: &[b"\x1b\x1bc"],
        lines: &["esc - false 63"],
    },
    LinesVector {
        name: "CAN directly after ESC",
        size: 1024,
        chunks: &[b"\x1b\x18a"],
        lines: &["execute 18", "print 0061"],
    },
    LinesVector {
        name: "DEL dropped after ESC",
        size: 1024,
        chunks: &[b"\x1b\x7fc"],
        lines: &["esc - false 63"],
    },
    LinesVector {
        name: "the first run",
        size: 1024,
        chunks: &[b"a\x1b(B\x0a"],
        lines: &["print 0061", "esc 28 false 42", "execute 0a"],
    },
    LinesVector {
        name: "DEL and 80 dropped after an intermediate",
        size: 1024,
        chunks: &[b"\x1b(\x7f\x80B"],
        lines: &["esc 28 false 42"],
    },
    LinesVector {
        name: "bracket after an intermediate is dispatched",
        size: 1024,
        chunks: &[b"\x1b([1"],
        lines: &["esc 28 false 5b", "print 0031"],
    },
    LinesVector {
        name: "CAN after an intermediate",
        size: 1024,
        chunks: &[b"\x1b(\x18B"],
        lines: &["execute 18", "print 0042"],
    },
];
