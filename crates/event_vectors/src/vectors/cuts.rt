//! Streams: every cut, prefix and fault.
// Written by tools/make_vectors.

use super::LinesVector;

pub(crate) static VECTORS: [LinesVector; 3] = [
    LinesVector {
        name: "semicolons take no room in a buffer of 1",
        size: 1,
        chunks: &[b"\x1b];;a;b\x07"],
        lines: &["osc true 3 - - 61"],
    },
    LinesVector {
        name: "semicolons in a buffer of 0",
        size: 0,
        chunks: &[b"\x1b];;a;b\x07"],
        lines: &["osc true 1 -"],
    },
    LinesVector {
        name: "DCS with more than 32 numbers",
        size: 1024,
        chunks: &[b"\x1bP1;1;1;1;1;1;1;1;1;1;1;1;1;1;1;1;1;1;1;1;1;1;1;1;1;1;1;1;1;1;1;1;1;p"],
        lines: &[
            "hook [1;1;1;1;1;1;1;1;1;1;1;1;1;1;1;1;1;1;1;1;1;1;1;1;1;1;1;1;1;1;1;1] - true 70",
        ],
    },
];
