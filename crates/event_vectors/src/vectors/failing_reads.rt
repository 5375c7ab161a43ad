//! Reads that fail.

use super::FailingReadVector;

pub(crate) static VECTORS: [FailingReadVector; 2] = [
    FailingReadVector {
        name: "reader that fails after two chunks",
        reads: &[b"a", b"\x0a"],
        lines: &["print 0061", "execute 0a"],
    },
    FailingReadVector {
        name: "reader that fails at once",
        reads: &[],
        lines: &[],
    },
];
