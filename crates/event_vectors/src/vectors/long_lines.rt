//! Long lines, as a recorder holds them.

use super::{LongLineVector, RepeatedBytes};

pub(crate) static VECTORS: [LongLineVector; 2] = [
    LongLineVector {
        name: "longest osc line",
        stream: RepeatedBytes {
            front: b"\x1b];;;;;;;;;;;;;;;",
            unit: b"a",
            times: 1100,
            back: b"\x18",
        },
        bytes: 2103,
        lost: false,
    },
    LongLineVector {
        name: "longest hook line",
        stream: RepeatedBytes {
            front: b"\x1bP?",
            unit: b"65535;",
            times: 31,
            back: b"65535$p",
        },
        bytes: 213,
        lost: false,
    },
];
