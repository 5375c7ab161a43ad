//! Streams: plain text.
// Written by tools/make_vectors.

use super::PlainVector;

pub(crate) static VECTORS: [PlainVector; 7] = [
    PlainVector {
        name: "plain text of nothing",
        bytes: b"",
        text: b"",
    },
    PlainVector {
        name: "plain text of text, CSI, LF, OSC and FF",
        bytes: b"a\x1b[1mb\x0a\x1b]2;t\x07\xff",
        text: b"ab\x0a\xef\xbf\xbd",
    },
    PlainVector {
        name: "plain text of LF inside a CSI",
        bytes: b"\x1b[31\x0am",
        text: b"\x0a",
    },
    PlainVector {
        name: "plain text of tab, CAN and DEL",
        bytes: b"\x09\x18\x7f",
        text: b"\x09\x7f",
    },
    PlainVector {
        name: "plain text of a C1 control",
        bytes: b"\xc2\x85",
        text: b"",
    },
    PlainVector {
        name: "plain text of a repetition",
        bytes: b"a\x1b[3b",
        text: b"a",
    },
    PlainVector {
        name: "plain text of an unfinished character",
        bytes: b"\xe4\xbf",
        text: b"",
    },
];
