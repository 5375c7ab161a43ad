//! Streams: parameters and CSI.
// Written by tools/make_vectors.

use super::LinesVector;

pub(crate) static VECTORS: [LinesVector; 24] = [
    LinesVector {
        name: "colon group and a semicolon",
        size: 1024,
        chunks: &[b"\x1b[38:2:255:0:255;1m"],
        lines: &["csi [38:2:255:0:255;1] - false 6d"],
    },
    LinesVector {
        name: "ESC drops an open CSI and its parameters",
        size: 1024,
        chunks: &[b"\x1b[3;1\x1b[?1049h"],
        lines: &["csi [1049] 3f false 68"],
    },
    LinesVector {
        name: "BEL executed between ESC and bracket",
        size: 1024,
        chunks: &[b"\x1b\x1b\x07[m"],
        lines: &["execute 07", "csi [0] - false 6d"],
    },
    LinesVector {
        name: "more than 32 numbers",
        size: 1024,
        chunks: &[b"\x1b[1;1;1;1;1;1;1;1;1;1;1;1;1;1;1;1;1;1;1;1;1;1;1;1;1;1;1;1;1;1;1;1;p"],
        lines: &["csi [1;1;1;1;1;1;1;1;1;1;1;1;1;1;1;1;1;1;1;1;1;1;1;1;1;1;1;1;1;1;1;1] - true 70"],
    },
    LinesVector {
        name: "exactly 32 numbers, the last empty",
        size: 1024,
        chunks: &[b"\x1b[1;1;1;1;1;1;1;1;1;1;1;1;1;1;1;1;1;1;1;1;1;1;1;1;1;1;1;1;1;1;1;p"],
        lines: &[
            "csi [1;1;1;1;1;1;1;1;1;1;1;1;1;1;1;1;1;1;1;1;1;1;1;1;1;1;1;1;1;1;1;0] - false 70",
        ],
    },
    LinesVector {
        name: "32 colons",
        size: 1024,
        chunks: &[b"\x1b[::::::::::::::::::::::::::::::::x\x1b"],
        lines: &["csi [0:0:0:0:0:0:0:0:0:0:0:0:0:0:0:0:0:0:0:0:0:0:0:0:0:0:0:0:0:0:0:0] - true 78"],
    },
    LinesVector {
        name: "number far past the limit",
        size: 1024,
        chunks: &[b"\x1b[9223372036854775808m"],
        lines: &["csi [65535] - false 6d"],
    },
    LinesVector {
        name: "marker after a digit",
        size: 1024,
        chunks: &[b"\x1b[1?ma"],
        lines: &["print 0061"],
    },
    LinesVector {
        name: "blank as CSI intermediate",
        size: 1024,
        chunks: &[b"\x1b[1 q"],
        lines: &["csi [1] 20 false 71"],
    },
    LinesVector {
        name: "marker and two intermediates",
        size: 1024,
        chunks: &[b"\x1b[?$#p"],
        lines: &["csi [0] 3f24 true 70"],
    },
    LinesVector {
        name: "digit after a CSI intermediate",
        size: 1024,
        chunks: &[b"\x1b[1$2pa"],
        lines: &["print 0061"],
    },
    LinesVector {
        name: "LF, DEL and 80 inside a CSI",
        size: 1024,
        chunks: &[b"\x1b[1\x0a\x7f\x802m"],
        lines: &["execute 0a", "csi [12] - false 6d"],
    },
    LinesVector {
        name: "number cut to 65535",
        size: 1024,
        chunks: &[b"\x1b[65535;65536m"],
        lines: &["csi [65535;65535] - false 6d"],
    },
    LinesVector {
        name: "empty number after a semicolon",
        size: 1024,
        chunks: &[b"\x1b[4;m"],
        lines: &["csi [4;0] - false 6d"],
    },
    LinesVector {
        name: "empty number before a semicolon",
        size: 1024,
        chunks: &[b"\x1b[;4m"],
        lines: &["csi [0;4] - false 6d"],
    },
    LinesVector {
        name: "ESC sequence drops an open CSI",
        size: 1024,
        chunks: &[b"\x1b[3;1\x1b(A"],
        lines: &["esc 28 false 41"],
    },
    LinesVector {
        name: "CSI with marker, then ESC with an intermediate",
        size: 1024,
        chunks: &[b"\x1b[?2004l\x1b#8"],
        lines: &["csi [2004] 3f false 6c", "esc 23 false 38"],
    },
    LinesVector {
        name: "C0 executed, DEL and 80 dropped before the key",
        size: 1024,
        chunks: &[b"\x1b\x80\x0a\x7f\x9b[1m"],
        lines: &["execute 0a", "csi [1] - false 6d"],
    },
    LinesVector {
        name: "C0 executed in an ill-shaped head",
        size: 1024,
        chunks: &[b"\x1b[1 \x0a1ma"],
        lines: &["execute 0a", "print 0061"],
    },
    LinesVector {
        name: "two markers",
        size: 1024,
        chunks: &[b"\x1b[??ma"],
        lines: &["print 0061"],
    },
    LinesVector {
        name: "number joined by a colon to an empty one",
        size: 1024,
        chunks: &[b"\x1b[:;:m"],
        lines: &["csi [0:0;0:0] - false 6d"],
    },
    LinesVector {
        name: "33rd number by a colon",
        size: 1024,
        chunks: &[b"\x1b[1;1;1;1;1;1;1;1;1;1;1;1;1;1;1;1;1;1;1;1;1;1;1;1;1;1;1;1;1;1;1;2:3m"],
        lines: &["csi [1;1;1;1;1;1;1;1;1;1;1;1;1;1;1;1;1;1;1;1;1;1;1;1;1;1;1;1;1;1;1;2] - true 6d"],
    },
    LinesVector {
        name: "CAN in a CSI",
        size: 1024,
        chunks: &[b"\x1b[1\x18m"],
        lines: &["execute 18", "print 006d"],
    },
    LinesVector {
        name: "SUB in an ill-shaped CSI",
        size: 1024,
        chunks: &[b"\x1b[1?\x1am"],
        lines: &["execute 1a", "print 006d"],
    },
];
