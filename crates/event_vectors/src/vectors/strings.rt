//! Streams: DCS, OSC and strings.
// Written by tools/make_vectors.

use super::LinesVector;

pub(crate) static VECTORS: [LinesVector; 31] = [
    LinesVector {
        name: "DCS ended by 9C",
        size: 1024,
        chunks: &[b"\x1bP0;1|17/ab\x9c"],
        lines: &[
            "hook [0;1] - false 7c",
            "put 31",
            "put 37",
            "put 2f",
            "put 61",
            "put 62",
            "unhook",
        ],
    },
    LinesVector {
        name: "OSC cut short by CAN",
        size: 1024,
        chunks: &[b"\x1b]2;a\x18b"],
        lines: &["osc false 2 32 61", "execute 18", "print 0062"],
    },
    LinesVector {
        name: "OSC ended by ST",
        size: 1024,
        chunks: &[b"\x1b]2;jw\x1b\\"],
        lines: &["osc false 2 32 6a77", "esc - false 5c"],
    },
    LinesVector {
        name: "empty OSC",
        size: 1024,
        chunks: &[b"\x1b]\x07"],
        lines: &["osc true 1 -"],
    },
    LinesVector {
        name: "ill-shaped DCS head",
        size: 1024,
        chunks: &[b"\x1bP1?qx\x9c\x18a"],
        lines: &["execute 18", "print 0061"],
    },
    LinesVector {
        name: "OSC past a buffer of 32",
        size: 32,
        chunks: &[
            b"\x1b]52;aaaaaaaaaaaaaaaaaaaaaaaaaaaaaaaaaaaaaaaaaaaaaaaaaaaaaaaaaaaaaaaaaaaaaaaaaaaaaaaaaaaaaaaaaaaaaaaaaaaaaaaaaaaaaaaaaaaaaaaaaaaaaaaaaaaa\x07",
        ],
        lines: &["osc true 2 3532 616161616161616161616161616161616161616161616161616161616161"],
    },
    LinesVector {
        name: "OSC with a buffer of 0",
        size: 0,
        chunks: &[
            b"\x1b]52;aaaaaaaaaaaaaaaaaaaaaaaaaaaaaaaaaaaaaaaaaaaaaaaaaaaaaaaaaaaaaaaaaaaaaaaaaaaaaaaaaaaaaaaaaaaaaaaaaaaaaaaaaaaaaaaaaaaaaaaaaaaaaaaaaaaa\x07",
        ],
        lines: &["osc true 1 -"],
    },
    LinesVector {
        name: "more than 16 OSC pieces",
        size: 1024,
        chunks: &[b"\x1b];;;;;;;;;;;;;;;;;;;;;;;;;;;;;;;;;\x1b"],
        lines: &["osc false 16 - - - - - - - - - - - - - - - -"],
    },
    LinesVector {
        name: "DCS cut short by CAN",
        size: 1024,
        chunks: &[b"\x1bP1qa\x18"],
        lines: &["hook [1] - false 71", "put 61", "unhook", "execute 18"],
    },
    LinesVector {
        name: "DCS cut short by an ESC sequence",
        size: 1024,
        chunks: &[b"\x1bP1qa\x1bc"],
        lines: &["hook [1] - false 71", "put 61", "unhook", "esc - false 63"],
    },
    LinesVector {
        name: "DEL and 80 dropped in DCS data",
        size: 1024,
        chunks: &[b"\x1bPqa\x7f\x80b\x9c"],
        lines: &["hook [0] - false 71", "put 61", "put 62", "unhook"],
    },
    LinesVector {
        name: "NUL dropped, DEL and 9C kept in an OSC",
        size: 1024,
        chunks: &[b"\x1b]a\x00b\x7f\x9c\x07"],
        lines: &["osc true 1 61627f9c"],
    },
    LinesVector {
        name: "string dropped up to SUB",
        size: 1024,
        chunks: &[b"\x1bXa\x07\x9c\x1ab"],
        lines: &["execute 1a", "print 0062"],
    },
    LinesVector {
        name: "window title with a path",
        size: 1024,
        chunks: &[b"\x1b]2;jwilm@jwilm-desk: ~/code/alacritty\x07"],
        lines: &[
            "osc true 2 32 6a77696c6d406a77696c6d2d6465736b3a207e2f636f64652f616c61637269747479",
        ],
    },
    LinesVector {
        name: "colour OSC ended by BEL",
        size: 1024,
        chunks: &[b"\x1b]11;ff/00/ff\x07"],
        lines: &["osc true 2 3131 66662f30302f6666"],
    },
    LinesVector {
        name: "colour OSC ended by ST",
        size: 1024,
        chunks: &[b"\x1b]11;ff/00/ff\x1b\\"],
        lines: &["osc false 2 3131 66662f30302f6666", "esc - false 5c"],
    },
    LinesVector {
        name: "title with non-ASCII text",
        size: 1024,
        chunks: &[b"\x0d\x1b]2;echo '\xc2\xaf\\_(\xe3\x83\x84)_/\xc2\xaf' && sleep 1\x07"],
        lines: &[
            "execute 0d",
            "osc true 2 32 6563686f2027c2af5c5f28e38384295f2fc2af2720262620736c6565702031",
        ],
    },
    LinesVector {
        name: "9C as tail byte of a character in an OSC",
        size: 1024,
        chunks: &[b"\x1b]2;\xe6\x9c\xab\x1b\\"],
        lines: &["osc false 2 32 e69cab", "esc - false 5c"],
    },
    LinesVector {
        name: "OSC that fills a buffer of 5, three calls",
        size: 5,
        chunks: &[b"\x1b]2;", b"s\xe6\x9c\xab", b"\x1b\\"],
        lines: &["osc false 2 32 73e69cab", "esc - false 5c"],
    },
    LinesVector {
        name: "CSI with a buffer of 30",
        size: 30,
        chunks: &[b"\x1b[3;1\x1b[?1049h"],
        lines: &["csi [1049] 3f false 68"],
    },
    LinesVector {
        name: "DCS after an open CSI",
        size: 1024,
        chunks: &[b"\x1b[3;1\x1bP1$tx\x9c"],
        lines: &["hook [1] 24 false 74", "put 78", "unhook"],
    },
    LinesVector {
        name: "DCS with a marker, then ESC with an intermediate",
        size: 1024,
        chunks: &[b"\x1bP=1sZZZ\x1b+\\"],
        lines: &[
            "hook [1] 3d false 73",
            "put 5a",
            "put 5a",
            "put 5a",
            "unhook",
            "esc 2b false 5c",
        ],
    },
    LinesVector {
        name: "9C doesn't end a DCS with an ill-shaped head",
        size: 1024,
        chunks: &[b"\x1bP1?q\x9ca\x18b"],
        lines: &["execute 18", "print 0062"],
    },
    LinesVector {
        name: "9C, LF and DEL dropped in a DCS head",
        size: 1024,
        chunks: &[b"\x1bP1\x9c\x0a\x7f2qa\x9c"],
        lines: &["hook [12] - false 71", "put 61", "unhook"],
    },
    LinesVector {
        name: "CAN in a DCS head",
        size: 1024,
        chunks: &[b"\x1bP1\x18a"],
        lines: &["execute 18", "print 0061"],
    },
    LinesVector {
        name: "C0 put in DCS data",
        size: 1024,
        chunks: &[b"\x1bPq\x0a\x07\x00\x1f\x9c"],
        lines: &[
            "hook [0] - false 71",
            "put 0a",
            "put 07",
            "put 00",
            "put 1f",
            "unhook",
        ],
    },
    LinesVector {
        name: "hooked DCS at the end of input",
        size: 1024,
        chunks: &[b"\x1bPqa"],
        lines: &["hook [0] - false 71", "put 61"],
    },
    LinesVector {
        name: "OSC at the end of input",
        size: 1024,
        chunks: &[b"\x1b]2;a"],
        lines: &[],
    },
    LinesVector {
        name: "semicolon after a full buffer",
        size: 2,
        chunks: &[b"\x1b]ab;c\x07"],
        lines: &["osc true 1 6162"],
    },
    LinesVector {
        name: "semicolon before the last byte that fits",
        size: 2,
        chunks: &[b"\x1b]a;bc;d\x07"],
        lines: &["osc true 2 61 62"],
    },
    LinesVector {
        name: "data of pieces past the sixteenth fill no piece",
        size: 1024,
        chunks: &[b"\x1b]a;a;a;a;a;a;a;a;a;a;a;a;a;a;a;a;b\x07"],
        lines: &["osc true 16 61 61 61 61 61 61 61 61 61 61 61 61 61 61 61 61"],
    },
];
