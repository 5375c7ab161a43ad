//! Long streams.
// Written by tools/make_vectors.

use super::{LongVector, RepeatedBytes, RepeatedText};

pub(crate) static VECTORS: [LongVector; 7] = [
    LongVector {
        name: "OSC past a buffer of 1024",
        size: 1024,
        bytes: RepeatedBytes {
            front: b"\x1b]52;s",
            unit: b"a",
            times: 1124,
            back: b"\x07",
        },
        text: RepeatedText {
            front: "osc true 2 3532 73",
            unit: "61",
            times: 1021,
            back: "\n",
        },
    },
    LongVector {
        name: "a whole piece of text",
        size: 1024,
        bytes: RepeatedBytes {
            front: b"",
            unit: b"a",
            times: 4096,
            back: b"",
        },
        text: RepeatedText {
            front: "",
            unit: "print 0061\n",
            times: 4096,
            back: "",
        },
    },
    LongVector {
        name: "FF 100,000 times",
        size: 1024,
        bytes: RepeatedBytes {
            front: b"",
            unit: b"\xff",
            times: 100000,
            back: b"",
        },
        text: RepeatedText {
            front: "",
            unit: "print fffd\n",
            times: 100000,
            back: "",
        },
    },
    LongVector {
        name: "unfinished character 50,000 times",
        size: 1024,
        bytes: RepeatedBytes {
            front: b"",
            unit: b"\xf0\x9f",
            times: 50000,
            back: b"",
        },
        text: RepeatedText {
            front: "",
            unit: "print fffd\n",
            times: 49999,
            back: "",
        },
    },
    LongVector {
        name: "unfinished character 50,000 times, then ESC",
        size: 1024,
        bytes: RepeatedBytes {
            front: b"",
            unit: b"\xf0\x9f",
            times: 50000,
            back: b"\x1b",
        },
        text: RepeatedText {
            front: "",
            unit: "print fffd\n",
            times: 50000,
            back: "",
        },
    },
    LongVector {
        name: "long number with leading zeros",
        size: 1024,
        bytes: RepeatedBytes {
            front: b"\x1b[",
            unit: b"0",
            times: 5000,
            back: b"12m",
        },
        text: RepeatedText {
            front: "csi [12] - false 6d\n",
            unit: "",
            times: 0,
            back: "",
        },
    },
    LongVector {
        name: "four lead bytes, ESC and CAN, 1,000 times",
        size: 1024,
        bytes: RepeatedBytes {
            front: b"",
            unit: b"\xe4\xe4\xe4\xe4\x1b\x18",
            times: 1000,
            back: b"",
        },
        text: RepeatedText {
            front: "",
            unit: "print fffd\nprint fffd\nprint fffd\nprint fffd\nexecute 18\n",
            times: 1000,
            back: "",
        },
    },
];
