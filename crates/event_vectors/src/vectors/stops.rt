//! Early stops.
// Written by tools/make_vectors.

use super::{ExpectedCall, Method, StopVector};
use test_lines::Stop;

pub(crate) static VECTORS: [StopVector; 8] = [
    StopVector {
        name: "stop at an unfinished character found malformed",
        stop: Stop::AtPrint,
        before: b"",
        calls: &[
            ExpectedCall {
                method: Method::UntilTerminated { answer: 2 },
                bytes: b"\xe4\xbfa",
                lines: &["print fffd"],
            },
            ExpectedCall {
                method: Method::Advance,
                bytes: b"a",
                lines: &["print 0061"],
            },
        ],
    },
    StopVector {
        name: "stop inside a run of text",
        stop: Stop::AtPrint,
        before: b"",
        calls: &[
            ExpectedCall {
                method: Method::UntilTerminated { answer: 1 },
                bytes: b"ab",
                lines: &["print 0061"],
            },
            ExpectedCall {
                method: Method::UntilTerminated { answer: 0 },
                bytes: b"b",
                lines: &[],
            },
        ],
    },
    StopVector {
        name: "stop after an ESC sequence",
        stop: Stop::AtEscape,
        before: b"",
        calls: &[ExpectedCall {
            method: Method::UntilTerminated { answer: 2 },
            bytes: b"\x1bcab",
            lines: &["esc - false 63"],
        }],
    },
    StopVector {
        name: "begun character carried on without a question",
        stop: Stop::Reached,
        before: b"\xe4",
        calls: &[ExpectedCall {
            method: Method::UntilTerminated { answer: 2 },
            bytes: b"\xbf\x99a",
            lines: &["print 4fd9"],
        }],
    },
    StopVector {
        name: "begun character found malformed at the first byte",
        stop: Stop::Reached,
        before: b"\xe4",
        calls: &[ExpectedCall {
            method: Method::UntilTerminated { answer: 0 },
            bytes: b"a",
            lines: &["print fffd"],
        }],
    },
    StopVector {
        name: "no bytes, terminated from the start",
        stop: Stop::Reached,
        before: b"",
        calls: &[ExpectedCall {
            method: Method::UntilTerminated { answer: 0 },
            bytes: b"",
            lines: &[],
        }],
    },
    StopVector {
        name: "no bytes, never terminated",
        stop: Stop::Never,
        before: b"",
        calls: &[ExpectedCall {
            method: Method::UntilTerminated { answer: 0 },
            bytes: b"",
            lines: &[],
        }],
    },
    StopVector {
        name: "unfinished character counts as read",
        stop: Stop::Never,
        before: b"",
        calls: &[ExpectedCall {
            method: Method::UntilTerminated { answer: 2 },
            bytes: b"\xe4\xbf",
            lines: &[],
        }],
    },
];
