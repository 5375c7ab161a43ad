//! The input of the program: streams in chunks.
//!
//! A chunk is its length, as two bytes in big-endian order, and then its bytes. Six lengths have
//! other meanings: FFFF ends a stream, and at its start FFFB asks for its text in runs, FFFA for
//! handler calls instead of events. Of the processor that makes these, FFFE calls `stop_sync`, FFFD
//! makes the timeout expire, and FFFC turns it off for the rest of the stream.

/// What comes next in the input.
#[derive(Clone, Copy)]
pub(crate) enum Frame<'a> {
    Chunk(&'a [u8]),
    TextInRuns,
    HandlerCalls,
    StopSync,
    Expiry,
    NeverPending,
    EndOfStream,
    /// The input ends inside a chunk or a length.
    CutShort,
}

/// An iterator over the frames of an input.
#[derive(Drop)]
pub(crate) struct Frames<'a> {
    rest: &'a [u8],
}

impl<'a> Frames<'a> {
    pub(crate) fn new(input: &'a [u8]) -> Self {
        Frames { rest: input }
    }
}

impl<'a> Iterator for Frames<'a> {
    type Item = Frame<'a>;

    ghost use Rattle.std.specs.Iterator.{at_most};
    ghost use Rattle.std.specs.Prelude.{length};

    ghost remaining = { λ frames. at_most (length frames.rest.now) };

    fn next(&mut self) -> Option<Frame<'a>> {
        let rest = self.rest;
        if rest.is_empty() {
            return None;
        }
        self.rest = &[];
        let Some((length, rest)) = rest.split_first_chunk::<2>() else {
            return Some(Frame::CutShort);
        };
        let sign = match *length {
            [0xff, 0xff] => Some(Frame::EndOfStream),
            [0xff, 0xfe] => Some(Frame::StopSync),
            [0xff, 0xfd] => Some(Frame::Expiry),
            [0xff, 0xfc] => Some(Frame::NeverPending),
            [0xff, 0xfb] => Some(Frame::TextInRuns),
            [0xff, 0xfa] => Some(Frame::HandlerCalls),
            _ => None,
        };
        if sign.is_some() {
            self.rest = rest;
            return sign;
        }
        let length = u16::from_be_bytes(*length) as usize;
        let Some((chunk, rest)) = rest.split_at_checked(length) else {
            return Some(Frame::CutShort);
        };
        self.rest = rest;
        Some(Frame::Chunk(chunk))
    }
}
