//! Random hostile streams: fragments of the grammar, complete, broken off, at a limit, or with a
//! byte that doesn't belong there.
ghost use Rattle.std.specs.Prelude.{◌<◌};

use rand_core::Rng;
use rand_pcg::Pcg32;
use std::alloc::{AllocError, Global};

/// Any of these may follow any other.
static PARTS: [&[u8]; 80] = [
    // Text, in characters of each length, and text that is malformed or breaks off.
    b"a",
    b"text ",
    b"\xc3\xa9",
    b"\xc2\x85",
    b"\xc2\xa0",
    b"\xe4\xbd\xa0",
    b"\xed\x9f\xbf",
    b"\xef\xbf\xbd",
    b"\xf0\x9f\x98\x80",
    b"\xf4\x8f\xbf\xbf",
    b"\xc3",
    b"\xe4",
    b"\xe4\xbd",
    b"\xf0",
    b"\xf0\x9f\x98",
    b"\xe0\x80",
    b"\xed\xa0\x80",
    b"\xf4\x90\x80",
    b"\xc0\xaf",
    b"\xff",
    b"\x85",
    b"\x9c",
    b"\xbf",
    // Controls.
    b"\n",
    b"\x07",
    b"\x0e",
    b"\x7f",
    b"\x18",
    b"\x1a",
    b"\x00",
    // Beginnings of sequences, and what may follow them.
    b"\x1b",
    b"\x1b[",
    b"\x1b[?",
    b"\x1bP",
    b"\x1b]",
    b"\x1bX",
    b"\x1b_",
    b"\x1b(",
    b"\x1b#",
    b"1",
    b"2026",
    b"65536",
    b";",
    b":",
    b"?",
    b" ",
    b"$",
    b"m",
    b"h",
    b"b",
    b"q",
    b"\\",
    // Complete sequences.
    b"\x1b[1;31m",
    b"\x1b[38:2:1:2:3m",
    b"\x1b[38;5;9m",
    b"\x1b[?25h",
    b"\x1b[3;4H",
    b"\x1b[2J",
    b"\x1b[3b",
    b"\x1b[>4;1m",
    b"\x1b[4 q",
    b"\x1bP1;2|data\x9c",
    b"\x1bP1?q",
    b"\x1bc",
    b"\x1b(0",
    b"\x1b#8",
    b"\x1b\\",
    b"\x1b]2;title\x07",
    b"\x1b]8;id=1;http://a\x1b\\",
    b"\x1b]4;1;#fff\x07",
    b"\x1b]52;c;aGk=\x1b\\",
    b"\x1b];;;;;;;;;;;;;;;;;\x07",
    b"\x1b^ignored\x1b\\",
    // Updates, and sequences that are almost updates.
    b"\x1b[?2026h",
    b"\x1b[?2026h",
    b"\x1b[?2026l",
    b"\x1b[?2026l",
    b"\x1b[?20",
    b"26l",
    b"\x1b[?25;2026h",
];

/// Parameters of a sequence.
static NUMBERS: [&[u8]; 6] = [b"1;", b"38:", b";", b":", b"65535;", b"00000000002;"];

/// A generator of streams and cuts. They are the same in every run.
#[derive(Drop)]
pub(crate) struct Streams {
    random: Pcg32,
}

impl Streams {
    pub(crate) fn new() -> Self {
        Streams {
            random: Pcg32::new(2026, 0),
        }
    }

    /// Returns a number below `bound`.
    pub(crate) fn below(&mut self, bound: u32) -> u32
        requires { 0 < bound }
        ensures { result < bound }
    {
        self.random.next_u32() % bound
    }

    /// Returns a stream of up to 24 fragments.
    pub(crate) fn stream(&mut self, alloc: Global) -> Result<Vec<u8>, AllocError> {
        let mut stream = Vec::new(alloc);
        for _ in 0..=self.below(24) {
            match self.below(64) {
                0..=3 => self.add_bytes(&mut stream)?,
                4..=7 => self.add_numbers(&mut stream)?,
                8 => self.add_data(&mut stream)?,
                _ => stream.extend_from_slice(PARTS[self.below(80) as usize])?,
            }
        }
        Ok(stream)
    }

    /// Appends arbitrary bytes.
    fn add_bytes(&mut self, stream: &mut Vec<u8>) -> Result<(), AllocError> {
        for _ in 0..self.below(8) {
            stream.push(self.below(256) as u8)?;
        }
        Ok(())
    }

    /// Appends up to 39 parameters: fewer or more than a sequence keeps.
    fn add_numbers(&mut self, stream: &mut Vec<u8>) -> Result<(), AllocError> {
        for _ in 0..self.below(40) {
            stream.extend_from_slice(NUMBERS[self.below(6) as usize])?;
        }
        Ok(())
    }

    /// Appends about as many data bytes as a parser's buffer holds.
    fn add_data(&mut self, stream: &mut Vec<u8>) -> Result<(), AllocError> {
        for _ in 0..self.below(20) + 1010 {
            stream.push(b'a')?;
        }
        Ok(())
    }

    /// Cuts a stream into single bytes or longer chunks, some of them empty.
    pub(crate) fn cut<'a>(
        &mut self,
        alloc: Global,
        stream: &'a [u8],
    ) -> Result<Vec<&'a [u8]>, AllocError> {
        let mut chunks = Vec::new(alloc);
        let longest = match self.below(4) {
            0 => 1,
            1 => 3,
            2 => 20,
            _ => 200,
        };
        let mut rest = stream;
        for _ in 0..stream.len() {
            if rest.is_empty() {
                break;
            }
            let length = self.below(longest) as usize + 1;
            let (chunk, back) = rest.split_at(length.min(rest.len()));
            chunks.push(chunk)?;
            rest = back;
            if self.below(16) == 0 {
                chunks.push(&[])?;
            }
        }
        Ok(chunks)
    }
}
