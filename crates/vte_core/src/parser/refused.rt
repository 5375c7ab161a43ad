//! The error of calls that were refused memory.

/// Memory was refused: for an operating system command, or by a processor for the bytes that it
/// parses next or holds back.
#[derive(Clone, Copy, Debug, PartialEq, Eq)]
pub struct Refused {
    /// How many bytes of the call were read before.
    pub read: usize,
}
