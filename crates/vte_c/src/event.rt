//! Events as records of a fixed size.
ghost use Rattle.std.specs.Prelude.{◌≡◌};
ghost use Rattle.vte_c.specs.Record.{blank_record, contains_kind, count_byte, run_record, with_count, with_flag, with_intermediates, with_loss};

// The kinds of events, by the numbers of `vte.h`.

/// The kind of characters to show, one or more.
pub const TEXT: u8 = 0;

/// The kind of a control function of one byte.
pub const EXECUTE: u8 = 1;

/// The kind of the beginning of a device control string.
pub const HOOK: u8 = 2;

/// The kind of data bytes of a device control string, one or more.
pub const DATA: u8 = 3;

/// The kind of the end of a device control string.
pub const UNHOOK: u8 = 4;

/// The kind of an operating system command.
pub const OSC: u8 = 5;

/// The kind of a control sequence.
pub const CSI: u8 = 6;

/// The kind of an escape sequence.
pub const ESC: u8 = 7;

/// An event, or the events of a text or of data.
///
/// | `kind` | `flag` | `code` |
/// |---|---|---|
/// | `TEXT`, `DATA` | 1 if its bytes are in the data area, 0 if in the input | how many these are |
/// | `EXECUTE` | 0 | the byte |
/// | `HOOK`, `CSI`, `ESC` | whether `ignore` is true | the final byte |
/// | `UNHOOK` | 0 | 0 |
/// | `OSC` | 1 if BEL ended it, and 2 more if it lost data bytes | 0 |
///
/// Groups of numbers and pieces are in the data area.
#[repr(C)]
#[derive(Clone, Copy)]
pub struct VteEvent {
    /// One of the kinds above.
    pub kind: u8,
    /// Depends on the kind, as the table says.
    pub flag: u8,
    /// How many intermediates there are, at most 2.
    pub intermediate_count: u8,
    /// How many groups or pieces there are.
    pub count: u8,
    /// The first intermediate, or 0.
    pub first_intermediate: u8,
    /// The second intermediate, or 0.
    pub second_intermediate: u8,
    /// Always 0.
    pub unused: u16,
    /// Depends on the kind, as the table says.
    pub code: u32,
    /// Where its groups, pieces, text or data start.
    pub start: u32,
}

impl VteEvent {
    /// Creates a record of a kind, with a code.
    #[inline(always)]
    pub(crate) fn new(kind: u8, code: u32) -> Self
        ensures { result ≡ blank_record kind code }
    {
        VteEvent {
            kind,
            flag: 0,
            intermediate_count: 0,
            count: 0,
            first_intermediate: 0,
            second_intermediate: 0,
            unused: 0,
            code,
            start: 0,
        }
    }

    /// Creates the record of a text or data in the input.
    pub(crate) fn new_run(kind: u8, start: u32, size: u32) -> Self
        ensures { result ≡ run_record kind start size }
    {
        VteEvent {
            start,
            ..VteEvent::new(kind, size)
        }
    }

    /// Returns the record with the first two of these intermediates.
    pub(crate) fn with_intermediates(self, intermediates: &[u8]) -> Self
        ensures { result ≡ with_intermediates self intermediates.now }
    {
        let (count, first, second) = match intermediates {
            [] => (0, 0, 0),
            [first] => (1, *first, 0),
            [first, second, ..] => (2, *first, *second),
        };
        VteEvent {
            intermediate_count: count,
            first_intermediate: first,
            second_intermediate: second,
            ..self
        }
    }

    /// Returns the record with a flag.
    pub(crate) fn with_flag(self, flag: bool) -> Self
        ensures { result ≡ with_flag self flag }
    {
        VteEvent {
            flag: u8::from(flag),
            ..self
        }
    }

    /// Returns the record of a command that lost data bytes.
    pub(crate) fn with_loss(self) -> Self
        ensures { result ≡ with_loss self }
    {
        VteEvent {
            flag: self.flag % 2 + 2,
            ..self
        }
    }

    /// Returns the record with a count of groups or pieces.
    pub(crate) fn with_count(self, count: usize) -> Self
        ensures { result ≡ with_count self count }
    {
        VteEvent {
            count: count_byte(count),
            ..self
        }
    }
}

/// Returns whether a kind is in a set of kinds.
#[inline(always)]
#[tactic(auto, unfolding(crate::specs::Record::contains_kind))]
pub fn contains_kind(kinds: u32, kind: u8) -> bool
    ensures { result ≡ contains_kind kinds kind }
{
    (kinds >> (kind % 32)) % 2 == 1
}

/// Returns a count as a byte, at most 255.
pub(crate) fn count_byte(count: usize) -> u8
    ensures { result ≡ count_byte count }
{
    count.min(255) as u8
}
