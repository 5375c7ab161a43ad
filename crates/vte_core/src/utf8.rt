//! Characters of UTF-8, byte by byte.
ghost use Rattle.std.specs.Char.{InScalarRange};
ghost use Rattle.std.specs.Prelude.{IsTrue, true, [], ◌%◌, ◌*◌, ◌+◌, ◌<◌, ◌↔◌, ◌∷◌, ◌≡◌};
ghost use Rattle.vte_core.specs.private.Prelude.{BeginsFour, BeginsThree, BeginsTwo, bytes_of, Extends, from_to, is_in, is_truncated, printed_ascii, scalar_of, second_range};

/// The bytes of an open character, at most three.
#[derive(Clone, Copy)]
pub(crate) enum OpenCharacter {
    /// No character is open.
    Empty,
    /// The first byte of two, three or four.
    One(u8),
    /// Two bytes of three or four.
    Two(u8, u8),
    /// Three bytes of four.
    Three(u8, u8, u8),
}

/// What one more byte makes of an open character.
#[derive(Clone, Copy)]
pub(crate) enum Extension {
    /// More bytes, and still no character.
    Truncated(OpenCharacter),
    /// The character is whole.
    WellFormed(char),
    /// The byte belongs to no character that the others began.
    Malformed,
}

impl OpenCharacter {
    /// Returns whether no character is open.
    pub(crate) fn is_empty(self) -> bool
        ensures { IsTrue result ↔ (bytes_of self ≡ []) }
    {
        matches!(self, OpenCharacter::Empty)
    }

    /// Adds a byte to those of an open character.
    #[inline(always)]
    #[tactic(auto, unfolding(crate::specs::Utf8::is_truncated))]
    pub(crate) fn extend(self, byte: u8) -> Extension
        ensures { is_truncated (bytes_of self) ≡ true → Extends (bytes_of self) byte result }
    {
        match self {
            OpenCharacter::One(first) if may_be_second(first, byte) => {
                if first < 0xe0 {
                    return complete_character(code_point_of_two(first, byte));
                }
                Extension::Truncated(OpenCharacter::Two(first, byte))
            }
            OpenCharacter::Two(first, second) if is_continuation(byte) => {
                if first < 0xf0 {
                    return complete_character(code_point_of_three(first, second, byte));
                }
                Extension::Truncated(OpenCharacter::Three(first, second, byte))
            }
            OpenCharacter::Three(first, second, third) if is_continuation(byte) => {
                complete_character(code_point_of_four(first, second, third, byte))
            }
            _ => Extension::Malformed,
        }
    }
}

/// Returns whether a sequence that begins with `first` may go on with `byte`.
#[tactic(auto, unfolding(crate::specs::private::OpenCharacter::second_range))]
fn may_be_second(first: u8, byte: u8) -> bool
    ensures { result ≡ is_in (second_range first) byte }
{
    match first {
        0xe0..=0xef => may_begin_three(first, byte),
        0xf0..=0xf4 => may_begin_four(first, byte),
        _ => is_continuation(byte),
    }
}

/// Returns whether a sequence of three bytes may begin with these two: the code point is neither
/// overlong nor a surrogate.
#[inline(always)]
#[tactic(auto, unfolding(crate::specs::private::OpenCharacter::second_range))]
pub(crate) fn may_begin_three(first: u8, second: u8) -> bool
    requires { BeginsThree first }
    ensures { result ≡ is_in (second_range first) second }
{
    let lowest = (first % 16) as u32 * 0x1000 + (second % 64) as u32 * 0x40;
    is_continuation(second) && lowest >= 0x800 && lowest / 0x800 != 0xd800 / 0x800
}

/// Returns whether a sequence of four bytes may begin with these two: the code point is neither
/// overlong nor above U+10FFFF.
#[inline(always)]
#[tactic(auto, unfolding(crate::specs::private::OpenCharacter::second_range))]
pub(crate) fn may_begin_four(first: u8, second: u8) -> bool
    requires { BeginsFour first }
    ensures { result ≡ is_in (second_range first) second }
{
    let lowest = (first % 8) as u32 * 0x40000 + (second % 64) as u32 * 0x1000;
    is_continuation(second) && matches!(lowest, 0x10000..=0x10ffff)
}

/// Returns whether `byte` is an ASCII character that is printed, which includes DEL.
#[inline(always)]
pub(crate) fn is_printed_ascii(byte: u8) -> bool
    ensures { result ≡ is_in printed_ascii byte }
{
    matches!(byte, 0x20..=0x7f)
}

/// Returns whether `byte` begins a sequence of two bytes or more.
#[inline(always)]
pub(crate) fn is_lead(byte: u8) -> bool
    ensures { result ≡ is_in (from_to 0xc2 0xf4) byte }
{
    matches!(byte, 0xc2..=0xf4)
}

/// Returns whether `byte` is 80..BF, as is each byte of a sequence after the second.
pub(crate) fn is_continuation(byte: u8) -> bool
    ensures { result ≡ is_in (from_to 0x80 0xbf) byte }
{
    matches!(byte, 0x80..=0xbf)
}

// A remainder removes the bits that only mark a byte as the first or a further one. The others are
// the digits of the code point, six bits per further byte.

/// Returns the code point of a sequence of two bytes.
fn code_point_of_two(first: u8, second: u8) -> u32
    ensures { result ≡ first % 32 * 0x40 + second % 64 }
{
    (first % 32) as u32 * 0x40 + (second % 64) as u32
}

/// Returns the code point of a sequence of three bytes.
fn code_point_of_three(first: u8, second: u8, third: u8) -> u32
    ensures { result ≡ (first % 16 * 0x40 + second % 64) * 0x40 + third % 64 }
{
    (first % 16) as u32 * 0x1000 + (second % 64) as u32 * 0x40 + (third % 64) as u32
}

/// Returns the code point of a sequence of four bytes.
fn code_point_of_four(first: u8, second: u8, third: u8, fourth: u8) -> u32
    ensures { result ≡ ((first % 8 * 0x40 + second % 64) * 0x40 + third % 64) * 0x40 + fourth % 64 }
{
    (first % 8) as u32 * 0x40000
        + (second % 64) as u32 * 0x1000
        + (third % 64) as u32 * 0x40
        + (fourth % 64) as u32
}

/// Returns the character with this code point, or `Malformed` for a surrogate, which no well-formed
/// sequence has.
fn complete_character(code_point: u32) -> Extension
    ensures { InScalarRange code_point → result ≡ Extension.WellFormed code_point }
{
    match char::from_u32(code_point) {
        Some(c) => Extension::WellFormed(c),
        None => Extension::Malformed,
    }
}

/// Returns the character of two bytes.
#[inline(always)]
pub(crate) fn character_of_two(first: u8, second: u8) -> char
    requires lead { BeginsTwo first }
    requires second { is_in (from_to 0x80 0xbf) second ≡ true }
    ensures { result ≡ scalar_of (first ∷ second ∷ []) }
{
    // The remainders leave at most 7FF, below the surrogates: compilers see it, and drop the test.
    // proof: SAFETY: the number is below the surrogates.
    // cargo instead: char::from_u32(code_point_of_two(first, second))
    // cargo instead:     .unwrap_or(char::REPLACEMENT_CHARACTER)
    unsafe { char::from_u32_unchecked(code_point_of_two(first, second)) }
}

/// Returns the character of three bytes.
#[inline(always)]
#[allow(unsafe_code)]
pub(crate) fn character_of_three(first: u8, second: u8, third: u8) -> char
    requires lead { BeginsThree first }
    requires second { is_in (second_range first) second ≡ true }
    requires third { is_in (from_to 0x80 0xbf) third ≡ true }
    ensures { result ≡ scalar_of (first ∷ second ∷ third ∷ []) }
{
    // cargo: debug_assert!(may_begin_three(first, second) && is_continuation(third));
    // SAFETY: the remainders leave at most FFFF. Callers have tested `may_begin_three`, by which
    // the number isn't a surrogate, D800 to DFFF.
    unsafe { char::from_u32_unchecked(code_point_of_three(first, second, third)) }
}

/// Returns the character of four bytes.
#[inline(always)]
#[allow(unsafe_code)]
pub(crate) fn character_of_four(first: u8, second: u8, third: u8, fourth: u8) -> char
    requires lead { BeginsFour first }
    requires second { is_in (second_range first) second ≡ true }
    requires third { is_in (from_to 0x80 0xbf) third ≡ true }
    requires fourth { is_in (from_to 0x80 0xbf) fourth ≡ true }
    ensures { result ≡ scalar_of (first ∷ second ∷ third ∷ fourth ∷ []) }
{
    // cargo: debug_assert!(may_begin_four(first, second));
    // cargo: debug_assert!(is_continuation(third) && is_continuation(fourth));
    // SAFETY: callers have tested `may_begin_four`, by which the leading bits of the number are
    // 10000 to 10F000, and the remainders leave at most FFF for the others.
    unsafe { char::from_u32_unchecked(code_point_of_four(first, second, third, fourth)) }
}
