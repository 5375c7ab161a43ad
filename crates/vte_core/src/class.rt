//! The classes of bytes.
#![tactic(auto, unfolding(crate::specs::Class::class_of))]

ghost use Rattle.std.specs.Prelude.{false, MatchOption, true, ◌-◌, ◌<◌, ◌≡◌, ◌≤◌};
ghost use Rattle.vte_core.specs.private.Prelude.{begins_ignored_string, class_of, dispatches_escape, ends_sequence, is_device_data, is_final, is_head_byte, is_intermediate, is_layout, is_parameter_byte, is_plain_control, is_separator, IsCommandData};

/// CAN: ends whatever is open.
const CANCEL: u8 = 0x18;

/// SUB: ends whatever is open.
const SUBSTITUTE: u8 = 0x1a;

/// ESC: ends whatever is open, and begins a sequence.
pub(crate) const ESCAPE: u8 = 0x1b;

/// Returns whether a byte is a plain control: C0 except CAN, SUB and ESC.
pub(crate) fn is_plain_control(byte: u8) -> bool
    ensures { result ≡ is_plain_control (class_of byte) }
{
    byte < 0x20 && byte != CANCEL && byte != SUBSTITUTE && byte != ESCAPE
}

/// Returns whether a byte is HT, LF or CR.
// `|` has no branch, so LLVM vectorizes `run_blocks`.
#[inline(always)]
pub(crate) fn is_layout(byte: u8) -> bool
    ensures { result ≡ is_layout byte }
{
    (byte == b'\t') | (byte == b'\n') | (byte == b'\r')
}

/// Returns whether a byte is CAN, SUB or ESC, which end whatever is open.
pub(crate) fn ends_sequence(byte: u8) -> bool
    ensures { result ≡ ends_sequence (class_of byte) }
{
    byte == CANCEL || byte == SUBSTITUTE || byte == ESCAPE
}

/// Returns whether a byte is outside 18..1B, and so none of CAN, SUB and ESC.
// Compilers test this by one comparison.
pub(crate) fn cannot_end(byte: u8) -> bool
    ensures { result ≡ true → ends_sequence (class_of byte) ≡ false }
{
    byte < CANCEL || byte > ESCAPE
}

/// Returns whether a byte is data of a device control string: a plain control or 20..7E.
pub(crate) fn is_device_data(byte: u8) -> bool
    ensures { result ≡ is_device_data (class_of byte) }
{
    (byte >= 0x20 && byte < 0x7f) || is_plain_control(byte)
}

/// Returns whether a byte is data of an operating system command, other than `;`.
#[inline(always)]
pub(crate) fn is_command_data(byte: u8) -> bool
    ensures data { result ≡ true → IsCommandData byte }
    ensures no_data { result ≡ false → IsCommandData byte → ⊥ }
{
    // One comparison passes most bytes.
    byte > b';' || (byte >= 0x20 && byte < b';')
}

/// Returns whether a byte is an intermediate 20..2F.
pub(crate) fn is_intermediate(byte: u8) -> bool
    ensures { result ≡ is_intermediate (class_of byte) }
{
    byte >= 0x20 && byte < 0x30
}

/// Returns the value of a digit `0`..`9`.
pub(crate) fn digit_of(byte: u8) -> Option<u32>
    ensures { MatchOption result
        (is_separator byte ≡ false → is_parameter_byte (class_of byte) ≡ false)
        (λ digit. (0x30 ≤ byte) × (byte < 0x3a) × (digit ≡ byte - 0x30)
        × (is_parameter_byte (class_of byte) ≡ true)) }
{
    let digit = u32::from(byte).wrapping_sub(u32::from(b'0'));
    if digit < 10 { Some(digit) } else { None }
}

/// Returns whether a byte is a digit or a separator `0`..`;`.
pub(crate) fn is_parameter_byte(byte: u8) -> bool
    ensures { result ≡ is_parameter_byte (class_of byte) }
{
    byte >= b'0' && byte <= b';'
}

/// Returns whether a byte belongs to a head: 20..3F.
pub(crate) fn is_head_byte(byte: u8) -> bool
    ensures { result ≡ is_head_byte (class_of byte) }
{
    byte >= 0x20 && byte < 0x40
}

/// Returns whether a byte is the final byte of a control sequence or of a device control string's
/// head: 40..7E.
pub(crate) fn is_final(byte: u8) -> bool
    ensures { result ≡ is_final (class_of byte) }
{
    byte >= 0x40 && byte < 0x7f
}

/// Returns whether a byte is the final byte of an escape sequence: 30..7E.
pub(crate) fn dispatches_escape(byte: u8) -> bool
    ensures { result ≡ dispatches_escape (class_of byte) }
{
    byte >= 0x30 && byte < 0x7f
}

/// Returns whether a byte after ESC begins an ignored string: `X` (SOS), `^` (PM) or `_` (APC).
pub(crate) fn begins_ignored_string(byte: u8) -> bool
    ensures { result ≡ begins_ignored_string byte }
{
    byte == b'X' || byte == b'^' || byte == b'_'
}
