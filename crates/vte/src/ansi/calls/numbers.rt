//! The numbers of a control sequence, and those in texts of commands.
ghost use Rattle.std.specs.Fmt.{decimal};
ghost use Rattle.std.specs.Prelude.{drop, length, List, map, ℕ, ◌++◌, ◌+◌, ◌<◌, ◌≡◌, ◌≤◌};
ghost use Rattle.vte.specs.Numbers.{decimal_number, first_nonzero_or, first_number as first_of_group, first_of};

use crate::ansi::calls::text_buffer::TextBuffer;
use vte_core::ParamsIter;

/// An iterator of numbers, with contracts that say which numbers are left.
pub(crate) trait NumberIterator {
    ghost Left: { Type 0 };

    ghost left: { Self → List Left };

    ghost number: { Left → ℕ };

    /// Returns the next number.
    fn next_number(&mut self) -> Option<u16>
        ensures value { result ≡ first_of (map number (left self.old)) }
        ensures left_is { left self.new ≡ drop 1 (left self.old) };

    /// Returns the next number, or `default` if that is 0 or there is none left.
    // cargo: #[inline]
    fn next_or(&mut self, default: u16) -> u16
        ensures value { result ≡ first_nonzero_or default (map number (left self.old)) }
        ensures left_is { left self.new ≡ drop 1 (left self.old) }
        ensures positive { 0 < default → 0 < result }
    {
        match self.next_number() {
            Some(number) if number != 0 => number,
            _ => default,
        }
    }

    /// Returns the next number as a count, or 1 if it is 0 or there is none left.
    // cargo: #[inline]
    fn next_count(&mut self) -> usize
        ensures value { result ≡ first_nonzero_or 1 (map number (left self.old)) }
        ensures left_is { left self.new ≡ drop 1 (left self.old) }
        ensures positive { 0 < result }
    {
        usize::from(self.next_or(1))
    }
}

/// Takes the first number of each group.
impl NumberIterator for ParamsIter<'_> {
    ghost use Rattle.std.specs.Prelude.{List, ℕ};
    ghost use Rattle.vte.specs.Numbers.{first_number as first_of_group};

    ghost Left = { List ℕ };

    ghost left = { λ groups. groups };

    ghost number = { first_of_group };

    // cargo: #[inline]
    fn next_number(&mut self) -> Option<u16> {
        Some(first_number(self.next()?))
    }
}

impl NumberIterator for &[u16] {
    ghost use Rattle.std.specs.Prelude.{ℕ};

    ghost Left = { ℕ };

    ghost left = { λ numbers. numbers.now };

    ghost number = { λ number. number };

    fn next_number(&mut self) -> Option<u16> {
        let (number, rest) = self.split_first()?;
        *self = rest;
        Some(*number)
    }
}

/// Returns the first number of a group. No group is empty.
// cargo: #[inline]
pub(crate) fn first_number(group: &[u16]) -> u16
    ensures { result ≡ first_of_group group.now }
{
    match group {
        [number, ..] => *number,
        [] => 0,
    }
}

/// Reads a decimal number of at most 255.
pub(crate) fn parse_number(digits: &[u8]) -> Option<u8>
    ensures { result ≡ decimal_number digits.now }
{
    if digits.is_empty() {
        return None;
    }
    let mut number: u8 = 0;
    for byte in digits {
        let digit = char::from(*byte).to_digit(10)?;
        number = number.checked_mul(10)?.checked_add(digit as u8)?;
    }
    Some(number)
}

/// Appends a number to a text.
#[tactic(auto, using(std::proofs::lemmas::Fmt::decimal_digit, std::proofs::lemmas::Fmt::decimal_step))]
pub(crate) fn push_number<B: TextBuffer>(text: &mut B, number: u8)
    requires { length (B.stored text.old) + length (decimal number) ≤ B.text_capacity text.old }
    ensures pushed { B.stored text.new ≡ B.stored text.old ++ decimal number }
    ensures same_capacity { B.text_capacity text.new ≡ B.text_capacity text.old }
{
    if number < 10 {
        text.push(char::from(b'0' + number));
    } else {
        push_number(text, number / 10);
        text.push(char::from(b'0' + number % 10));
    }
}
