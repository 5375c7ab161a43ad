//! Fields of lines.
ghost use Rattle.std.specs.Fmt.{decimal};
ghost use Rattle.std.specs.List.{join_with_byte};
ghost use Rattle.std.specs.Prelude.{codes, length, map, ◌%◌, ◌++◌, ◌+◌, ◌<◌, ◌≡◌, ◌≤◌};
ghost use Rattle.event_log.specs.Lines.{flag_field, hex_byte, hex_character, hex_field, pieces_fields, sequence_fields};
ghost use Rattle.event_log.specs.private.Line.{ExtendsLine};
ghost use Rattle.vte_core.specs.Parameters.{colon, shown};

use super::LogBuffer;
use super::hex::{hex_length, hex_pair, six_hex_digits};
use vte_core::Params;

impl LogBuffer {
    /// Pushes the decimal digits of a number, three at a time.
    pub(crate) fn push_decimal(&mut self, number: usize)
        ensures { ExtendsLine self.old (decimal number) self.new }
    {
        match number {
            0..10 => self.push(&[digit(number)]),
            10..100 => self.push(&[digit(number / 10), digit(number)]),
            100..1000 => self.push(&[digit(number / 100), digit(number / 10), digit(number)]),
            _ => {
                self.push_decimal(number / 1000);
                self.push(&[digit(number / 100), digit(number / 10), digit(number)]);
            }
        }
    }

    /// Pushes a byte as two hex digits.
    pub(crate) fn push_hex_byte(&mut self, byte: u8)
        ensures { ExtendsLine self.old (hex_byte byte) self.new }
    {
        self.push(&hex_pair(byte));
    }

    /// Pushes a blank, and bytes as hex digits, or `-` for none.
    #[tactic(auto, using(crate::proofs::lemmas::Fields::extends_then), unfolding(crate::specs::Lines::hex_field))]
    pub(crate) fn push_hex_field(&mut self, bytes: &[u8])
        ensures { ExtendsLine self.old (hex_field bytes.now) self.new }
    {
        if bytes.is_empty() {
            self.push(b" -");
            return;
        }
        self.push(b" ");
        for byte in bytes {
            self.push_hex_byte(*byte);
        }
    }

    /// Pushes a blank, and `true` or `false`.
    #[tactic(auto, unfolding(crate::specs::Lines::flag_field))]
    pub(crate) fn push_flag_field(&mut self, flag: bool)
        ensures { ExtendsLine self.old (flag_field flag) self.new }
    {
        self.push(if flag { b" true" } else { b" false" });
    }

    /// Pushes the number of pieces, and each piece as a field.
    pub(crate) fn push_pieces_fields(&mut self, pieces: &[&[u8]])
        ensures { ExtendsLine self.old
            (pieces_fields (map (λ piece. piece.now) pieces.now)) self.new }
    {
        self.push(b" ");
        self.push_decimal(pieces.len());
        for piece in pieces {
            self.push_hex_field(piece);
        }
    }

    /// Pushes the fields of a control sequence or a device control string.
    pub(crate) fn push_sequence_fields(
        &mut self,
        params: &Params,
        intermediates: &[u8],
        ignore: bool,
        action: char,
    )
        ensures { ExtendsLine self.old
            (sequence_fields params.now intermediates.now ignore action) self.new }
    {
        self.push_groups(params);
        self.push_hex_field(intermediates);
        self.push_flag_field(ignore);
        self.push(b" ");
        self.push_character(2, action);
    }

    /// Pushes the groups, separated by `;`, and the numbers of each, separated by `:`.
    fn push_groups(&mut self, params: &Params)
        ensures { ExtendsLine self.old (codes " [" ++ shown params.now ++ codes "]") self.new }
    {
        self.push(b" [");
        let mut groups = params.iter();
        if let Some(first) = groups.next() {
            self.push_numbers(first);
            for group in groups {
                self.push(b";");
                self.push_numbers(group);
            }
        }
        self.push(b"]");
    }

    /// Pushes the numbers of a group.
    fn push_numbers(&mut self, group: &[u16])
        requires { 0 < length group.now }
        ensures { ExtendsLine self.old (join_with_byte colon (map decimal group.now)) self.new }
    {
        self.push_decimal(usize::from(group[0]));
        for number in &group[1..] {
            self.push(b":");
            self.push_decimal(usize::from(*number));
        }
    }

    /// Pushes the number of a character in hex, padded to at least `least` digits.
    pub(crate) fn push_character(&mut self, least: usize, c: char)
        requires { least ≤ 6 }
        ensures { ExtendsLine self.old (hex_character least c) self.new }
    {
        let number = c as u32;
        let digits = six_hex_digits(number);
        let start = 6 - least.max(hex_length(number));
        self.push(&digits[start..]);
    }
}

/// Returns the last decimal digit of a number.
fn digit(number: usize) -> u8
    ensures { result ≡ 0x30 + number % 10 }
{
    b'0' + (number % 10) as u8
}
