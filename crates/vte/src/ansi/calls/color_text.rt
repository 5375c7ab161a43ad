//! Colours as texts.
ghost use Rattle.std.specs.Prelude.{IfSome, length, Some, ◌<◌, ◌^◌, ◌≡◌, ◌≤◌};
ghost use Rattle.vte.specs.Colors.{color_of_parts, color_of_thirds, component_by, scaled_to_255, top_eight_bits, xparse_color_of};
ghost use Rattle.vte.specs.Split.{split_by};
ghost use Rattle.vte_types.specs.Rgb.{hex_number};

use crate::ansi::calls::split::{split_at_first, strip_word};
use vte_types::Rgb;

/// Returns the colour that a text names.
pub(crate) fn xparse_color(text: &[u8]) -> Option<Rgb>
    ensures { result ≡ xparse_color_of text.now }
{
    if let Some(parts) = strip_word(text, b"rgb:") {
        return read_parts(parts);
    }
    read_thirds(strip_word(text, b"#")?)
}

/// Returns the colour of three numbers with `/` between them.
#[tactic(auto, using(crate::proofs::lemmas::calls::Colors::fourth_part))]
fn read_parts(text: &[u8]) -> Option<Rgb>
    ensures { result ≡ color_of_parts (split_by 0x2f text.now) }
{
    let (r, after_r) = split_at_first(text, b'/');
    let (g, after_g) = split_at_first(after_r?, b'/');
    let (b, after_b) = split_at_first(after_g?, b'/');
    if after_b.is_some() {
        return None;
    }
    Some(Rgb {
        r: scale_to_255(r)?,
        g: scale_to_255(g)?,
        b: scale_to_255(b)?,
    })
}

/// Returns the colour of hex digits, a third of them for each component.
fn read_thirds(digits: &[u8]) -> Option<Rgb>
    ensures { result ≡ color_of_thirds digits.now }
{
    let count = digits.len() / 3;
    if digits.len() != 3 * count {
        return None;
    }
    let r = take_top_eight_bits(&digits[..count])?;
    let g = take_top_eight_bits(&digits[count..][..count])?;
    let b = take_top_eight_bits(&digits[2 * count..])?;
    Some(Rgb { r, g, b })
}

/// Returns the number that hex digits stand for.
fn read_hex(digits: &[u8]) -> Option<u32>
    requires { length digits.now ≤ 4 }
    ensures value { result ≡ hex_number digits.now }
    ensures value_below { IfSome result (λ number. number < 16 ^ length digits.now) }
{
    let mut number: u32 = 0;
    for byte in digits {
        number = 16 * number + char::from(*byte).to_digit(16)?;
    }
    Some(number)
}

/// Scales the number of hex digits so that the greatest number with as many digits becomes 255.
fn scale_to_255(digits: &[u8]) -> Option<u8>
    ensures { result ≡ component_by scaled_to_255 digits.now }
{
    let greatest = match digits.len() {
        1 => 0xf,
        2 => 0xff,
        3 => 0xfff,
        4 => 0xffff,
        _ => return None,
    };
    Some((255 * read_hex(digits)? / greatest) as u8)
}

/// Returns the top eight bits of a number of this many digits.
fn take_top_eight_bits(digits: &[u8]) -> Option<u8>
    ensures { result ≡ component_by top_eight_bits digits.now }
{
    let range = match digits.len() {
        1 => 0x10,
        2 => 0x100,
        3 => 0x1000,
        4 => 0x10000,
        _ => return None,
    };
    Some((256 * read_hex(digits)? / range) as u8)
}
