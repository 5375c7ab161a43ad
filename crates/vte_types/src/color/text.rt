//! Colours as hex digits.
ghost use Rattle.std.specs.Option.{ok_or};
ghost use Rattle.std.specs.Prelude.{option_map, Some, [], ◌∷◌, ◌≡◌};
ghost use Rattle.vte_types.specs.Rgb.{color_of_six, hex_color_of, hex_number, shown_color};
ghost use Rattle.vte_types.specs.Words.{after_word};

use super::Rgb;
use std::fmt;
use std::str::FromStr;

/// Writes `#` and two lowercase hex digits per component.
impl fmt::Display for Rgb {
    ghost output = { λ color. Some (shown_color color) };

    #[tactic(auto, using(std::proofs::lemmas::Fmt::hex_byte))]
    fn fmt<W: fmt::Write>(&self, f: &mut fmt::Formatter<W>) -> fmt::Result {
        let Rgb { r, g, b } = *self;
        write!(f, "#{r:02x}{g:02x}{b:02x}")
    }
}

/// Reads `0x` or `#` and exactly six hex digits of either case. Any other text is `Err(())`.
impl FromStr for Rgb {
    type Err = ();

    ghost from_str_gives = { λ text result. result ≡ ok_or (hex_color_of text) tt };

    fn from_str(s: &str) -> Result<Rgb, ()> {
        let text = s.as_bytes();
        let digits = strip_word(text, b"0x")
            .or(strip_word(text, b"#"))
            .ok_or(())?;
        six_digits(digits).ok_or(())
    }
}

/// Returns what follows a word at the start of the text.
fn strip_word<'a>(text: &'a [u8], word: &[u8]) -> Option<&'a [u8]>
    ensures { option_map (λ rest. rest.now) result ≡ after_word word.now text.now }
{
    text.strip_prefix(word)
}

/// Returns the colour of six hex digits, two per component.
fn six_digits(digits: &[u8]) -> Option<Rgb>
    ensures { result ≡ color_of_six digits.now }
{
    match digits {
        [r, s, g, h, b, c] => Some(Rgb {
            r: two_digits(*r, *s)?,
            g: two_digits(*g, *h)?,
            b: two_digits(*b, *c)?,
        }),
        _ => None,
    }
}

/// Returns the number of two hex digits.
fn two_digits(high: u8, low: u8) -> Option<u8>
    ensures { result ≡ hex_number (high ∷ low ∷ []) }
{
    let high = char::from(high).to_digit(16)?;
    let low = char::from(low).to_digit(16)?;
    Some((16 * high + low) as u8)
}
