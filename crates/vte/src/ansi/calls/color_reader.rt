//! Colours of numbers, read from any iterator of them.
ghost use Rattle.std.specs.Prelude.{drop, map, ◌≡◌};
ghost use Rattle.vte.specs.Colors.{color_reading, kind_reading, without_color_space};
ghost use Rattle.vte.specs.private.Colors.{first_component};

use crate::ansi::calls::numbers::NumberIterator;
use vte_types::{Color, Rgb};

/// Takes the next number, and returns it if it can be a component of a colour.
fn next_component<I: NumberIterator>(numbers: &mut I) -> Option<u8>
    ensures component { result ≡ first_component (map I.number (I.left numbers.old)) }
    ensures left_is { I.left numbers.new ≡ drop 1 (I.left numbers.old) }
{
    u8::try_from(numbers.next_number()?).ok()
}

/// Reads a colour of this kind, and uses up what it read.
#[tactic(auto, using(crate::proofs::lemmas::calls::Colors::no_red, crate::proofs::lemmas::calls::Colors::after_red, crate::proofs::lemmas::calls::Colors::after_green, crate::proofs::lemmas::calls::Colors::after_blue))]
pub(crate) fn read_color<I: NumberIterator>(kind: u16, numbers: &mut I) -> Option<Color>
    ensures color { result ≡ (kind_reading kind (map I.number (I.left numbers.old))).color }
    ensures left_is { I.left numbers.new
        ≡ drop (kind_reading kind (map I.number (I.left numbers.old))).used (I.left numbers.old) }
{
    match kind {
        2 => {
            let r = next_component(numbers)?;
            let g = next_component(numbers)?;
            let b = next_component(numbers)?;
            Some(Color::Spec(Rgb { r, g, b }))
        }
        5 => Some(Color::Indexed(next_component(numbers)?)),
        _ => None,
    }
}

/// Reads a colour after 38, 48 or 58 in one group.
#[tactic(auto, using(crate::proofs::lemmas::calls::Colors::map_identity))]
pub(crate) fn read_joined_color(numbers: &[u16]) -> Option<Color>
    ensures { result ≡ (color_reading (without_color_space numbers.now)).color }
{
    let (kind, mut left) = numbers.split_first()?;
    if left.len() > 3 {
        left = &left[1..];
    }
    read_color(*kind, &mut left)
}
