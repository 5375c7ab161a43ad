//! A cell of the grid, and what SGR does to it.

use arrayvec::ArrayVec;
use vte::ansi::{Color, NamedColor, Rgb};
use vte_core::Params;

/// A cell: a character, and the style in which it is shown.
#[derive(Clone, Copy, PartialEq)]
pub struct Cell {
    pub character: char,
    pub style: Style,
}

impl Cell {
    /// Shows a character in a style.
    #[inline]
    pub(crate) fn show(&mut self, character: char, style: Style) {
        *self = Cell { character, style };
    }
}

/// How a cell looks. SGR n sets bit n of the attributes.
#[derive(Clone, Copy, PartialEq)]
pub struct Style {
    pub foreground: Color,
    pub background: Color,
    pub attributes: u32,
}

impl Style {
    pub(crate) const PLAIN: Style = Style {
        foreground: Color::Named(NamedColor::Foreground),
        background: Color::Named(NamedColor::Background),
        attributes: 0,
    };

    /// SGR. The numbers of a color may be in one parameter or in several.
    pub(crate) fn select_all(&mut self, params: &Params) {
        let mut numbers = ArrayVec::<u8, 5>::new();
        for number in params.iter().flatten() {
            let _ = numbers.try_push((*number).min(255) as u8);
            match numbers.as_slice() {
                // The color goes on.
                [38 | 48] | [38 | 48, 2 | 5] | [_, 2, _] | [_, 2, _, _] => continue,
                setting => self.select(setting),
            }
            numbers.clear();
        }
    }

    /// Applies one SGR setting, an attribute or all numbers of a color.
    pub(crate) fn select(&mut self, numbers: &[u8]) {
        match *numbers {
            [0] => *self = Style::PLAIN,
            [number @ 1..=9] => self.attributes |= 1 << number,
            [22] => self.attributes &= !0b110,
            [number @ 23..=29] => self.attributes &= !(1 << (number - 20)),
            [number @ 30..=37] => self.foreground = Color::Indexed(number - 30),
            [38, 5, index] => self.foreground = Color::Indexed(index),
            [38, 2, r, g, b] => self.foreground = Color::Spec(Rgb { r, g, b }),
            [39] => self.foreground = Style::PLAIN.foreground,
            [number @ 40..=47] => self.background = Color::Indexed(number - 40),
            [48, 5, index] => self.background = Color::Indexed(index),
            [48, 2, r, g, b] => self.background = Color::Spec(Rgb { r, g, b }),
            [49] => self.background = Style::PLAIN.background,
            [number @ 90..=97] => self.foreground = Color::Indexed(number - 82),
            [number @ 100..=107] => self.background = Color::Indexed(number - 92),
            _ => {}
        }
    }
}
