//! Select graphic rendition (SGR).
ghost use Rattle.std.specs.Prelude.{drop, option_map, ◌≡◌};
ghost use Rattle.vte.specs.Rendition.{attribute_calls, attribute_table, color_table, rendition, underline_of};
ghost use Rattle.vte_handler.specs.Handler.{after};
ghost use Rattle.vte_types.specs.Words.{entry_of};

use crate::ansi::calls::color_reader::{read_color, read_joined_color};
use crate::ansi::calls::numbers::first_number;
use vte_core::{Params, ParamsIter};
use vte_handler::Handler;
use vte_types::{Attr, Color, NamedColor};

/// Calls the handler for each attribute of the groups.
#[inline(always)]
#[tactic(auto, using(crate::proofs::lemmas::calls::Loops::attributes_after))]
pub(crate) fn perform_attributes<H: Handler>(handler: &mut H, params: &Params)
    ensures { H.value_of handler.new
        ≡ after H.step (H.value_of handler.old) (attribute_calls params.now) }
{
    let mut groups = params.iter();
    while let Some(group) = groups.next() {
        if let Some(attribute) = read_attribute(group, &mut groups) {
            handler.terminal_attribute(attribute);
        }
    }
}

/// Returns the attribute of a group, which may use up some of the groups after it.
// cargo: #[inline]
fn read_attribute(group: &[u16], groups: &mut ParamsIter<'_>) -> Option<Attr>
    ensures value { result ≡ (rendition group.now groups.old).attribute }
    ensures left_is { groups.new ≡ drop (rendition group.now groups.old).used groups.old }
{
    match group {
        [number @ (38 | 48 | 58)] => {
            let kind = first_number(groups.next()?);
            find_colored_attribute(*number, read_color(kind, groups)?)
        }
        [number @ (38 | 48 | 58), numbers @ ..] => {
            find_colored_attribute(*number, read_joined_color(numbers)?)
        }
        [number] => find_attribute(*number),
        [4, numbers @ ..] => Some(find_underline(numbers)),
        _ => None,
    }
}

/// Returns the attribute that a number makes of a colour.
fn find_colored_attribute(number: u16, color: Color) -> Option<Attr>
    ensures { result ≡ option_map (λ with_color. with_color color) (entry_of color_table number) }
{
    match number {
        38 => Some(Attr::Foreground(color)),
        48 => Some(Attr::Background(color)),
        58 => Some(Attr::UnderlineColor(Some(color))),
        _ => None,
    }
}

/// Returns the attribute of a group of one number.
fn find_attribute(number: u16) -> Option<Attr>
    ensures { result ≡ entry_of attribute_table number }
{
    let attribute = match number {
        0 => Attr::Reset,
        1 => Attr::Bold,
        2 => Attr::Dim,
        3 => Attr::Italic,
        4 => Attr::Underline,
        5 => Attr::BlinkSlow,
        6 => Attr::BlinkFast,
        7 => Attr::Reverse,
        8 => Attr::Hidden,
        9 => Attr::Strike,
        21 => Attr::CancelBold,
        22 => Attr::CancelBoldDim,
        23 => Attr::CancelItalic,
        24 => Attr::CancelUnderline,
        25 => Attr::CancelBlink,
        27 => Attr::CancelReverse,
        28 => Attr::CancelHidden,
        29 => Attr::CancelStrike,
        30 => Attr::Foreground(Color::Named(NamedColor::Black)),
        31 => Attr::Foreground(Color::Named(NamedColor::Red)),
        32 => Attr::Foreground(Color::Named(NamedColor::Green)),
        33 => Attr::Foreground(Color::Named(NamedColor::Yellow)),
        34 => Attr::Foreground(Color::Named(NamedColor::Blue)),
        35 => Attr::Foreground(Color::Named(NamedColor::Magenta)),
        36 => Attr::Foreground(Color::Named(NamedColor::Cyan)),
        37 => Attr::Foreground(Color::Named(NamedColor::White)),
        39 => Attr::Foreground(Color::Named(NamedColor::Foreground)),
        40 => Attr::Background(Color::Named(NamedColor::Black)),
        41 => Attr::Background(Color::Named(NamedColor::Red)),
        42 => Attr::Background(Color::Named(NamedColor::Green)),
        43 => Attr::Background(Color::Named(NamedColor::Yellow)),
        44 => Attr::Background(Color::Named(NamedColor::Blue)),
        45 => Attr::Background(Color::Named(NamedColor::Magenta)),
        46 => Attr::Background(Color::Named(NamedColor::Cyan)),
        47 => Attr::Background(Color::Named(NamedColor::White)),
        49 => Attr::Background(Color::Named(NamedColor::Background)),
        59 => Attr::UnderlineColor(None),
        90 => Attr::Foreground(Color::Named(NamedColor::BrightBlack)),
        91 => Attr::Foreground(Color::Named(NamedColor::BrightRed)),
        92 => Attr::Foreground(Color::Named(NamedColor::BrightGreen)),
        93 => Attr::Foreground(Color::Named(NamedColor::BrightYellow)),
        94 => Attr::Foreground(Color::Named(NamedColor::BrightBlue)),
        95 => Attr::Foreground(Color::Named(NamedColor::BrightMagenta)),
        96 => Attr::Foreground(Color::Named(NamedColor::BrightCyan)),
        97 => Attr::Foreground(Color::Named(NamedColor::BrightWhite)),
        100 => Attr::Background(Color::Named(NamedColor::BrightBlack)),
        101 => Attr::Background(Color::Named(NamedColor::BrightRed)),
        102 => Attr::Background(Color::Named(NamedColor::BrightGreen)),
        103 => Attr::Background(Color::Named(NamedColor::BrightYellow)),
        104 => Attr::Background(Color::Named(NamedColor::BrightBlue)),
        105 => Attr::Background(Color::Named(NamedColor::BrightMagenta)),
        106 => Attr::Background(Color::Named(NamedColor::BrightCyan)),
        107 => Attr::Background(Color::Named(NamedColor::BrightWhite)),
        _ => return None,
    };
    Some(attribute)
}

/// Returns the kind of underline, by the numbers after 4.
fn find_underline(numbers: &[u16]) -> Attr
    ensures { result ≡ underline_of numbers.now }
{
    match numbers {
        [0] => Attr::CancelUnderline,
        [2] => Attr::DoubleUnderline,
        [3] => Attr::Undercurl,
        [4] => Attr::DottedUnderline,
        [5] => Attr::DashedUnderline,
        _ => Attr::Underline,
    }
}
