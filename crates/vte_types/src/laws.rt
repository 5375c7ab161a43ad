//! Laws of the tables. All functions except `defaults` do nothing: their contracts are the laws.
ghost use Rattle.std.specs.Prelude.{bytes_eq, false, fold, IsTrue, length, List, None, Some, ℕ, ◌++◌, ◌<◌, ◌≡◌, ◌≢◌};
ghost use Rattle.std.specs.Str.{is_utf8};
ghost use Rattle.vte_types.specs.CursorIcon.{icon_of};
ghost use Rattle.vte_types.specs.Keyboard.{modes_of_bits};
ghost use Rattle.vte_types.specs.Mode.{mode_of, number_of_mode, number_of_private_mode, private_mode_of};
ghost use Rattle.vte_types.specs.NamedColor.{bright_of, dim_of, is_bright, is_dim, number_of_color};
ghost use Rattle.vte_types.specs.Rgb.{hex_color_of, shown_color};
ghost use Rattle.vte_types.specs.Words.{after_word};

use crate::charset::{CharsetIndex, StandardCharset};
use crate::color::{NamedColor, Rgb};
use crate::keyboard::{KeyboardModes, KeyboardModesApplyBehavior};
use crate::screen::{CursorShape, CursorStyle};
use std::hash::{Hash, Hasher};

/// A colour that is shown as text is read back from it.
pub fn shown_colors_are_read_back()
    ensures { (color : Rgb) → color.r < 256 → color.g < 256 → color.b < 256
        → hex_color_of (shown_color color) ≡ Some color }
{}

/// `to_bright` and then `to_dim` gives the colour back unless it is bright, which has no brighter
/// form; the other way round, unless it is dim.
pub fn shades_undo_each_other()
    ensures dim_of_bright { (color : NamedColor) → is_bright color ≡ false
        → dim_of (bright_of color) ≡ color }
    ensures bright_of_dim { (color : NamedColor) → is_dim color ≡ false
        → bright_of (dim_of color) ≡ color }
{}

/// No two named colours have the same number, so their order agrees with equality.
pub fn named_color_numbers_are_distinct()
    ensures { (a b : NamedColor) → number_of_color a ≡ number_of_color b → a ≡ b }
{}

/// A mode made from a number has that number.
pub fn modes_keep_their_numbers()
    ensures mode { (number : ℕ) → number_of_mode (mode_of number) ≡ number }
    ensures private_mode { (number : ℕ) → number_of_private_mode (private_mode_of number) ≡ number }
{}

/// Stripping a word from a text that begins with it gives the rest, and any other text nothing.
pub fn words_are_prefixes()
    ensures front { (word rest : List ℕ) → after_word word (word ++ rest) ≡ Some rest }
    ensures no_prefix { (word text : List ℕ) → ((rest : List ℕ) → text ≢ word ++ rest)
        → after_word word text ≡ None }
{}

/// A text other than a word doesn't equal it, and so neither does a shorter or longer one.
pub fn words_differ_from_other_texts()
    ensures unequal { (text word : List ℕ) → text ≢ word → bytes_eq text word ≡ false }
    ensures shorter { (text word : List ℕ) → length text < length word
        → bytes_eq text word ≡ false }
    ensures longer { (text word : List ℕ) → length word < length text → bytes_eq text word ≡ false }
{}

/// A text that isn't UTF-8 isn't a cursor keyword.
pub fn keywords_are_text()
    ensures { (text : List ℕ) → is_utf8 text ≡ false → icon_of text ≡ None }
{}

/// Equal values hash equally, in every hasher and in every state of it. The types here are
/// `CursorIcon`, `CursorShape`, `CursorStyle`, `KeyboardModes`, `ModifyOtherKeys`, `ScpCharPath`
/// and `ScpUpdateMode`.
pub fn equal_values_hash_equally<T: Hash, H: Hasher>()
    ensures { (state : H) (a b : T) → IsTrue (T.eq a b)
        → fold H.write state (T.hash_input a) ≡ fold H.write state (T.hash_input b) }
{}

/// The default of each type that has one.
pub fn defaults() -> (
    CharsetIndex,
    StandardCharset,
    CursorShape,
    CursorStyle,
    KeyboardModes,
    KeyboardModesApplyBehavior,
    Rgb,
)
    ensures charset_index { result.0 ≡ CharsetIndex.G0 }
    ensures charset { result.1 ≡ StandardCharset.Ascii }
    ensures cursor_shape { result.2 ≡ CursorShape.Block }
    ensures cursor_style { result.3 ≡ record { shape = CursorShape.Block; blinking = false } }
    ensures keyboard_modes { result.4 ≡ modes_of_bits 0 }
    ensures apply_behavior { result.5 ≡ KeyboardModesApplyBehavior.Replace }
    ensures color { result.6 ≡ record { r = 0; g = 0; b = 0 } }
{
    (
        CharsetIndex::default(),
        StandardCharset::default(),
        CursorShape::default(),
        CursorStyle::default(),
        KeyboardModes::default(),
        KeyboardModesApplyBehavior::default(),
        Rgb::default(),
    )
}
