//! Character sets (ECMA-35).
ghost use Rattle.std.specs.Prelude.{◌≡◌};
ghost use Rattle.vte_types.specs.Charset.{shown_character};

/// One of the four character sets that a terminal keeps ready (ECMA-35). `ESC (` to `ESC +`
/// designate them; SI and SO invoke the first two.
#[derive(Clone, Copy, Debug, Default, Eq, PartialEq)]
pub enum CharsetIndex {
    /// The set that is invoked initially.
    #[default]
    G0,
    /// The set G1.
    G1,
    /// The set G2.
    G2,
    /// The set G3.
    G3,
}

/// A character set that a program can designate.
///
/// ```
/// # use vte::ansi::StandardCharset;
/// let charset = StandardCharset::SpecialCharacterAndLineDrawing;
/// assert_eq!(charset.map('q'), '─');
/// assert_eq!(StandardCharset::Ascii.map('q'), 'q');
/// ```
#[derive(Clone, Copy, Debug, Default, Eq, PartialEq)]
pub enum StandardCharset {
    /// ASCII, designated by `B`.
    #[default]
    Ascii,
    /// DEC Special Graphics, designated by `0` (DEC VT100).
    SpecialCharacterAndLineDrawing,
}

impl StandardCharset {
    /// Returns the character that is shown for `c` while this set is invoked.
    ///
    /// ASCII shows `c` itself. DEC Special Graphics replaces each of `_` to `~`, and shows any
    /// other character as it is.
    pub fn map(self, c: char) -> char
        ensures { result ≡ shown_character self c }
    {
        match self {
            StandardCharset::Ascii => c,
            StandardCharset::SpecialCharacterAndLineDrawing => match c {
                '_' => ' ',
                '`' => '\u{25c6}',
                'a' => '\u{2592}',
                'b' => '\u{2409}',
                'c' => '\u{240c}',
                'd' => '\u{240d}',
                'e' => '\u{240a}',
                'f' => '\u{b0}',
                'g' => '\u{b1}',
                'h' => '\u{2424}',
                'i' => '\u{240b}',
                'j' => '\u{2518}',
                'k' => '\u{2510}',
                'l' => '\u{250c}',
                'm' => '\u{2514}',
                'n' => '\u{253c}',
                'o' => '\u{23ba}',
                'p' => '\u{23bb}',
                'q' => '\u{2500}',
                'r' => '\u{23bc}',
                's' => '\u{23bd}',
                't' => '\u{251c}',
                'u' => '\u{2524}',
                'v' => '\u{2534}',
                'w' => '\u{252c}',
                'x' => '\u{2502}',
                'y' => '\u{2264}',
                'z' => '\u{2265}',
                '{' => '\u{3c0}',
                '|' => '\u{2260}',
                '}' => '\u{a3}',
                '~' => '\u{b7}',
                _ => c,
            },
        }
    }
}
