//! Parts of the screen, the look of the cursor, and the direction of text.

/// Which part of the cursor's line is cleared (ECMA-48, EL).
#[derive(Debug, Drop)]
pub enum LineClearMode {
    /// From the cursor to the end of the line.
    Right,
    /// From the start of the line to the cursor.
    Left,
    /// The whole line.
    All,
}

/// Which part of the screen is cleared (ECMA-48, ED).
#[derive(Debug, Drop)]
pub enum ClearMode {
    /// From the cursor to the end of the screen.
    Below,
    /// From the start of the screen to the cursor.
    Above,
    /// The whole screen.
    All,
    /// The scrollback (xterm).
    Saved,
}

/// Which tab stops are cleared (ECMA-48, TBC).
#[derive(Debug, Drop)]
pub enum TabulationClearMode {
    /// The one at the cursor.
    Current,
    /// All of them.
    All,
}

/// How the cursor looks (DEC VT510, DECSCUSR). The default is a block that doesn't blink.
#[derive(Default, Debug, Eq, PartialEq, Copy, Clone, Hash)]
pub struct CursorStyle {
    /// Its shape.
    pub shape: CursorShape,
    /// Whether it blinks.
    pub blinking: bool,
}

/// The cursor's shape.
#[derive(Default, Debug, Eq, PartialEq, Copy, Clone, Hash)]
pub enum CursorShape {
    /// A filled cell (DEC VT510).
    #[default]
    Block,
    /// A line under the character (DEC VT510).
    Underline,
    /// A line before the character (xterm).
    Beam,
    /// The outline of a cell, for a terminal without focus. No sequence asks for it.
    HollowBlock,
    /// No cursor. No sequence asks for it.
    Hidden,
}

/// The direction of characters (ECMA-48, SCP).
#[derive(Debug, Clone, Copy, PartialEq, Eq, Hash)]
pub enum ScpCharPath {
    /// The terminal's own setting.
    Default,
    /// From left to right, or from top to bottom.
    LTR,
    /// From right to left, or from bottom to top.
    RTL,
}

/// What happens to the text that is shown when the direction changes (ECMA-48, SCP).
#[derive(Debug, Clone, Copy, PartialEq, Eq, Hash)]
pub enum ScpUpdateMode {
    /// The implementation decides.
    ImplementationDependant,
    /// The display is updated from the data.
    DataToPresentation,
    /// The data are updated from the display.
    PresentationToData,
}
