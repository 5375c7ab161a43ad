//! Modes, which are set and reset by number (ECMA-48, SM and RM; DEC, DECSET and DECRST).
ghost use Rattle.std.specs.Prelude.{◌≡◌};
ghost use Rattle.vte_types.specs.Mode.{mode_of, named_mode, named_private_mode, number_of_mode, number_of_private_mode, private_mode_of};

/// A mode of ECMA-48.
///
/// ```rattle
/// let mode = Mode::new(4);
/// assert_eq!(mode, Mode::Named(NamedMode::Insert));
/// assert_eq!(mode.raw(), 4);
/// assert_eq!(Mode::new(12), Mode::Unknown(12));
/// ```
#[derive(Debug, Clone, Copy, Eq, PartialEq)]
pub enum Mode {
    /// One that has a name.
    Named(NamedMode),
    /// Any other number.
    Unknown(u16),
}

/// The named modes of ECMA-48. `as u16` gives the number.
#[derive(Debug, Clone, Copy, Eq, PartialEq)]
// cargo: #[repr(u16)]
pub enum NamedMode {
    /// IRM: printing a character moves the characters after it (ECMA-48).
    Insert = 4,
    /// LNM: a line feed also returns to the start of the line (ECMA-48, fourth edition; DEC).
    LineFeedNewLine = 20,
}

/// A private mode, marked by `?`.
#[derive(Debug, Clone, Copy, Eq, PartialEq)]
pub enum PrivateMode {
    /// One that has a name.
    Named(NamedPrivateMode),
    /// Any other number.
    Unknown(u16),
}

/// The named private modes. `as u16` gives the number.
#[derive(Debug, Clone, Copy, Eq, PartialEq)]
pub enum NamedPrivateMode {
    /// DECCKM: cursor keys send application sequences (DEC).
    CursorKeys = 1,
    /// DECCOLM: 132 columns (DEC).
    ColumnMode = 3,
    /// DECOM: lines are counted from the top margin (DEC).
    Origin = 6,
    /// DECAWM: text wraps to the next line (DEC).
    LineWrap = 7,
    /// The cursor blinks (AT&T 610).
    BlinkingCursor = 12,
    /// DECTCEM: the cursor is shown (DEC).
    ShowCursor = 25,
    /// Presses and releases of mouse buttons are reported (xterm).
    ReportMouseClicks = 1000,
    /// Mouse motion with a button held is reported too (xterm).
    ReportCellMouseMotion = 1002,
    /// All mouse motion is reported too (xterm).
    ReportAllMouseMotion = 1003,
    /// Focus changes are reported (xterm).
    ReportFocusInOut = 1004,
    /// Mouse positions are reported in UTF-8 (xterm).
    Utf8Mouse = 1005,
    /// Mouse positions are reported in decimal (xterm, SGR form).
    SgrMouse = 1006,
    /// The wheel sends cursor keys on the alternate screen (xterm).
    AlternateScroll = 1007,
    /// BEL asks for the window manager's attention (xterm).
    UrgencyHints = 1042,
    /// The cursor is saved and the cleared alternate screen is shown (xterm).
    SwapScreenAndSetRestoreCursor = 1049,
    /// Pasted text is bracketed (xterm).
    BracketedPaste = 2004,
    /// Drawing is held back and shown all at once when the mode ends (synchronized output).
    SyncUpdate = 2026,
}

impl Mode {
    /// Returns the mode with this number.
    // cargo instead: pub(crate) fn new(mode: u16) -> Self
    pub fn new(mode: u16) -> Self
        ensures { result ≡ mode_of mode }
    {
        match mode {
            4 => Mode::Named(NamedMode::Insert),
            20 => Mode::Named(NamedMode::LineFeedNewLine),
            _ => Mode::Unknown(mode),
        }
    }

    /// Returns the mode's number.
    pub fn raw(self) -> u16
        ensures { result ≡ number_of_mode self }
    {
        match self {
            Mode::Named(named) => named as u16,
            Mode::Unknown(mode) => mode,
        }
    }
}

impl From<NamedMode> for Mode {
    ghost from_gives = { λ named mode. mode ≡ named_mode named };

    fn from(value: NamedMode) -> Self {
        Mode::Named(value)
    }
}

impl PrivateMode {
    /// Returns the private mode with this number.
    // cargo instead: pub(crate) fn new(mode: u16) -> Self
    pub fn new(mode: u16) -> Self
        ensures { result ≡ private_mode_of mode }
    {
        match mode {
            1 => PrivateMode::Named(NamedPrivateMode::CursorKeys),
            3 => PrivateMode::Named(NamedPrivateMode::ColumnMode),
            6 => PrivateMode::Named(NamedPrivateMode::Origin),
            7 => PrivateMode::Named(NamedPrivateMode::LineWrap),
            12 => PrivateMode::Named(NamedPrivateMode::BlinkingCursor),
            25 => PrivateMode::Named(NamedPrivateMode::ShowCursor),
            1000 => PrivateMode::Named(NamedPrivateMode::ReportMouseClicks),
            1002 => PrivateMode::Named(NamedPrivateMode::ReportCellMouseMotion),
            1003 => PrivateMode::Named(NamedPrivateMode::ReportAllMouseMotion),
            1004 => PrivateMode::Named(NamedPrivateMode::ReportFocusInOut),
            1005 => PrivateMode::Named(NamedPrivateMode::Utf8Mouse),
            1006 => PrivateMode::Named(NamedPrivateMode::SgrMouse),
            1007 => PrivateMode::Named(NamedPrivateMode::AlternateScroll),
            1042 => PrivateMode::Named(NamedPrivateMode::UrgencyHints),
            1049 => PrivateMode::Named(NamedPrivateMode::SwapScreenAndSetRestoreCursor),
            2004 => PrivateMode::Named(NamedPrivateMode::BracketedPaste),
            2026 => PrivateMode::Named(NamedPrivateMode::SyncUpdate),
            _ => PrivateMode::Unknown(mode),
        }
    }

    /// Returns the private mode's number.
    pub fn raw(self) -> u16
        ensures { result ≡ number_of_private_mode self }
    {
        match self {
            PrivateMode::Named(named) => named as u16,
            PrivateMode::Unknown(mode) => mode,
        }
    }
}

impl From<NamedPrivateMode> for PrivateMode {
    ghost from_gives = { λ named mode. mode ≡ named_private_mode named };

    fn from(value: NamedPrivateMode) -> Self {
        PrivateMode::Named(value)
    }
}
