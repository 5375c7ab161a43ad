//! Cursor icons (CSS Basic User Interface Module, the property `cursor`).
ghost use Rattle.std.specs.Option.{ok_or};
ghost use Rattle.std.specs.Prelude.{map, ◌≡◌};
ghost use Rattle.vte_types.specs.CursorIcon.{icon_of};
ghost use Rattle.vte_types.specs.Words.{entry_of_word};

use std::str::FromStr;

/// An icon of the mouse cursor. Each variant is named after its CSS keyword, in camel case.
///
/// ```
/// assert_eq!("ew-resize".parse::<CursorIcon>(), Ok(CursorIcon::EwResize));
/// assert_eq!("EW-RESIZE".parse::<CursorIcon>(), Err(()));
/// ```
#[derive(Debug, Clone, Copy, PartialEq, Eq, Hash)]
pub enum CursorIcon {
    Default,
    ContextMenu,
    Help,
    Pointer,
    Progress,
    Wait,
    Cell,
    Crosshair,
    Text,
    VerticalText,
    Alias,
    Copy,
    Move,
    NoDrop,
    NotAllowed,
    Grab,
    Grabbing,
    EResize,
    NResize,
    NeResize,
    NwResize,
    SResize,
    SeResize,
    SwResize,
    WResize,
    EwResize,
    NsResize,
    NeswResize,
    NwseResize,
    ColResize,
    RowResize,
    AllScroll,
    ZoomIn,
    ZoomOut,
}

/// The keywords in the order of the variants.
static KEYWORDS: [(&str, CursorIcon); 34] = [
    ("default", CursorIcon::Default),
    ("context-menu", CursorIcon::ContextMenu),
    ("help", CursorIcon::Help),
    ("pointer", CursorIcon::Pointer),
    ("progress", CursorIcon::Progress),
    ("wait", CursorIcon::Wait),
    ("cell", CursorIcon::Cell),
    ("crosshair", CursorIcon::Crosshair),
    ("text", CursorIcon::Text),
    ("vertical-text", CursorIcon::VerticalText),
    ("alias", CursorIcon::Alias),
    ("copy", CursorIcon::Copy),
    ("move", CursorIcon::Move),
    ("no-drop", CursorIcon::NoDrop),
    ("not-allowed", CursorIcon::NotAllowed),
    ("grab", CursorIcon::Grab),
    ("grabbing", CursorIcon::Grabbing),
    ("e-resize", CursorIcon::EResize),
    ("n-resize", CursorIcon::NResize),
    ("ne-resize", CursorIcon::NeResize),
    ("nw-resize", CursorIcon::NwResize),
    ("s-resize", CursorIcon::SResize),
    ("se-resize", CursorIcon::SeResize),
    ("sw-resize", CursorIcon::SwResize),
    ("w-resize", CursorIcon::WResize),
    ("ew-resize", CursorIcon::EwResize),
    ("ns-resize", CursorIcon::NsResize),
    ("nesw-resize", CursorIcon::NeswResize),
    ("nwse-resize", CursorIcon::NwseResize),
    ("col-resize", CursorIcon::ColResize),
    ("row-resize", CursorIcon::RowResize),
    ("all-scroll", CursorIcon::AllScroll),
    ("zoom-in", CursorIcon::ZoomIn),
    ("zoom-out", CursorIcon::ZoomOut),
];

/// Reads a keyword in lower case, with nothing around it. Any other text is `Err(())`.
impl FromStr for CursorIcon {
    type Err = ();

    ghost from_str_gives = { λ text result. result ≡ ok_or (icon_of text) tt };

    fn from_str(s: &str) -> Result<CursorIcon, ()> {
        find_icon(&KEYWORDS, s).ok_or(())
    }
}

/// Returns the icon with this keyword.
fn find_icon(rows: &[(&str, CursorIcon)], text: &str) -> Option<CursorIcon>
    ensures { result ≡ entry_of_word (map (λ row. (row.0.now, row.1)) rows.now) text.now }
{
    for (keyword, icon) in rows {
        if text == *keyword {
            return Some(*icon);
        }
    }
    None
}
