//! The types in a handler's calls, and their tables: colours, modes, character sets and cursors.
#![tactic(auto)]

// cargo: pub use ::cursor_icon;
#[allow(non_snake_case)]
pub mod C0;
mod charset;
mod color;
// cargo lacks: the crate `cursor-icon`
pub mod cursor_icon;
mod keyboard;
pub mod laws;
mod mode;
mod screen;

pub use charset::{CharsetIndex, StandardCharset};
pub use color::{Attr, Color, NamedColor, Rgb};
pub use keyboard::{KeyboardModes, KeyboardModesApplyBehavior, ModifyOtherKeys};
pub use mode::{Mode, NamedMode, NamedPrivateMode, PrivateMode};
pub use screen::{
    ClearMode, CursorShape, CursorStyle, LineClearMode, ScpCharPath, ScpUpdateMode,
    TabulationClearMode,
};
