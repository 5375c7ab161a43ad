//! What the numbers of control sequences select.
ghost use Rattle.std.specs.Prelude.{◌≡◌};
ghost use Rattle.vte.specs.SelectedValues.{behavior_of, bottom_of, char_path_table, keyboard_modes, scp_update_table};
ghost use Rattle.vte_types.specs.Words.{entry_of};

use vte_types::{KeyboardModes, KeyboardModesApplyBehavior, ScpCharPath, ScpUpdateMode};

/// Returns the bottom of a scrolling region, if there is one.
pub(crate) fn read_scrolling_bottom(number: u16) -> Option<usize>
    ensures { result ≡ bottom_of number }
{
    match number {
        0 => None,
        _ => Some(usize::from(number)),
    }
}

/// Returns how keyboard modes are applied.
pub(crate) fn read_keyboard_behavior(number: u16) -> KeyboardModesApplyBehavior
    ensures { result ≡ behavior_of number }
{
    match number {
        3 => KeyboardModesApplyBehavior::Difference,
        2 => KeyboardModesApplyBehavior::Union,
        _ => KeyboardModesApplyBehavior::Replace,
    }
}

/// Returns the keyboard modes of a number's low five bits.
pub(crate) fn read_keyboard_modes(number: u16) -> KeyboardModes
    ensures { result ≡ keyboard_modes number }
{
    KeyboardModes::from_bits_retain((number % 32) as u8)
}

/// Returns the character path, the first selection of SCP.
pub(crate) fn read_character_path(number: u16) -> Option<ScpCharPath>
    ensures { result ≡ entry_of char_path_table number }
{
    match number {
        0 => Some(ScpCharPath::Default),
        1 => Some(ScpCharPath::LTR),
        2 => Some(ScpCharPath::RTL),
        _ => None,
    }
}

/// Returns how the display follows the character path, the second selection of SCP.
pub(crate) fn read_scp_update_mode(number: u16) -> Option<ScpUpdateMode>
    ensures { result ≡ entry_of scp_update_table number }
{
    match number {
        0 => Some(ScpUpdateMode::ImplementationDependant),
        1 => Some(ScpUpdateMode::DataToPresentation),
        2 => Some(ScpUpdateMode::PresentationToData),
        _ => None,
    }
}
