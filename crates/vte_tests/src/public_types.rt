//! Casts, constants and texts of the types, worked out from ECMA-48, xterm's modes and CSS.

use std::alloc::{AllocError, Global};
use std::test::Fail;
use vte::ansi::cursor_icon::CursorIcon;
use vte::ansi::{
    C0, KeyboardModes, KeyboardModesApplyBehavior, ModifyOtherKeys, NamedColor, NamedMode,
    NamedPrivateMode, Rgb,
};

/// In the order of their bytes (ECMA-48, the table of the set C0).
#[test]
fn controls_are_their_bytes(rt: HostRuntime) {
    let controls = [
        C0::NUL,
        C0::SOH,
        C0::STX,
        C0::ETX,
        C0::EOT,
        C0::ENQ,
        C0::ACK,
        C0::BEL,
        C0::BS,
        C0::HT,
        C0::LF,
        C0::VT,
        C0::FF,
        C0::CR,
        C0::SO,
        C0::SI,
        C0::DLE,
        C0::XON,
        C0::DC2,
        C0::XOFF,
        C0::DC4,
        C0::NAK,
        C0::SYN,
        C0::ETB,
        C0::CAN,
        C0::EM,
        C0::SUB,
        C0::ESC,
        C0::FS,
        C0::GS,
        C0::RS,
        C0::US,
    ];
    for (byte, control) in controls.iter().enumerate() {
        assert_eq!(rt; usize::from(*control), byte);
    }
    assert_eq!(rt; controls.len(), 0x20);
    assert_eq!(rt; C0::DEL, 0x7f);
}

#[test]
fn colors_are_cast_to_their_numbers(rt: HostRuntime) {
    let rows = [
        (NamedColor::Black, 0),
        (NamedColor::Red, 1),
        (NamedColor::Green, 2),
        (NamedColor::Yellow, 3),
        (NamedColor::Blue, 4),
        (NamedColor::Magenta, 5),
        (NamedColor::Cyan, 6),
        (NamedColor::White, 7),
        (NamedColor::BrightBlack, 8),
        (NamedColor::BrightRed, 9),
        (NamedColor::BrightGreen, 10),
        (NamedColor::BrightYellow, 11),
        (NamedColor::BrightBlue, 12),
        (NamedColor::BrightMagenta, 13),
        (NamedColor::BrightCyan, 14),
        (NamedColor::BrightWhite, 15),
        (NamedColor::Foreground, 256),
        (NamedColor::Background, 257),
        (NamedColor::Cursor, 258),
        (NamedColor::DimBlack, 259),
        (NamedColor::DimRed, 260),
        (NamedColor::DimGreen, 261),
        (NamedColor::DimYellow, 262),
        (NamedColor::DimBlue, 263),
        (NamedColor::DimMagenta, 264),
        (NamedColor::DimCyan, 265),
        (NamedColor::DimWhite, 266),
        (NamedColor::BrightForeground, 267),
        (NamedColor::DimForeground, 268),
    ];
    for (color, number) in rows {
        assert_eq!(rt; color as usize, number, "{color:?}");
    }
}

#[test]
fn modes_are_cast_to_their_numbers(rt: HostRuntime) {
    assert_eq!(rt; NamedMode::Insert as u16, 4);
    assert_eq!(rt; NamedMode::LineFeedNewLine as u16, 20);
    let rows = [
        (NamedPrivateMode::CursorKeys, 1),
        (NamedPrivateMode::ColumnMode, 3),
        (NamedPrivateMode::Origin, 6),
        (NamedPrivateMode::LineWrap, 7),
        (NamedPrivateMode::BlinkingCursor, 12),
        (NamedPrivateMode::ShowCursor, 25),
        (NamedPrivateMode::ReportMouseClicks, 1000),
        (NamedPrivateMode::ReportCellMouseMotion, 1002),
        (NamedPrivateMode::ReportAllMouseMotion, 1003),
        (NamedPrivateMode::ReportFocusInOut, 1004),
        (NamedPrivateMode::Utf8Mouse, 1005),
        (NamedPrivateMode::SgrMouse, 1006),
        (NamedPrivateMode::AlternateScroll, 1007),
        (NamedPrivateMode::UrgencyHints, 1042),
        (NamedPrivateMode::SwapScreenAndSetRestoreCursor, 1049),
        (NamedPrivateMode::BracketedPaste, 2004),
        (NamedPrivateMode::SyncUpdate, 2026),
    ];
    for (mode, number) in rows {
        assert_eq!(rt; mode as u16, number, "{mode:?}");
    }
}

#[test]
fn other_variants_are_counted_from_zero(rt: HostRuntime) {
    assert_eq!(rt; ModifyOtherKeys::Reset as u8, 0);
    assert_eq!(rt; ModifyOtherKeys::EnableExceptWellDefined as u8, 1);
    assert_eq!(rt; ModifyOtherKeys::EnableAll as u8, 2);
    assert_eq!(rt; KeyboardModesApplyBehavior::Replace as u8, 0);
    assert_eq!(rt; KeyboardModesApplyBehavior::Union as u8, 1);
    assert_eq!(rt; KeyboardModesApplyBehavior::Difference as u8, 2);
}

#[test]
fn keyboard_bits(rt: HostRuntime) {
    let rows = [
        (KeyboardModes::NO_MODE, 0),
        (KeyboardModes::DISAMBIGUATE_ESC_CODES, 1),
        (KeyboardModes::REPORT_EVENT_TYPES, 2),
        (KeyboardModes::REPORT_ALTERNATE_KEYS, 4),
        (KeyboardModes::REPORT_ALL_KEYS_AS_ESC, 8),
        (KeyboardModes::REPORT_ASSOCIATED_TEXT, 16),
    ];
    for (modes, bits) in rows {
        assert_eq!(rt; modes.bits(), bits);
    }
    assert_eq!(rt; KeyboardModes::from_bits(32), None);
    assert_eq!(rt; KeyboardModes::from_bits_truncate(33).bits(), 1);
    assert_eq!(rt; KeyboardModes::from_bits_retain(1).complement().bits(), 30);
}

#[test]
fn color_texts(rt: HostRuntime) -> Result<(), Fail> {
    let color: Rgb = "0x80FF00".parse()?;
    let text = format!(in rt.alloc(); "{color}")?;
    assert_eq!(rt; text.as_str(), "#80ff00");
    assert_eq!(rt; "#+80ff0".parse::<Rgb>(), Err(()));
    Ok(())
}

/// Returns the words of a keyword, each with a capital letter, as one.
fn camel_case(alloc: Global, keyword: &str) -> Result<String, AllocError> {
    let mut camel = String::new(alloc);
    for word in keyword.split('-') {
        for (index, letter) in word.chars().enumerate() {
            camel.push(if index == 0 {
                letter.to_ascii_uppercase()
            } else {
                letter
            })?;
        }
    }
    Ok(camel)
}

/// The keywords of CSS. A variant is the keyword in camel case.
#[test]
fn cursor_keywords(rt: HostRuntime) -> Result<(), Fail> {
    let keywords = [
        "default",
        "context-menu",
        "help",
        "pointer",
        "progress",
        "wait",
        "cell",
        "crosshair",
        "text",
        "vertical-text",
        "alias",
        "copy",
        "move",
        "no-drop",
        "not-allowed",
        "grab",
        "grabbing",
        "e-resize",
        "n-resize",
        "ne-resize",
        "nw-resize",
        "s-resize",
        "se-resize",
        "sw-resize",
        "w-resize",
        "ew-resize",
        "ns-resize",
        "nesw-resize",
        "nwse-resize",
        "col-resize",
        "row-resize",
        "all-scroll",
        "zoom-in",
        "zoom-out",
    ];
    for keyword in keywords {
        let icon: CursorIcon = keyword.parse()?;
        let variant = format!(in rt.alloc(); "{icon:?}")?;
        let camel = camel_case(rt.alloc(), keyword)?;
        assert_eq!(rt; variant.as_str(), camel.as_str());
    }
    for text in [
        "", "Default", "EResize", "e_resize", "grab ", " grab", "grabb", "none",
    ] {
        assert_eq!(rt; text.parse::<CursorIcon>(), Err(()), "{text}");
    }
    Ok(())
}
