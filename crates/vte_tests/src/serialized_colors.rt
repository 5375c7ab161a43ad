//! Colours that `serde_json` writes and reads back.

use std::test::Fail;
use vte_types::{Color, NamedColor, Rgb};

#[test]
fn colors_are_written_and_read_by_serde(rt: HostRuntime) -> Result<(), Fail> {
    let alloc = rt.alloc();
    let parts = Rgb {
        r: 1,
        g: 128,
        b: 255,
    };
    let text = serde_json::to_string(alloc, &parts)?;
    assert_eq!(rt; serde_json::from_str::<Rgb>(alloc, text.as_str())?, parts);
    for name in [
        NamedColor::Black,
        NamedColor::BrightWhite,
        NamedColor::DimForeground,
    ] {
        let text = serde_json::to_string(alloc, &name)?;
        assert_eq!(rt;
            serde_json::from_str::<NamedColor>(alloc, text.as_str())?,
            name
        );
    }
    for color in [
        Color::Named(NamedColor::Cursor),
        Color::Spec(parts),
        Color::Indexed(200),
    ] {
        let text = serde_json::to_string(alloc, &color)?;
        assert_eq!(rt; serde_json::from_str::<Color>(alloc, text.as_str())?, color);
    }
    Ok(())
}
