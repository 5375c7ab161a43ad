//! Colours and numbers of commands, as they are read by functions that aren't public. Their
//! contracts say what they return, and here the built functions return it.
use crate::ansi::calls::color_text::xparse_color;
use crate::ansi::calls::numbers::parse_number;
use vte_types::Rgb;

#[test]
fn colors_are_read(rt: HostRuntime) {
    for (text, (r, g, b)) in [
        ("rgb:f/e/d", (0xff, 0xee, 0xdd)),
        ("rgb:11/aa/ff", (0x11, 0xaa, 0xff)),
        ("rgb:f/ed1/cb23", (0xff, 0xec, 0xca)),
        ("rgb:ffff/0/0", (0xff, 0, 0)),
        ("#1af", (0x10, 0xa0, 0xf0)),
        ("#11aaff", (0x11, 0xaa, 0xff)),
        ("#110aa0ff0", (0x11, 0xaa, 0xff)),
        ("#1100aa00ff00", (0x11, 0xaa, 0xff)),
    ] {
        assert_eq!(rt;
            xparse_color(text.as_bytes()),
            Some(Rgb { r, g, b }),
            "{text}"
        );
    }
}

#[test]
fn other_texts_are_no_colors(rt: HostRuntime) {
    for text in [
        "rgb:0//",
        "rgb://///",
        "rgb:+1/0/0",
        "#",
        "#f",
        "#1234",
        "#+1+2+3",
        "#000000000000000",
    ] {
        assert_eq!(rt; xparse_color(text.as_bytes()), None, "{text}");
    }
}

#[test]
fn numbers_are_read(rt: HostRuntime) {
    assert_eq!(rt; parse_number(b"123"), Some(123));
    assert_eq!(rt; parse_number(b"1abc"), None);
    assert_eq!(rt; parse_number(b"321"), None);
}
