//! Uses public items as users do: names, derives, defaults and laws.

use std::fmt::Debug;
use std::hash::{DefaultHasher, Hash, Hasher};
use std::test::Fail;
use std::time::Duration;
use test_lines::require_memory;
use vte::ansi::cursor_icon::CursorIcon;
use vte::ansi::{
    Attr, BoundedProcessor, ByCall, C0, CharsetIndex, ClearMode, Clock, Color, CursorShape,
    CursorStyle, Handler, HandlerCall, Hyperlink, KeyboardModes, KeyboardModesApplyBehavior,
    LineClearMode, Mode, ModifyOtherKeys, NamedColor, NamedMode, NamedPrivateMode, PrivateMode,
    Processor, Rgb, ScpCharPath, ScpUpdateMode, StandardCharset, StdSyncHandler, Step,
    TabulationClearMode, TakeCall, TakeText, Timeout,
};
use vte::{
    LongParser, Open, Params, ParamsIter, Parser, Parts, Perform, Refused, Run, Saved, Taken, ansi,
    laws, parts,
};

fn hash_of<T: Hash>(value: &T) -> u64 {
    let mut hasher = DefaultHasher::new();
    value.hash(&mut hasher);
    hasher.finish()
}

/// Returns whether two values differ, and each equals its copy.
fn are_distinct<T: Copy + PartialEq>(one: T, other: T) -> bool {
    let (copy, other_copy) = (one, other);
    one == copy && other == other_copy && one != other
}

/// Returns whether two values differ, and each equals its copy and hashes like it.
fn are_told_apart<T: Copy + PartialEq + Hash>(one: T, other: T) -> bool {
    let (copy, other_copy) = (one, other);
    are_distinct(one, other)
        && hash_of(&one) == hash_of(&copy)
        && hash_of(&other) == hash_of(&other_copy)
}

#[test]
fn types_with_a_hash_are_told_apart(rt: HostRuntime) {
    assert!(rt; are_told_apart(CursorIcon::Help, CursorIcon::Text));
    assert!(rt; are_told_apart(CursorShape::Beam, CursorShape::HollowBlock));
    assert!(rt;
        are_told_apart(
            CursorStyle {
                shape: CursorShape::Block,
                blinking: true
            },
            CursorStyle {
                shape: CursorShape::Block,
                blinking: false
            }
        )
    );
    assert!(rt; are_told_apart(KeyboardModes::NO_MODE, KeyboardModes::REPORT_EVENT_TYPES));
    assert!(rt; are_told_apart(ModifyOtherKeys::Reset, ModifyOtherKeys::EnableAll));
    assert!(rt; are_told_apart(ScpCharPath::LTR, ScpCharPath::RTL));
    assert!(rt;
        are_told_apart(
            ScpUpdateMode::DataToPresentation,
            ScpUpdateMode::PresentationToData
        )
    );
    let link = Hyperlink {
        id: Some("1"),
        uri: "a",
    };
    let same = Hyperlink {
        id: Some("1"),
        uri: "a",
    };
    assert!(rt; link == same && hash_of(&link) == hash_of(&same));
    assert!(rt; link != Hyperlink { id: None, uri: "a" });
}

#[test]
fn types_without_a_hash_are_distinct(rt: HostRuntime) {
    assert!(rt; are_distinct(CharsetIndex::G1, CharsetIndex::G2));
    assert!(rt;
        are_distinct(
            StandardCharset::Ascii,
            StandardCharset::SpecialCharacterAndLineDrawing
        )
    );
    assert!(rt; are_distinct(Rgb { r: 1, g: 2, b: 3 }, Rgb { r: 1, g: 2, b: 4 }));
    assert!(rt; are_distinct(Color::Indexed(1), Color::Named(NamedColor::Red)));
    assert!(rt; are_distinct(NamedColor::Red, NamedColor::DimRed));
    assert!(rt; NamedColor::Red < NamedColor::DimRed);
    assert!(rt; are_distinct(Mode::Named(NamedMode::Insert), Mode::Unknown(5)));
    assert!(rt; are_distinct(NamedMode::Insert, NamedMode::LineFeedNewLine));
    assert!(rt;
        are_distinct(
            PrivateMode::Named(NamedPrivateMode::Origin),
            PrivateMode::Unknown(5)
        )
    );
    assert!(rt; are_distinct(NamedPrivateMode::Origin, NamedPrivateMode::LineWrap));
    assert!(rt; KeyboardModesApplyBehavior::Union != KeyboardModesApplyBehavior::Difference);
    assert!(rt; Attr::Foreground(Color::Indexed(1)) != Attr::Background(Color::Indexed(1)));
}

/// Debug texts are those of Rust's derive.
#[test]
fn types_are_shown_by_their_names(rt: HostRuntime) -> Result<(), Fail> {
    let shown = format!(in rt.alloc();
        "{:?} {:?} {:?} {:?} {:?} {:?} {:?} {:?} {:?}",
        LineClearMode::Right,
        ClearMode::Saved,
        TabulationClearMode::All,
        CharsetIndex::G3,
        StandardCharset::Ascii,
        Attr::UnderlineColor(None),
        Mode::Unknown(9),
        CursorStyle {
            shape: CursorShape::Beam,
            blinking: true
        },
        Hyperlink { id: None, uri: "u" }
    )?;
    assert_eq!(rt;
        shown.as_str(),
        "Right Saved All G3 Ascii UnderlineColor(None) Unknown(9) \
         CursorStyle { shape: Beam, blinking: true } Hyperlink { id: None, uri: \"u\" }"
    );
    Ok(())
}

#[test]
fn defaults_are_those_of_the_tables(rt: HostRuntime) {
    assert_eq!(rt; CharsetIndex::default(), CharsetIndex::G0);
    assert_eq!(rt; StandardCharset::default(), StandardCharset::Ascii);
    assert_eq!(rt; CursorShape::default(), CursorShape::Block);
    let style = CursorStyle::default();
    assert!(rt; style.shape == CursorShape::Block && !style.blinking);
    assert_eq!(rt; KeyboardModes::default().bits(), 0);
    assert!(rt; KeyboardModesApplyBehavior::default() == KeyboardModesApplyBehavior::Replace);
    assert_eq!(rt; Rgb::default(), Rgb { r: 0, g: 0, b: 0 });
    assert!(rt; Params::default().is_empty());
}

/// How many parameters the last control sequence had, and in how many groups. It has the nine
/// methods of a performer, and no other.
#[derive(Drop)]
struct Counts {
    numbers: usize,
    groups: usize,
}

/// Returns how many groups come, or `usize::MAX` if the size hint is another.
fn count_groups(groups: ParamsIter<'_>) -> usize {
    let (least, most) = groups.size_hint();
    if most == Some(least) && groups.count() == least {
        least
    } else {
        usize::MAX
    }
}

impl Perform for Counts {
    ghost use Rattle.std.specs.Prelude.{false};

    ghost Value = { Unit {0} };

    ghost value_of = { λ _. tt };

    ghost step = { λ _ _. tt };

    ghost is_terminated = { λ _. false };

    fn print(&mut self, _c: char) {}

    fn execute(&mut self, _byte: u8) {}

    fn hook(&mut self, _params: &Params, _intermediates: &[u8], _ignore: bool, _action: char) {}

    fn put(&mut self, _byte: u8) {}

    fn unhook(&mut self) {}

    fn osc_dispatch(&mut self, _params: &[&[u8]], _bell_terminated: bool) {}

    fn csi_dispatch(
        &mut self,
        params: &Params,
        _intermediates: &[u8],
        _ignore: bool,
        _action: char,
    ) {
        self.numbers = params.len();
        self.groups = count_groups(params.iter());
    }

    fn esc_dispatch(&mut self, _intermediates: &[u8], _ignore: bool, _byte: u8) {}

    fn terminated(&self) -> bool {
        false
    }
}

#[test]
fn parsers_are_made_in_every_way(rt: HostRuntime) {
    let mut counts = Counts {
        numbers: 0,
        groups: 0,
    };
    Parser::new().advance(&mut counts, b"\x1b[1:2;3m");
    assert_eq!(rt; (counts.numbers, counts.groups), (3, 2));
    Parser::<8>::new_with_size().advance(&mut counts, b"\x1b[1m");
    assert_eq!(rt; (counts.numbers, counts.groups), (1, 1));
    let mut parser: Parser<0> = Parser::default();
    let read = parser.advance_until_terminated(&mut counts, b"\x1b[;m");
    assert_eq!(rt; (read, counts.numbers), (4, 2));
    laws::replay::<Counts, 4>(&mut counts, &[b"\x1b[", b"m"]);
    assert_eq!(rt; counts.numbers, 1);
    assert!(rt; !parser.is_open() && !parser.command_lost_data());
    assert_eq!(rt; parser.open(), Open::Nothing);
    let mut long = LongParser::new(rt.alloc());
    let answer: Result<(), Refused> = long.advance(&mut counts, b"\x1b[1;2;3;4m");
    assert_eq!(rt; (answer, counts.numbers), (Ok(()), 4));
    assert_eq!(rt; long.open(), Open::Nothing);
}

#[test]
fn runs_are_taken_and_parsers_saved(rt: HostRuntime) {
    let mut counts = Counts {
        numbers: 0,
        groups: 0,
    };
    let mut parser = Parser::new();
    let run: Run<'_> = parser.advance_to_run(&mut counts, b"\x1b[1mab\n");
    assert_eq!(rt; (run.start, run.taken, run.end), (4, Taken::Text("ab"), 6));
    parser.advance(&mut counts, b"\x1bPq");
    let mut saved = Saved::new();
    parser.save(&mut saved);
    let mut restored = Parser::new();
    restored.restore(&saved);
    let run = restored.advance_to_run(&mut counts, b"data\x9c");
    assert_eq!(rt;
        (run.start, run.taken, run.end),
        (0, Taken::Data(b"data"), 4)
    );
}

/// Counts calls, through `ByCall`.
#[derive(Drop)]
struct Called(usize);

impl TakeCall for Called {
    ghost Value = { Unit {0} };

    ghost value_of = { λ _. tt };

    ghost step = { λ _ _. tt };

    fn take(&mut self, call: HandlerCall<'_>) {
        if let HandlerCall::Input(_) = call {
            self.0 = self.0.saturating_add(1);
        }
    }
}

impl TakeText for Called {}

#[derive(Drop)]
struct Stopped;

impl Clock for Stopped {
    ghost Value = { Unit {0} };

    ghost value_of = { λ _. tt };

    ghost tells = { λ _ _. Unit {0} };

    fn now(&self) -> Duration {
        Duration::from_millis(1)
    }
}

fn ring<H: Handler>(handler: &mut H) {
    handler.bell();
    handler.input('a');
}

#[test]
fn a_processor_makes_calls(rt: HostRuntime) -> Result<(), Fail> {
    let mut called = ByCall(Called(0));
    ring(&mut called);
    let mut timeout = StdSyncHandler::new(Stopped);
    assert!(rt; !timeout.pending_timeout() && timeout.sync_timeout().is_none());
    timeout.clear_timeout();
    let mut processor = require_memory(Processor::new(rt.alloc(), timeout))?;
    ansi::laws::replay(
        &mut processor,
        &mut called,
        &[Step::Advance(b"b\x1b[?2026hc"), Step::StopSync],
    );
    assert_eq!(rt; (called.0.0, processor.sync_bytes_count()), (3, 0));
    assert!(rt; !processor.command_lost_data());
    assert_eq!(rt; (C0::ESC, C0::DEL), (0x1b, 0x7f));
    Ok(())
}

#[test]
fn a_processor_may_have_any_limit(rt: HostRuntime) -> Result<(), Fail> {
    let mut called = ByCall(Called(0));
    let mut processor = require_memory(BoundedProcessor::<_, _, 4>::new(
        rt.alloc(),
        StdSyncHandler::new(Stopped),
    ))?;
    processor.advance(&mut called, b"a\x1b]2;title");
    assert!(rt; processor.command_lost_data());
    processor.advance_text(&mut called, b"\x1b]2;tie\x07\x1b[?2026hb");
    assert!(rt; !processor.command_lost_data());
    assert_eq!(rt; (called.0.0, processor.sync_bytes_count()), (1, 1));
    processor.stop_sync(&mut called);
    processor.advance(&mut called, b"\x1b[?2026hc");
    processor.stop_sync_text(&mut called);
    assert!(rt; processor.sync_timeout().sync_timeout().is_none());
    assert_eq!(rt; called.0.0, 3);
    Ok(())
}

#[test]
fn parts_meet_at_an_escape(rt: HostRuntime) {
    let mut iterator: Parts<'_> = parts(b"one \x1b[1mtwo \x1b[mthree", 6);
    assert!(rt; iterator.next() == Some(b"one \x1b[1mtwo \x1b"));
    assert!(rt; iterator.next() == Some(b"\x1b[mthree"));
    assert!(rt; iterator.next().is_none() && iterator.next().is_none());
    assert_eq!(rt;
        (parts(b"", 0).count(), parts(b"a\x1b\x1b", 0).count()),
        (0, 3)
    );
}

/// Laws are for proofs, but a program may call them.
#[test]
fn laws_can_be_called(rt: HostRuntime) {
    laws::empty_stream();
    laws::events_grow();
    laws::opens_late();
    laws::resync();
    laws::events_of_parts();
    event_log::laws::text_of_parts();
    laws::debug_dispatch();
    laws::worked_examples();
    ansi::laws::worked_examples();
    ansi::laws::modes_keep_their_numbers();
    ansi::laws::shades_undo_each_other();
    let (charset, ..) = ansi::laws::defaults();
    assert_eq!(rt; charset, CharsetIndex::G0);
}
