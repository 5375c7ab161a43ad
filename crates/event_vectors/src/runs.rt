//! All text comes in runs: one character or more, and none of them a control, except line ends and
//! tabs if these are kept.

use crate::vectors::{LinesVector, tables};
use std::process::Abort;
use std::test::Fail;
use vte_core::{Params, Parser, Perform, PerformText};

/// Counts runs, and what breaks a promise. It may keep HT, LF and CR.
#[derive(Clone, Copy)]
struct RunCheck<const KEEPS: bool> {
    runs: usize,
    characters: usize,
    empty: usize,
    with_controls: usize,
    /// Text and data that came by other methods.
    alone: usize,
}

impl<const KEEPS: bool> RunCheck<KEEPS> {
    fn new() -> Self {
        RunCheck {
            runs: 0,
            characters: 0,
            empty: 0,
            with_controls: 0,
            alone: 0,
        }
    }
}

impl<const KEEPS: bool> Perform for RunCheck<KEEPS> {
    ghost use Rattle.std.specs.Prelude.{false};

    ghost Value = { Unit {0} };

    ghost value_of = { λ _. tt };

    ghost step = { λ _ _. tt };

    ghost is_terminated = { λ _. false };

    fn print(&mut self, _c: char) {
        self.alone = self.alone.saturating_add(1);
    }

    fn execute(&mut self, byte: u8) {
        if KEEPS && matches!(byte, b'\t' | b'\n' | b'\r') {
            self.alone = self.alone.saturating_add(1);
        }
    }

    fn hook(&mut self, _params: &Params, _intermediates: &[u8], _ignore: bool, _action: char) {}

    fn put(&mut self, _byte: u8) {
        self.alone = self.alone.saturating_add(1);
    }

    fn unhook(&mut self) {}

    fn osc_dispatch(&mut self, _params: &[&[u8]], _bell_terminated: bool) {}

    fn csi_dispatch(
        &mut self,
        _params: &Params,
        _intermediates: &[u8],
        _ignore: bool,
        _action: char,
    ) {}

    fn esc_dispatch(&mut self, _intermediates: &[u8], _ignore: bool, _byte: u8) {}

    fn terminated(&self) -> bool {
        false
    }
}

impl<const KEEPS: bool> PerformText for RunCheck<KEEPS> {
    ghost layout = { KEEPS };

    fn keeps_layout(&self) -> bool {
        KEEPS
    }

    fn print_text(&mut self, text: &str) {
        self.runs = self.runs.saturating_add(1);
        if text.is_empty() {
            self.empty = self.empty.saturating_add(1);
        }
        for c in text.chars() {
            self.characters = self.characters.saturating_add(1);
            let is_kept = KEEPS && matches!(c, '\t' | '\n' | '\r');
            if !is_kept && matches!(c, '\0'..='\u{1f}' | '\u{80}'..='\u{9f}') {
                self.with_controls = self.with_controls.saturating_add(1);
            }
        }
    }

    fn put_slice(&mut self, bytes: &[u8]) {
        if bytes.is_empty() {
            self.empty = self.empty.saturating_add(1);
        }
    }
}

fn check_runs<const KEEPS: bool>(rt: &impl Abort, name: &str, chunks: &[&[u8]]) -> RunCheck<KEEPS> {
    let mut check = RunCheck::new();
    let mut parser = Parser::<1024>::new_with_size();
    for chunk in chunks {
        parser.advance_text(&mut check, chunk);
    }
    assert_eq!(rt;
        (check.empty, check.with_controls, check.alone),
        (0, 0, 0),
        "{name}"
    );
    check
}

fn check_vectors(rt: &(impl Abort + AllocGlobal), vectors: &[LinesVector]) -> Result<(), Fail> {
    for vector in vectors {
        let bytes = vector.bytes(rt.alloc())?;
        for cut in 0..=bytes.len() {
            let (front, back) = bytes.split_at(cut);
            check_runs::<false>(rt, vector.name, &[front, back]);
            check_runs::<true>(rt, vector.name, &[front, back]);
        }
    }
    Ok(())
}

#[test]
fn runs_of_vectors_have_characters_and_no_control(rt: HostRuntime) -> Result<(), Fail> {
    for table in tables() {
        check_vectors(&rt, table)?;
    }
    Ok(())
}

/// The letters of a text don't come one by one, and line ends are in runs for those who keep them.
#[test]
fn text_comes_in_runs(rt: HostRuntime) -> Result<(), Fail> {
    let mut text = [b'a'; 1000];
    for line in 0..20 {
        text[50 * line + 49] = b'\n';
    }
    let lines = check_runs::<false>(&rt, "twenty lines", &[&text]);
    assert_eq!(rt; (lines.characters, lines.runs), (980, 20));
    let whole = check_runs::<true>(&rt, "twenty lines", &[&text]);
    assert_eq!(rt; whole.characters, 1000);
    assert!(rt; 0 < whole.runs && whole.runs < 10, "{} runs", whole.runs);
    Ok(())
}
