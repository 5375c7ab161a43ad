//! Benchmarks with a screen as performer or handler, and its checksum.
//!
//! bench/peer/src/main.rs does the same for the crate.

use crate::Benchmark;
use crate::checksum::Checksum;
use crate::until_cleared::UntilCleared;
use examples::{Cell, ROWS, Screen};
use std::alloc::Global;
use std::io;
use vte::Parser;
use vte::ansi::{ByCall, Color, Processor, Rgb};

/// A parser with a screen. Text comes in runs or character by character.
#[derive(Drop)]
pub(crate) struct ScreenBenchmark<const IN_RUNS: bool> {
    parser: Parser<1024>,
    screen: Screen,
}

impl<const IN_RUNS: bool> ScreenBenchmark<IN_RUNS> {
    pub(crate) fn new() -> Self {
        ScreenBenchmark {
            parser: Parser::new(),
            screen: Screen::new(),
        }
    }
}

impl<const IN_RUNS: bool> Benchmark for ScreenBenchmark<IN_RUNS> {
    #[inline]
    fn read(&mut self, bytes: &[u8]) {
        if IN_RUNS {
            self.parser.advance_text(&mut self.screen, bytes);
        } else {
            self.parser.advance(&mut self.screen, bytes);
        }
    }

    fn checksum(self) -> io::Result<Checksum> {
        Ok(shown(&self.screen))
    }
}

/// A processor with a screen. Text comes in runs or character by character.
#[derive(Drop)]
pub(crate) struct TerminalBenchmark<const IN_RUNS: bool> {
    processor: Processor<UntilCleared, Global>,
    screen: ByCall<Screen>,
}

impl<const IN_RUNS: bool> TerminalBenchmark<IN_RUNS> {
    pub(crate) fn new(processor: Processor<UntilCleared, Global>) -> Self {
        TerminalBenchmark {
            processor,
            screen: ByCall(Screen::new()),
        }
    }
}

impl<const IN_RUNS: bool> Benchmark for TerminalBenchmark<IN_RUNS> {
    #[inline]
    fn read(&mut self, bytes: &[u8]) {
        if IN_RUNS {
            self.processor.advance_text(&mut self.screen, bytes);
        } else {
            self.processor.advance(&mut self.screen, bytes);
        }
    }

    fn checksum(self) -> io::Result<Checksum> {
        Ok(shown(&self.screen.0))
    }
}

/// Returns the checksum of a screen: its cursor, and each cell.
fn shown(screen: &Screen) -> Checksum {
    let mut checksum = Checksum::new();
    let (row, column) = screen.cursor();
    checksum.fold(row as u64);
    checksum.fold(column as u64);
    for row in 0..ROWS {
        for cell in screen.row(row) {
            fold_cell(&mut checksum, cell);
        }
    }
    checksum
}

fn fold_cell(checksum: &mut Checksum, cell: &Cell) {
    checksum.fold(cell.character as u64);
    checksum.fold(color_number(cell.style.foreground));
    checksum.fold(color_number(cell.style.background));
    checksum.fold(cell.style.attributes as u64);
}

fn color_number(color: Color) -> u64 {
    match color {
        Color::Named(name) => name as u64,
        Color::Indexed(index) => u64::from_be_bytes([0, 0, 0, 1, 0, 0, 0, index]),
        Color::Spec(Rgb { r, g, b }) => u64::from_be_bytes([0, 0, 0, 2, 0, r, g, b]),
    }
}
