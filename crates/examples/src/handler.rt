//! The screen as a processor's handler.

use crate::screen::{Part, ROWS, Screen};
use vte::ansi::{Attr, ClearMode, HandlerCall as Call, LineClearMode, TakeCall, TakeText};

impl TakeCall for Screen {
    ghost Value = { Unit };

    ghost value_of = { λ screen. tt };

    ghost step = { λ value call. value };

    // Inlined where the processor makes a call, so that only the arm of this call is left.
    #[inline(always)]
    fn take(&mut self, call: Call<'_>) {
        let (row, column) = self.cursor();
        match call {
            Call::Input(c) => self.draw(c),
            Call::Linefeed => self.line_feed(),
            Call::CarriageReturn => self.move_to(row, 0),
            Call::Backspace => self.move_to(row, column.saturating_sub(1)),
            Call::Goto(line, column) => self.move_to(line.max(0) as usize, column),
            Call::GotoLine(line) => self.move_to(line.max(0) as usize, column),
            Call::GotoCol(column) => self.move_to(row, column),
            Call::MoveUp(rows) => self.move_to(row.saturating_sub(rows), column),
            Call::MoveDown(rows) => self.move_to(row.saturating_add(rows), column),
            Call::MoveForward(columns) => self.move_to(row, column.saturating_add(columns)),
            Call::MoveBackward(columns) => self.move_to(row, column.saturating_sub(columns)),
            Call::ClearLine(mode) => self.erase(part_of_row(mode), row, row + 1),
            Call::ClearScreen(mode) => self.erase(part_of_screen(mode), 0, ROWS),
            Call::TerminalAttribute(Attr::Foreground(color)) => self.style.foreground = color,
            Call::TerminalAttribute(Attr::Background(color)) => self.style.background = color,
            Call::TerminalAttribute(Attr::Reset) => self.style.select(&[0]),
            Call::TerminalAttribute(Attr::Bold) => self.style.select(&[1]),
            Call::TerminalAttribute(Attr::Italic) => self.style.select(&[3]),
            Call::TerminalAttribute(Attr::Underline) => self.style.select(&[4]),
            Call::TerminalAttribute(Attr::Reverse) => self.style.select(&[7]),
            Call::TerminalAttribute(Attr::CancelBoldDim) => self.style.select(&[22]),
            Call::TerminalAttribute(Attr::CancelItalic) => self.style.select(&[23]),
            Call::TerminalAttribute(Attr::CancelUnderline) => self.style.select(&[24]),
            Call::TerminalAttribute(Attr::CancelReverse) => self.style.select(&[27]),
            _ => {}
        }
    }
}

impl TakeText for Screen {
    #[inline(always)]
    fn take_text(&mut self, text: &str) {
        self.draw_text(text);
    }
}

fn part_of_row(mode: LineClearMode) -> Part {
    match mode {
        LineClearMode::Right => Part::AfterCursor,
        LineClearMode::Left => Part::BeforeCursor,
        LineClearMode::All => Part::All,
    }
}

fn part_of_screen(mode: ClearMode) -> Part {
    match mode {
        ClearMode::Below => Part::AfterCursor,
        ClearMode::Above => Part::BeforeCursor,
        ClearMode::All => Part::All,
        // There is no scrollback.
        ClearMode::Saved => Part::Nothing,
    }
}
