//! The grid and the cursor.
ghost use Rattle.std.specs.Prelude.{length, ◌<◌, ◌≡◌, ◌≤◌};
ghost use Rattle.examples.specs.declared.screen.TheConstants.{COLUMNS, ROWS};

use crate::cell::{Cell, Style};
use std::cmp::Ordering;
use std::str::Chars;

/// How many columns the screen has.
pub const COLUMNS: usize = 80;

/// How many rows the screen has.
pub const ROWS: usize = 24;

/// A part of the screen or of a row. The cell at the cursor belongs to each but `Nothing`.
#[derive(Clone, Copy)]
pub(crate) enum Part {
    AfterCursor,
    BeforeCursor,
    All,
    Nothing,
}

/// A grid of cells, and a cursor that never leaves it.
#[derive(Drop)]
pub struct Screen {
    // A ring of rows, so that scrolling moves no cell. The first row is `lines[top]`.
    lines: [[Cell; COLUMNS]; ROWS],
    top: usize,
    row: usize,
    // COLUMNS after a character in the last column: the next one goes to the next row.
    column: usize,
    pub(crate) style: Style,
    ghost top_within: { top < ROWS },
    ghost row_within: { row < ROWS },
    ghost column_within: { column ≤ COLUMNS },
}

impl Screen {
    /// Creates a blank screen, with the cursor in the upper left corner.
    pub fn new() -> Self {
        let (character, style) = (' ', Style::PLAIN);
        Screen {
            lines: [[Cell { character, style }; COLUMNS]; ROWS],
            top: 0,
            row: 0,
            column: 0,
            style,
        }
    }

    /// Returns the cells of a row, or none if there is no such row.
    pub fn row(&self, row: usize) -> &[Cell] {
        if row < ROWS {
            &self.lines[self.line_of(row)]
        } else {
            &[]
        }
    }

    fn line_of(&self, row: usize) -> usize
        requires { row < ROWS }
        ensures { result < ROWS }
    {
        let line = self.top + row;
        if line < ROWS { line } else { line - ROWS }
    }

    /// Returns the row and the column of the cursor.
    pub fn cursor(&self) -> (usize, usize)
        ensures row { result.0 < ROWS }
        ensures column { result.1 < COLUMNS }
    {
        (self.row, self.column.min(COLUMNS - 1))
    }

    /// Moves the cursor, at most to the last row and column.
    pub(crate) fn move_to(&mut self, row: usize, column: usize) {
        self.row = row.min(ROWS - 1);
        self.column = column.min(COLUMNS - 1);
    }

    /// Moves the cursor to the start of the next row, if it is after the last column.
    #[inline]
    fn wrap(&mut self)
        ensures { self.new.column < COLUMNS }
    {
        if self.column == COLUMNS {
            self.line_feed();
            self.column = 0;
        }
    }

    /// Writes a character at the cursor, and advances it.
    #[inline]
    pub(crate) fn draw(&mut self, character: char) {
        self.wrap();
        let (line, style) = (self.line_of(self.row), self.style);
        self.lines[line][self.column] = Cell { character, style };
        self.column += 1;
    }

    /// Writes the characters of a text at the cursor, one after another. Much text comes as one
    /// character, often one that the compiler knows where the parser prints it.
    #[inline(always)]
    pub(crate) fn draw_text(&mut self, text: &str) {
        let mut characters = text.chars();
        match characters.next() {
            Some(character) if characters.as_str().is_empty() => self.draw(character),
            _ => self.draw_run(text),
        }
    }

    /// Writes the characters of a text. It is kept out of the parser's loop, as `line_feed` is.
    #[inline(never)]
    fn draw_run(&mut self, text: &str) {
        if text.is_ascii() {
            self.draw_bytes(text.as_bytes());
        } else {
            self.draw_characters(text);
        }
    }

    /// Writes the characters of a text, as `draw` does each, row by row.
    fn draw_characters(&mut self, text: &str) {
        let mut characters = text.chars();
        // Each row takes one character at least.
        for _ in 0..text.len() {
            if characters.as_str().is_empty() {
                return;
            }
            self.wrap();
            let (line, column, style) = (self.line_of(self.row), self.column, self.style);
            let cells = &mut self.lines[line];
            self.column += take_characters(&mut cells[column..], &mut characters, style);
        }
    }

    /// Writes the characters that have these numbers, as `draw` does for each: first those for
    /// which the row has room.
    #[inline]
    fn draw_bytes(&mut self, bytes: &[u8]) {
        let room = COLUMNS - self.column;
        if bytes.len() <= room {
            return self.fill(bytes);
        }
        let (first, others) = bytes.split_at(room);
        self.fill(first);
        for part in others.chunks(COLUMNS) {
            self.wrap();
            self.fill(part);
        }
    }

    /// Writes characters into the cells from the cursor on, as many as the row has room for, and
    /// advances the cursor.
    #[inline]
    fn fill(&mut self, bytes: &[u8]) {
        let (line, column, style) = (self.line_of(self.row), self.column, self.style);
        let fitting = &bytes[..bytes.len().min(COLUMNS - column)];
        let cells = &mut self.lines[line];
        set_characters(&mut cells[column..column + fitting.len()], fitting, style);
        self.column += fitting.len();
    }

    /// Moves the cursor to the next row. In the last row it scrolls. It is kept out of `draw`,
    /// which then fits where the parser prints.
    #[inline(never)]
    pub(crate) fn line_feed(&mut self) {
        if self.row + 1 == ROWS {
            self.top = self.line_of(1);
            self.erase(Part::All, self.row, ROWS);
        }
        self.move_to(self.row + 1, self.column);
    }

    /// Erases a part of the rows from `start` to before `end`. Erased cells get the current colors.
    pub(crate) fn erase(&mut self, part: Part, start: usize, end: usize)
        requires { end ≤ ROWS }
    {
        let (cursor_row, cursor_column) = self.cursor();
        let (character, mut style) = (' ', self.style);
        style.attributes = 0;
        for row in start..end {
            let (from, to) = match (part, row.cmp(&cursor_row)) {
                (Part::AfterCursor, Ordering::Equal) => (cursor_column, COLUMNS),
                (Part::BeforeCursor, Ordering::Equal) => (0, cursor_column + 1),
                (Part::AfterCursor, Ordering::Greater)
                | (Part::BeforeCursor, Ordering::Less)
                | (Part::All, _) => (0, COLUMNS),
                _ => (0, 0),
            };
            let line = self.line_of(row);
            let cells = &mut self.lines[line];
            cells[from..to].fill(Cell { character, style });
        }
    }
}

/// Sets cells to characters, which are as many, in a style.
#[inline]
fn set_characters(cells: &mut [Cell], bytes: &[u8], style: Style)
    requires { length cells.old ≡ length bytes.now }
{
    for (index, byte) in bytes.iter().enumerate() {
        cells[index].show(char::from(*byte), style);
    }
}

/// Sets cells to the next characters in a style, as long as there are both, and returns how many
/// cells it set.
#[inline]
fn take_characters(cells: &mut [Cell], characters: &mut Chars<'_>, style: Style) -> usize
    ensures { result ≤ length cells.old }
{
    let count = cells.len();
    for (index, cell) in cells.iter_mut().enumerate() {
        match characters.next() {
            Some(character) => cell.show(character, style),
            None => return index,
        }
    }
    count
}
