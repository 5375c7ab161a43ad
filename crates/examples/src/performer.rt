//! The screen as a parser's performer.
ghost use Rattle.std.specs.Prelude.{false};

use crate::screen::{Part, ROWS, Screen};
use vte_core::{Params, Perform, PerformText};

impl Perform for Screen {
    ghost Value = { Unit };

    ghost value_of = { λ screen. tt };

    ghost step = { λ value event. value };

    ghost is_terminated = { λ value. false };

    #[inline]
    fn print(&mut self, c: char) {
        self.draw(c);
    }

    fn execute(&mut self, byte: u8) {
        let (row, column) = self.cursor();
        match byte {
            0x08 => self.move_to(row, column.saturating_sub(1)),
            b'\n' | 0x0b | 0x0c => self.line_feed(),
            b'\r' => self.move_to(row, 0),
            _ => {}
        }
    }

    fn csi_dispatch(&mut self, params: &Params, intermediates: &[u8], ignore: bool, action: char) {
        if action == 'm' && !ignore && intermediates.is_empty() {
            return self.style.select_all(params);
        }
        let mut numbers = params.iter().flatten().copied();
        let (first, second) = (numbers.next().unwrap_or(0), numbers.next().unwrap_or(0));
        // 0 and a missing number stand for 1.
        let (count, other) = (usize::from(first.max(1)), usize::from(second.max(1)));
        let (row, column) = self.cursor();
        match action {
            _ if ignore || !intermediates.is_empty() => {}
            'A' => self.move_to(row.saturating_sub(count), column),
            'B' => self.move_to(row + count, column),
            'C' => self.move_to(row, column + count),
            'D' => self.move_to(row, column.saturating_sub(count)),
            'G' => self.move_to(row, count - 1),
            'H' | 'f' => self.move_to(count - 1, other - 1),
            'J' => self.erase(part_numbered(first), 0, ROWS),
            'K' => self.erase(part_numbered(first), row, row + 1),
            'd' => self.move_to(count - 1, column),
            _ => {}
        }
    }

    fn hook(&mut self, _params: &Params, _intermediates: &[u8], _ignore: bool, _action: char) {}

    fn put(&mut self, _byte: u8) {}

    fn unhook(&mut self) {}

    fn osc_dispatch(&mut self, _params: &[&[u8]], _bell_terminated: bool) {}

    fn esc_dispatch(&mut self, _intermediates: &[u8], _ignore: bool, _byte: u8) {}

    fn terminated(&self) -> bool {
        false
    }
}

impl PerformText for Screen {
    ghost layout = { false };

    fn keeps_layout(&self) -> bool {
        false
    }

    #[inline(always)]
    fn print_text(&mut self, text: &str) {
        self.draw_text(text);
    }
}

/// Returns the part that ED and EL call by this number.
fn part_numbered(number: u16) -> Part {
    match number {
        0 => Part::AfterCursor,
        1 => Part::BeforeCursor,
        2 => Part::All,
        _ => Part::Nothing,
    }
}
