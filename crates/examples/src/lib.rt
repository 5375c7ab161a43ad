//! What callers write, and what they can prove, an example per module.
//!
//! docs/RATTLE.md goes through them. [`Screen`], of 80 by 24 cells, is also drawn by tests and by
//! the benchmark: it is a performer for `Parser` and, inside `ByCall`, a handler for `Processor`.
//! It takes text character by character, or in runs from `advance_text`, which is faster. Whatever
//! the stream, it writes no cell outside the grid. This is proved, so no index is checked at run
//! time.
#![tactic(auto)]

pub mod bell;
mod cell;
pub mod command_text;
mod handler;
pub mod last_printed;
pub mod logged;
pub mod page;
mod performer;
pub mod printed;
mod screen;
pub mod session;
#[cfg(test)]
mod tests;

pub use cell::{Cell, Style};
pub use screen::{COLUMNS, ROWS, Screen};
