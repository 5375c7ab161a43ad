//! Events and handler calls as lines of text, for tests.
//!
//! [`EventLines`] is a performer and [`CallLines`] takes the calls of a handler; [`visit_call`] is
//! the one place that names all calls. [`TestTimeout`] is a timeout with known answers.
//!
//! `vtlog` has a performer of its own, with a proof of what it writes. The one here was written
//! independently and formats differently, so that an error in either shows.
#![tactic(auto)]

mod call_lines;
mod event_lines;
mod hex;
mod memory;
mod timeout;
mod variant;
mod visitor;

pub use call_lines::CallLines;
pub use event_lines::{EventLines, Stop};
pub use memory::require_memory;
pub use timeout::{Answers, TestTimeout};
pub use variant::Variant;
pub use visitor::{CallVisitor, visit_call};
