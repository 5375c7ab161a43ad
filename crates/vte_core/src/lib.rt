//! The parser of the bytes that programs send to a terminal: text in UTF-8, controls, escape and
//! control sequences, device control strings and operating system commands (ECMA-48, ECMA-35, the
//! VT500 parser).
//!
//! [`Parser`] reads a stream in chunks of any length and calls a [`Perform`] for each of its
//! events. [`LongParser`] is a parser without a limit on the text of operating system commands.
// proof: The meaning of a performer is one function from a value and an event to a value. What the
// events of a stream are is defined in specs/, without states; the contract of [`Parser::advance`]
// says that the performer receives exactly these. [`laws`] has what holds of all streams.
// proof: Comments that begin with `cargo` say what the crate for cargo has there
// (tools/lib/erasing/marks.py).
#![tactic(auto)]

mod buffer;
mod class;
mod head;
pub mod laws;
mod params;
mod parser;
mod perform;
mod reader;
mod store;
mod stream_parts;
mod utf8;

pub use params::{Params, ParamsIter};
pub use parser::{Open, Parser};
// For C alone.
// cargo: #[cfg(feature = "__own")]
pub use parser::Saved;
// The parser that allocates.
// cargo: #[cfg(any(feature = "std", feature = "ansi"))]
pub use parser::{LongParser, Refused};
// cargo instead: pub use perform::{Perform, PerformText};
pub use perform::{Perform, PerformText, PerformThroughText};
// cargo: #[cfg(feature = "ansi")]
// cargo: pub use reader::{ByCharacter, InRuns};
// cargo instead: pub use reader::{Run, Taken};
pub use reader::{ByCharacter, InRuns, Run, Taken};
pub use stream_parts::iter::Parts;
pub use stream_parts::parts;
