//! Writes the events of a stream: as one line per event, or as plain text without the sequences.
//!
//! [`run`] and [`run_text`] read a [`Source`] to its end and write to a [`Sink`]; [`Device`]
//! makes a source or a sink of any `Read` or `Write` of std.
// proof: the output is defined in specs/, and the contracts of both functions say that they write
// exactly that. [`Recorder`] and [`Plain`] are performers of `vte_core` that collect lines and text
// without allocating, for programs that drive a parser themselves.
#![tactic(auto)]

mod collector;
mod device;
mod fault;
pub mod laws;
mod lines;
mod pipeline;
mod plain;
mod recorder;

pub use device::{Device, Sink, Source};
pub use fault::Fault;
// cargo lacks: not used
pub use lines::LogBuffer;
pub use pipeline::{run, run_text};
// cargo lacks: not used
pub use plain::Plain;
// cargo lacks: not used
pub use recorder::Recorder;
