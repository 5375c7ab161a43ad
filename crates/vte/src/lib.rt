//! A parser and a processor for the bytes that programs send to a terminal.
//!
//! A [`Parser`] reads a stream in chunks of any length and reports its events to a [`Perform`]:
//! characters, control bytes, and sequences with their parameters. A [`LongParser`] does the same
//! without a limit on the text of an operating system command. A [`Processor`](ansi::Processor)
//! interprets the events, and calls a method of an [`ansi::Handler`] for each thing that a program
//! asks of the terminal.
#![tactic(auto)]

// cargo lacks: src/lib.rs exports it
pub use vte_core::{
    LongParser, Open, Params, ParamsIter, Parser, Parts, Perform, PerformText, PerformThroughText,
    Refused, Run, Saved, Taken, laws, parts,
};

pub mod ansi;
