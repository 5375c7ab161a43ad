//! Tests of parsers by vectors of events, and in `program` a program that reads framed streams and
//! prints one line per event or, if the stream asks for it, one line per handler call. `end` comes
//! after each stream.
//!
//! `rt ci` runs the program with the files `stdin` and `stdout` of this crate. A pipe doesn't keep
//! cuts, so they are part of the input; `program/frames` describes its form.
#![tactic(auto)]

#[cfg(test)]
mod early_stops;
#[cfg(test)]
mod feed;
#[cfg(test)]
mod log_tests;
#[cfg(test)]
mod prefixes;
#[cfg(test)]
mod prepared_memory;
mod program;
#[cfg(test)]
mod runs;
#[cfg(test)]
mod tests;
#[cfg(test)]
mod unlimited;
#[cfg(test)]
mod vectors;

use std::io::{self, BufWriter, Read, Write};

fn main(rt: HostRuntime) -> io::Result<()> {
    let mut input = Vec::new(rt.alloc());
    rt.stdin().read_to_end(&mut input)?;
    let mut output = BufWriter::new(rt.alloc(), io::writer(&rt))?;
    program::replay(rt.alloc(), input.as_slice(), &mut output)?;
    output.flush()
}
