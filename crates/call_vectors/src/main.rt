//! Shows which handler calls streams make. It reads test vectors from standard input, gives the
//! stream of each to a `Processor`, and writes the name of each that made other calls than it says,
//! and finally their number.
//!
//! `vector` describes their form. `tools/make_vectors` writes them.
#![tactic(auto)]

mod held;
mod memory;
mod orders;
mod runs;
mod streams;
mod vector;

use std::alloc::Global;
use std::io::{self, BufWriter, ErrorKind, Read, Write};
use vector::{Kind, Vector};

fn show<W: Write>(alloc: Global, input: &str, output: &mut W) -> io::Result<()> {
    let mut count = 0_u64;
    for block in input.split("\n\n") {
        let vector = Vector::read(block).ok_or(io::Error::from(ErrorKind::InvalidData))?;
        let same = match vector.kind {
            Kind::Stream => streams::is_shown(alloc, &vector)?,
            Kind::Stops => streams::is_shown_with_stops(alloc, &vector)?,
            Kind::Order => orders::is_shown(alloc, &vector)?,
            Kind::Run => runs::is_shown(alloc, &vector)?,
        };
        if !same {
            writeln!(output, "differs: {}", vector.name)?;
        }
        count = count.saturating_add(1);
    }
    writeln!(output, "{count} vectors")
}

fn main(rt: HostRuntime) -> io::Result<()> {
    let mut input = String::new(rt.alloc());
    rt.stdin().read_to_string(&mut input)?;
    let mut output = BufWriter::new(rt.alloc(), io::writer(&rt))?;
    show(rt.alloc(), input.as_str(), &mut output)?;
    output.flush()
}
