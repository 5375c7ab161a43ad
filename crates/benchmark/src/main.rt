//! Times a parser or a processor for `bench/run`: `benchmark KIND CHUNK PASSES`.
//!
//! KIND is `parser`, `long` or `processor`, with a performer or handler that folds everything into
//! a checksum, or `screen` or `terminal`, with a screen as the performer of a parser or the handler
//! of a processor. `screen_runs` and `terminal_runs` get text in runs.
//!
//! It reads a stream from standard input to its end and gives it PASSES times to one parser or
//! processor, in chunks of CHUNK bytes. Standard output gets the checksum of all events or calls,
//! or of the screen, which must be the crate's; standard error gets the nanoseconds of the fastest
//! pass.
#![tactic(auto)]

ghost use Rattle.std.specs.Prelude.{IfOk, ◌<◌};

mod call_checksum;
mod checksum;
mod screens;
mod until_cleared;

use call_checksum::CallChecksum;
use checksum::Checksum;
use screens::{ScreenBenchmark, TerminalBenchmark};
use std::alloc::Global;
use std::env;
use std::io::{self, ErrorKind, Read};
use std::time::Instant;
use until_cleared::UntilCleared;
use vte::ansi::{ByCall, Processor};
use vte::{LongParser, Parser};

/// A parser or processor to time.
trait Benchmark {
    /// Reads the next bytes of the stream.
    fn read(&mut self, bytes: &[u8]);

    /// Returns the checksum of everything read, unless memory ran out.
    fn checksum(self) -> io::Result<Checksum>;
}

#[derive(Drop)]
struct ParserBenchmark {
    parser: Parser<1024>,
    checksum: Checksum,
}

impl Benchmark for ParserBenchmark {
    #[inline]
    fn read(&mut self, bytes: &[u8]) {
        self.parser.advance(&mut self.checksum, bytes);
    }

    fn checksum(self) -> io::Result<Checksum> {
        Ok(self.checksum)
    }
}

#[derive(Drop)]
struct LongParserBenchmark {
    parser: LongParser<Global>,
    checksum: Checksum,
    refused: bool,
}

impl Benchmark for LongParserBenchmark {
    #[inline]
    fn read(&mut self, bytes: &[u8]) {
        self.refused = self.refused || self.parser.advance(&mut self.checksum, bytes).is_err();
    }

    fn checksum(self) -> io::Result<Checksum> {
        if self.refused {
            return Err(io::Error::from(ErrorKind::OutOfMemory));
        }
        Ok(self.checksum)
    }
}

#[derive(Drop)]
struct ProcessorBenchmark {
    processor: Processor<UntilCleared, Global>,
    handler: ByCall<CallChecksum>,
}

impl Benchmark for ProcessorBenchmark {
    #[inline]
    fn read(&mut self, bytes: &[u8]) {
        self.processor.advance(&mut self.handler, bytes);
    }

    fn checksum(self) -> io::Result<Checksum> {
        Ok(self.handler.0.checksum)
    }
}

/// Gives a stream once, in chunks.
fn pass<B: Benchmark>(benchmark: &mut B, stream: &[u8], chunk: usize)
    requires { 0 < chunk }
{
    for bytes in stream.chunks(chunk) {
        benchmark.read(bytes);
    }
}

/// Prints the checksum of all passes, and the nanoseconds of the fastest.
fn measure<B: Benchmark + Drop>(
    rt: &HostRuntime,
    benchmark: B,
    stream: &[u8],
    chunk: usize,
    passes: usize,
) -> io::Result<()>
    requires { 0 < chunk }
{
    // A local, so that the compiler sees that no byte of the stream is part of it.
    let mut benchmark = benchmark;
    let mut fastest = u128::MAX;
    for _ in 0..passes {
        let start = Instant::now(rt)?;
        pass(&mut benchmark, stream, chunk);
        fastest = fastest.min(start.elapsed(rt)?.as_nanos());
    }
    println!(rt; "{}", benchmark.checksum()?)?;
    eprintln!(rt; "{fastest}")
}

/// Reads a positive number.
fn number(word: &str) -> io::Result<usize>
    ensures { IfOk result (λ number. 0 < number) }
{
    match word.parse() {
        Ok(number) if number > 0 => Ok(number),
        _ => Err(io::Error::from(ErrorKind::InvalidInput)),
    }
}

fn new_processor(alloc: Global) -> io::Result<Processor<UntilCleared, Global>> {
    let processor = Processor::new(alloc, UntilCleared::new());
    processor.map_err(|_| io::Error::from(ErrorKind::OutOfMemory))
}

fn main(rt: HostRuntime) -> io::Result<()> {
    let args: Vec<String> = env::args(&rt)?.skip(1).collect(rt.alloc())?;
    let words: Vec<&str> = args.iter().map(|arg| arg.as_str()).collect(rt.alloc())?;
    let [kind, chunk, passes] = words.as_slice() else {
        return Err(io::Error::from(ErrorKind::InvalidInput));
    };
    let (chunk, passes) = (number(chunk)?, number(passes)?);
    let mut stream = Vec::new(rt.alloc());
    rt.stdin().read_to_end(&mut stream)?;
    let stream = stream.as_slice();
    match *kind {
        "parser" => {
            let benchmark = ParserBenchmark {
                parser: Parser::new(),
                checksum: Checksum::new(),
            };
            measure(&rt, benchmark, stream, chunk, passes)
        }
        "long" => {
            let benchmark = LongParserBenchmark {
                parser: LongParser::new(rt.alloc()),
                checksum: Checksum::new(),
                refused: false,
            };
            measure(&rt, benchmark, stream, chunk, passes)
        }
        "processor" => {
            let benchmark = ProcessorBenchmark {
                processor: new_processor(rt.alloc())?,
                handler: ByCall(CallChecksum::new()),
            };
            measure(&rt, benchmark, stream, chunk, passes)
        }
        "screen" => measure(&rt, ScreenBenchmark::<false>::new(), stream, chunk, passes),
        "screen_runs" => measure(&rt, ScreenBenchmark::<true>::new(), stream, chunk, passes),
        "terminal" => {
            let benchmark = TerminalBenchmark::<false>::new(new_processor(rt.alloc())?);
            measure(&rt, benchmark, stream, chunk, passes)
        }
        "terminal_runs" => {
            let benchmark = TerminalBenchmark::<true>::new(new_processor(rt.alloc())?);
            measure(&rt, benchmark, stream, chunk, passes)
        }
        _ => Err(io::Error::from(ErrorKind::InvalidInput)),
    }
}
