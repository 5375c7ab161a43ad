//! `vtlog` reads what is sent to a terminal, and prints one line per event, or with the argument
//! `text` only the text.
#![tactic(auto)]

ghost use Rattle.std.specs.Io.KnownBytes.{Appends};
ghost use Rattle.std.specs.Prelude.{is_err, map, OnErr, OnOk, option_map, ◌≡◌};
ghost use Rattle.vtlog.specs.Arguments.{chosen_mode, page_of};
ghost use Rattle.vtlog.specs.End.{Ends, message_of, status_of};

use event_log::{Device, Fault, Sink, Source, run, run_text};
use std::env;
use std::io::{self, ErrorKind};
use std::process::ExitCode;

// `./vtlog` reads the values of `VERSION`, `HELP` and `HINT` from this text.
const VERSION: &str = "vtlog 0.1.0\n";

const HELP: &str = "\
usage: vtlog [text]

Reads what a program sent to a terminal from standard input, and writes one
line per event or, with `text`, the text without its escape sequences:

    vtlog text <typescript
    ls --color=always | vtlog text

  -h, --help     print this help
      --version  print the version

The manual page vtlog(1) describes the lines and the exit statuses.
";

/// What follows an argument that is unexpected.
const HINT: &str = "it reads standard input, as in vtlog text <FILE; see vtlog --help";

/// What is written.
#[derive(Clone, Copy)]
enum Mode {
    /// One line per event.
    Lines,
    /// The text without its sequences.
    Text,
}

// cargo instead: pub(crate) fn main(rt: HostRuntime) -> ExitCode {
fn main(rt: HostRuntime) -> ExitCode {
    let Ok(status) = log_streams(&rt) else {
        let _ = eprintln!(rt; "vtlog: no arguments read");
        return ExitCode::from(3);
    };
    ExitCode::from(status)
}

/// Does what the arguments ask for, over the standard streams. Returns the exit status, and writes
/// on standard error what failed, and then why. If that can't be written, the status alone reports
/// the failure.
///
/// # Errors
///
/// Fails if the arguments can't be fetched.
fn log_streams(rt: &HostRuntime) -> io::Result<u8> {
    let words: Vec<String> = env::args(rt)?.skip(1).collect(rt.alloc())?;
    let args: Vec<&str> = words.iter().map(|word| word.as_str()).collect(rt.alloc())?;
    let mut input = Device::new(rt.stdin());
    let mut output = Device::new(rt.stdout());
    let (status, message) = run_with_arguments(&args, &mut input, &mut output);
    if output.error().map(|error| error.kind()) == Some(ErrorKind::BrokenPipe) {
        // This ends the program silently, as it ends other filters.
        return Ok(141);
    }
    if !message.is_empty() {
        let _ = eprintln!(rt; "{message}");
    }
    if let Some(error) = input.error() {
        let _ = eprintln!(rt; "vtlog: standard input: {error}");
    }
    if let Some(error) = output.error() {
        let _ = eprintln!(rt; "vtlog: standard output: {error}");
    }
    if let (2, Some(word)) = (status, find_unexpected(&args)) {
        let _ = eprintln!(rt; "vtlog: {word:?}: {HINT}");
    }
    Ok(status)
}

/// Returns the first argument that can't be where it is.
fn find_unexpected<'a>(args: &[&'a str]) -> Option<&'a str> {
    match args {
        [] => None,
        [word] => Some(*word),
        [first, second, ..] => Some(if is_known(first) { *second } else { *first }),
    }
}

/// Returns whether a word could be the only argument.
fn is_known(word: &str) -> bool {
    let args = [word];
    find_page(&args).is_some() || choose_mode(&args).is_some()
}

/// Does what the arguments ask for. Returns the exit status and the message for standard error,
/// which is empty if there is none.
fn run_with_arguments<R: Source, W: Sink>(
    args: &[&str],
    reader: &mut R,
    writer: &mut W,
) -> (u8, &'static str)
    ensures { Ends (map (λ arg. arg.now) args.now) (record {
      input = R.remaining reader.old;
      remaining = R.remaining reader.new;
      reader_failed = R.has_failed reader.new;
      old_contents = W.contents writer.old;
      contents = W.contents writer.new;
      writer_failed = W.has_failed writer.new;
    }) result.0 result.1.now }
{
    if let Some(page) = find_page(args) {
        return describe_outcome(&write_page(page, writer));
    }
    match choose_mode(args) {
        Some(Mode::Lines) => describe_outcome(&run(reader, writer)),
        Some(Mode::Text) => describe_outcome(&run_text(reader, writer)),
        None => (2, "vtlog: unexpected argument"),
    }
}

/// Returns the help or the version, if the argument asks for it.
fn find_page(args: &[&str]) -> Option<&'static str>
    ensures { option_map (λ page. page.now) result ≡ page_of (map (λ arg. arg.now) args.now) }
{
    match args {
        [arg] if *arg == "-h" || *arg == "--help" => Some(HELP),
        [arg] if *arg == "--version" => Some(VERSION),
        [] | [_] | [_, _, ..] => None,
    }
}

/// Returns the mode that the arguments choose, if they choose one.
fn choose_mode(args: &[&str]) -> Option<Mode>
    ensures { result ≡ chosen_mode (map (λ arg. arg.now) args.now) }
{
    match args {
        [] => Some(Mode::Lines),
        [arg] if *arg == "text" => Some(Mode::Text),
        [_] | [_, _, ..] => None,
    }
}

/// Writes the help or the version, and flushes it.
fn write_page<W: Sink>(page: &str, writer: &mut W) -> Result<(), Fault>
    ensures fails { is_err result ≡ W.has_failed writer.new }
    ensures fault { OnErr result (result ≡ Err Fault.Write) }
    ensures appends { OnOk result (Appends (W.contents writer.old)
        (W.contents writer.new) page.now) }
{
    if writer.write_all(page.as_bytes()).is_err() || writer.flush().is_err() {
        return Err(Fault::Write);
    }
    Ok(())
}

/// Returns the exit status and the message for standard error, which is empty if there is none.
fn describe_outcome(outcome: &Result<(), Fault>) -> (u8, &'static str)
    ensures status { result.0 ≡ status_of outcome.now }
    ensures message { result.1.now ≡ message_of outcome.now }
{
    match outcome {
        Ok(()) => (0, ""),
        Err(Fault::Read) => (1, "vtlog: read failed"),
        Err(Fault::Write) => (1, "vtlog: write failed"),
    }
}
