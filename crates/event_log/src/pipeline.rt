//! The loops that read a stream in chunks and write what is collected of each.
ghost use Rattle.std.specs.Io.KnownBytes.{Appends};
ghost use Rattle.std.specs.List.{flat_map};
ghost use Rattle.std.specs.Prelude.{Err, false, IfOk, is_err, length, List, OnOk, Some, true, ℕ, [], ◌++◌, ◌<◌, ◌≡◌};
ghost use Rattle.event_log.specs.CollectedText.{empty_text};
ghost use Rattle.event_log.specs.private.Progress.{HasReadStream, HasWritten};
ghost use Rattle.event_log.specs.Run.{LogsExactly, StripsExactly, WritesExactly};
ghost use Rattle.vte_core.specs.Stream.{default_limit, events};

use crate::collector::{Collector, LogParser};
use crate::device::{Sink, Source};
use crate::fault::Fault;
use crate::plain::Plain;
use crate::recorder::Recorder;
use vte_core::laws;

/// The most bytes that are read at once.
const CHUNK_SIZE: usize = 4096;

/// Reads to the end, and writes one line per event.
///
/// The reader is read in chunks of up to 4,096 bytes, and the lines of each chunk are written and
/// flushed before the next read. A sequence that is unfinished at the end gives no line.
///
/// # Errors
///
/// Ends at the first failed read or write. Everything read before a failed read has been written.
pub fn run<R: Source, W: Sink>(reader: &mut R, writer: &mut W) -> Result<(), Fault>
    ensures lines { (input old_contents : List ℕ) → R.remaining reader.old ≡ Some input
        → W.contents writer.old ≡ Some old_contents →
        LogsExactly result input old_contents (R.remaining reader.new) (W.contents writer.new)
        (R.has_failed reader.new) }
    ensures read_to_the_end { OnOk result (R.has_failed reader.new ≡ false) }
    ensures write_failed { result ≡ Err Fault.Write → W.has_failed writer.new ≡ true }
{
    run_with(&mut Recorder::new(), reader, writer)
}

/// Reads to the end, and writes the text without its sequences.
///
/// It reads, writes, flushes and fails as [`run`] does. A character that is unfinished at the end
/// gives no text.
pub fn run_text<R: Source, W: Sink>(reader: &mut R, writer: &mut W) -> Result<(), Fault>
    ensures text { (input old_contents : List ℕ) → R.remaining reader.old ≡ Some input
        → W.contents writer.old ≡ Some old_contents →
        StripsExactly result input old_contents (R.remaining reader.new) (W.contents writer.new)
        (R.has_failed reader.new) }
    ensures read_to_the_end { OnOk result (R.has_failed reader.new ≡ false) }
    ensures write_failed { result ≡ Err Fault.Write → W.has_failed writer.new ≡ true }
{
    run_with(&mut Plain::new(), reader, writer)
}

/// Reads to the end, and writes what the collector collects.
fn run_with<C: Collector, R: Source, W: Sink>(
    collector: &mut C,
    reader: &mut R,
    writer: &mut W,
) -> Result<(), Fault>
    requires holds_nothing { C.collected_text_of collector.old ≡ empty_text }
    ensures texts { (input old_contents : List ℕ) → R.remaining reader.old ≡ Some input
        → W.contents writer.old ≡ Some old_contents →
        WritesExactly (λ stream. flat_map C.text_of (events default_limit stream)) result input
        old_contents (R.remaining reader.new) (W.contents writer.new) (R.has_failed reader.new) }
    ensures read_to_the_end { OnOk result (R.has_failed reader.new ≡ false) }
    ensures write_failed { result ≡ Err Fault.Write → W.has_failed writer.new ≡ true }
{
    laws::empty_stream();
    let mut parser = LogParser::new();
    let mut buffer = [0; CHUNK_SIZE];
    for _ in 0..u64::MAX {
        let Ok(count) = reader.read(&mut buffer) else {
            return Err(Fault::Read);
        };
        if count == 0 {
            return Ok(());
        }
        if write_chunk(&mut parser, collector, writer, &buffer[..count]).is_err() {
            return Err(Fault::Write);
        }
    }
    // Every loop is proved to end: this is after 2^64 - 1 reads.
    Err(Fault::Read)
}

/// Parses a chunk, and writes and flushes what the collector collects.
fn write_chunk<C: Collector, W: Sink>(
    parser: &mut LogParser,
    collector: &mut C,
    writer: &mut W,
    chunk: &[u8],
) -> Result<(), ()>
    requires parsed { HasReadStream parser.old }
    requires holds_nothing { C.collected_text_of collector.old ≡ empty_text }
    ensures reads { OnOk result (HasReadStream parser.new) }
    ensures empties { OnOk result (C.collected_text_of collector.new ≡ empty_text) }
    ensures writes { (total_text : List ℕ → List ℕ)
        → HasWritten C.text_of total_text (W.contents writer.old) parser.old [] →
        OnOk result
        (HasWritten C.text_of (λ more. total_text (chunk.now ++ more))
        (W.contents writer.new) parser.new []) }
    ensures fails { is_err result ≡ true → W.has_failed writer.new ≡ true }
{
    let mut unread = chunk;
    while !unread.is_empty() {
        unread = parse_and_write(parser, collector, writer, unread)?;
    }
    writer.flush()
}

/// Parses until it is time to write, and writes what the collector holds. Returns the unread bytes.
fn parse_and_write<'a, C: Collector, W: Sink>(
    parser: &mut LogParser,
    collector: &mut C,
    writer: &mut W,
    bytes: &'a [u8],
) -> Result<&'a [u8], ()>
    requires parsed { HasReadStream parser.old }
    requires holds_nothing { C.collected_text_of collector.old ≡ empty_text }
    ensures reads_some { IfOk result (λ unread. 0 < length bytes.now
        → length unread.now < length bytes.now) }
    ensures reads { OnOk result (HasReadStream parser.new) }
    ensures empties { OnOk result (C.collected_text_of collector.new ≡ empty_text) }
    ensures writes { (total_text : List ℕ → List ℕ)
        → HasWritten C.text_of total_text (W.contents writer.old) parser.old bytes.now →
        IfOk result
        (λ unread. HasWritten C.text_of total_text (W.contents writer.new) parser.new unread.now) }
    ensures fails { is_err result ≡ true → W.has_failed writer.new ≡ true }
{
    let unread = collector.collect(parser, bytes);
    write_collected(collector, writer)?;
    Ok(unread)
}

/// Writes and clears the collected text.
fn write_collected<C: Collector, W: Sink>(collector: &mut C, writer: &mut W) -> Result<(), ()>
    ensures empties { OnOk result (C.collected_text_of collector.new ≡ empty_text) }
    ensures appends { OnOk result (Appends (W.contents writer.old) (W.contents writer.new)
        (C.collected_text_of collector.old).bytes) }
    ensures fails { is_err result ≡ W.has_failed writer.new }
{
    writer.write_all(collector.collected_text())?;
    collector.clear();
    Ok(())
}
