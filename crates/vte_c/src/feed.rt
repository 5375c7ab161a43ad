//! From bytes to events.
ghost use Rattle.std.specs.Prelude.{false, length, List, take, ℕ, ◌++◌, ◌+◌, ◌<◌, ◌^◌, ◌≡◌, ◌≤◌};
ghost use Rattle.vte_c.specs.Calls.{Feeds};
ghost use Rattle.vte_c.specs.private.Buffers.{AreEmptyBuffers, buffers_of, must_return};
ghost use Rattle.vte_c.specs.private.Feeding.{HasFed, HasReadOn, NoEventStopsIn, NoRecordStops, NoRunStops};
ghost use Rattle.vte_c.specs.Reported.{HasReported};
ghost use Rattle.vte_core.specs.Event.{Event};
ghost use Rattle.vte_core.specs.Parser.{HasRead};
ghost use Rattle.vte_core.specs.Saved.{HasReadSaved};
ghost use Rattle.vte_core.specs.Stream.{added, default_limit};

use crate::event::VteEvent;
use crate::event_writer::{EventWriter, MAX_PIECE_BYTES};
use vte_core::{Parser, Saved, laws};

/// The number of events for which there must be room: what two bytes add.
pub(crate) const MIN_EVENTS: usize = 4;

/// The number of data bytes for which there must be room: more than two bytes add (at most 1,376).
/// Callers compile the number in (`VTE_MIN_DATA` of vte.h), so it stays. A call then reads at least
/// one byte, for which 3 events and 1,095 bytes would do: U+FFFD comes first for a character that
/// this byte breaks, and then there must be room for what one byte may add.
pub(crate) const MIN_DATA: usize = 2112;

/// The return value of a call with less room, which is no count of bytes.
pub(crate) const NO_ROOM: usize = usize::MAX;

/// The parser that a call restores from what the caller keeps.
type RestoredParser = Parser<MAX_PIECE_BYTES>;

/// How many events, and how many bytes of the data area, a call wrote. `bytes` is `data` in vte.h,
/// which is a keyword of specs.
#[repr(C)]
#[derive(Clone, Copy)]
pub struct VteCounts {
    pub events: usize,
    pub bytes: usize,
}

/// Reads bytes until they end, the buffers are nearly full, or an event that stops was written.
/// Returns how many were read.
pub(crate) fn feed(
    parser: &mut Saved,
    bytes: &[u8],
    kinds: u32,
    stop_kinds: u32,
    events: &mut [VteEvent],
    data_area: &mut [u8],
    counts: &mut VteCounts,
) -> usize
    ensures { Feeds kinds stop_kinds parser.old parser.new bytes.now events.old events.new
        data_area.old data_area.new counts.new result }
{
    *counts = VteCounts {
        events: 0,
        bytes: 0,
    };
    if events.len() < MIN_EVENTS || data_area.len() < MIN_DATA {
        return NO_ROOM;
    }
    let (record_capacity, data_capacity) = (events.len(), data_area.len());
    // Records have 32 bits for positions in the input.
    let end = bytes.len().min(u32::MAX as usize);
    let bytes = &bytes[..end];
    let mut writer = EventWriter::new(events, data_area, kinds, stop_kinds);
    let read = read_into(parser, bytes, &mut writer);
    // proof: neither limit bites, but `read_into` says so only if the parser has read a stream, and
    // the counts fit whatever its bytes are.
    *counts = VteCounts {
        events: writer.record_count().min(record_capacity),
        bytes: writer.data_used().min(data_capacity),
    };
    read
}

/// Reads bytes into empty buffers.
fn read_into(saved: &mut Saved, bytes: &[u8], writer: &mut EventWriter<'_>) -> usize
    requires are_empty { AreEmptyBuffers (buffers_of writer.old) }
    requires fits_32_bits { length bytes.now < 2 ^ 32 }
    ensures within { result ≤ length bytes.now }
    ensures stops_at_once { (stream : List ℕ) → HasReadSaved saved.old stream →
        NoRunStops (buffers_of writer.old) → (i : ℕ) → i < result →
        NoEventStopsIn (buffers_of writer.old) (added default_limit stream (take i bytes.now)) }
    ensures feeds { (given : List Event) (stream rest : List ℕ) →
        HasReported (buffers_of writer.old).kinds saved.old given stream (bytes.now ++ rest) →
        HasFed writer.old writer.new saved.new given stream bytes.now rest result }
{
    let mut parser = Parser::new();
    parser.restore(saved);
    let read = read_until_full(&mut parser, bytes, writer);
    parser.save(saved);
    read
}

/// Reads bytes until they end or the buffers are full.
fn read_until_full(parser: &mut RestoredParser, bytes: &[u8], writer: &mut EventWriter<'_>) -> usize
    requires are_empty { AreEmptyBuffers (buffers_of writer.old) }
    requires fits_32_bits { length bytes.now < 2 ^ 32 }
    ensures within { result ≤ length bytes.now }
    ensures reads_on { (already_read : List ℕ) → HasRead parser.old already_read →
        HasReadOn (buffers_of writer.old)
        (buffers_of writer.new) parser.new already_read bytes.now 0
        result }
    ensures reads_some { (already_read : List ℕ) → HasRead parser.old already_read →
        NoRecordStops (buffers_of writer.old).stop_kinds (buffers_of writer.new).records →
        0 < length bytes.now → 0 < result }
{
    let mut position = 0;
    while position < bytes.len() && !writer.must_return() {
        let read = read_more(parser, bytes, position, writer);
        if read == 0 {
            return position;
        }
        position += read;
    }
    position
}

/// Reads bytes up to and including a run of text or data, and writes the record of the run.
fn read_more(
    parser: &mut RestoredParser,
    bytes: &[u8],
    from: usize,
    writer: &mut EventWriter<'_>,
) -> usize
    requires within { from < length bytes.now }
    requires fits_32_bits { length bytes.now < 2 ^ 32 }
    requires has_room { must_return (buffers_of writer.old) ≡ false }
    ensures within { from + result ≤ length bytes.now }
    ensures reads_on { (already_read : List ℕ) → HasRead parser.old already_read →
        HasReadOn (buffers_of writer.old)
        (buffers_of writer.new) parser.new already_read bytes.now from
        result }
    ensures reads_some { (already_read : List ℕ) → HasRead parser.old already_read →
        AreEmptyBuffers (buffers_of writer.old) →
        NoRecordStops (buffers_of writer.old).stop_kinds (buffers_of writer.new).records →
        0 < result }
{
    laws::early_stops();
    laws::opens_silently();
    let run = parser.advance_to_run(writer, &bytes[from..]);
    writer.write_taken(from, run, parser.command_lost_data());
    run.end
}
