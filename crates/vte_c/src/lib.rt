//! The parser as a library for C, and for whatever links C.
//!
//! A parser is plain data that the caller owns, and so are the buffers for what it reports. The
//! library never allocates, and keeps no pointer. `vte.h` declares these functions for C, and
//! docs/C.md says how to use them. A pointer may be null only if its length is 0, and what is
//! written may not overlap anything else that is passed.
#![tactic(auto)]

ghost use Rattle.std.specs.Prelude.{List, ℕ, ◌≡◌, ◌≢◌};
ghost use Rattle.vte_c.specs.Calls.{Feeds, Strips};
ghost use Rattle.vte_c.specs.OpenCode.{open_code};
ghost use Rattle.vte_c.specs.Record.{min_data, min_events, min_text};
ghost use Rattle.vte_core.specs.Open.{open_at_end};
ghost use Rattle.vte_core.specs.Saved.{HasReadSaved};
ghost use Rattle.vte_core.specs.Stream.{default_limit, IsClosed, IsOpen};

// cargo instead: pub(crate) mod event;
// cargo instead: pub(crate) use event::VteEvent;
// cargo instead: pub(crate) use event_writer::EventWriter;
// cargo instead: pub(crate) use feed::{VteCounts, MIN_DATA, MIN_EVENTS, NO_ROOM};
mod event;
mod event_writer;
mod feed;
pub mod laws;
mod text;

// cargo lacks: exported above
use event::VteEvent;
// cargo lacks: exported above
use feed::VteCounts;
use std::mem::size_of;
use vte_core::{Parser, Saved};

const VERSION: u32 = 6;

const PARSER_SIZE: usize = size_of::<Saved>();

const EVENT_SIZE: usize = size_of::<VteEvent>();

/// Reads bytes, and writes the events of some kinds that they add to the stream. Returns how many
/// bytes were read.
///
/// Text is in runs, and so is the data of device control strings: a record says where a run is in
/// the bytes, or in the data area.
///
/// It stops early when the buffers are nearly full, and after an event of the kinds `stop_kinds`,
/// which at most one more event follows. Call it again with the rest. If there is room for fewer
/// than `vte_min_events` events or `vte_min_data` data bytes, it reads nothing and returns
/// `usize::MAX`.
#[unsafe(no_mangle)]
pub extern "C" fn vte_feed(
    parser: &mut Saved,
    bytes: &[u8],
    kinds: u32,
    stop_kinds: u32,
    events: &mut [VteEvent],
    data_area: &mut [u8],
    counts: &mut VteCounts,
) -> usize
    ensures { Feeds kinds stop_kinds parser.old parser.new bytes.now events.old events.new
        data_area.old data_area.new counts.new result }
{
    feed::feed(parser, bytes, kinds, stop_kinds, events, data_area, counts)
}

/// Reads bytes, and writes the text that is left without the sequences. Returns how many bytes were
/// read.
///
/// It stops early when the buffer is nearly full. If it has room for fewer than `vte_min_text`
/// bytes, nothing is read, and `usize::MAX` is returned.
#[unsafe(no_mangle)]
pub extern "C" fn vte_strip(
    parser: &mut Saved,
    bytes: &[u8],
    text: &mut [u8],
    written: &mut usize,
) -> usize
    ensures { Strips parser.old parser.new bytes.now text.old text.new written.new result }
{
    text::strip(parser, bytes, text, written)
}

/// Returns what is unfinished, or 0.
#[unsafe(no_mangle)]
pub extern "C" fn vte_is_open(parser: &Saved) -> u8
    ensures kind { (stream : List ℕ) → HasReadSaved parser.now stream
        → result ≡ open_code (open_at_end stream) }
    // If nothing is, more bytes give what they give on their own.
    ensures closed { result ≡ 0 → (stream : List ℕ) → HasReadSaved parser.now stream
        → IsClosed default_limit stream }
    // If something is, they don't.
    ensures opens { result ≢ 0 → (stream : List ℕ) → HasReadSaved parser.now stream
        → IsOpen default_limit stream }
{
    let mut restored = Parser::new();
    restored.restore(parser);
    restored.open() as u8
}

/// Returns the version of this interface, which increases with each incompatible change.
#[unsafe(no_mangle)]
pub extern "C" fn vte_version() -> u32
    ensures { result ≡ 6 }
{
    VERSION
}

/// Returns the size of a parser in bytes.
#[unsafe(no_mangle)]
pub extern "C" fn vte_parser_size() -> usize
    ensures { result ≡ 1312 }
{
    PARSER_SIZE
}

/// Returns the size of an event in bytes.
#[unsafe(no_mangle)]
pub extern "C" fn vte_event_size() -> usize
    ensures { result ≡ 16 }
{
    EVENT_SIZE
}

/// Returns the number of events for which there must be room.
#[unsafe(no_mangle)]
pub extern "C" fn vte_min_events() -> usize
    ensures { result ≡ min_events }
{
    feed::MIN_EVENTS
}

/// Returns the number of data bytes for which there must be room.
#[unsafe(no_mangle)]
pub extern "C" fn vte_min_data() -> usize
    ensures { result ≡ min_data }
{
    feed::MIN_DATA
}

/// Returns the number of bytes of text for which there must be room.
#[unsafe(no_mangle)]
pub extern "C" fn vte_min_text() -> usize
    ensures { result ≡ min_text }
{
    text::MIN_TEXT
}
