//! Laws of the definitions. The functions do nothing, except `replay`, which reads a stream: their
//! contracts are the laws.
ghost use Rattle.std.specs.Char.{encode_utf8, IsScalar};
ghost use Rattle.std.specs.List.{concat, flat_map};
ghost use Rattle.std.specs.Prelude.{All, chars, IsUtf8, List, map, None, Option, Some, true, ℕ, [], ◌+◌, ◌^◌, ◌∷◌, ◌≡◌, ◌≤◌};
ghost use Rattle.vte_core.specs.Division.{AreCorrectSegments, SegmentsJoin};
ghost use Rattle.vte_core.specs.EarlyStopLaws.{GoesOnFromPositions, ReportsUnits};
ghost use Rattle.vte_core.specs.Event.{after};
ghost use Rattle.vte_core.specs.EventBounds.{AreBrief, IsBounded};
ghost use Rattle.vte_core.specs.Examples.{AreDivided, AreStops, buffer_of_five_examples, buffer_of_two_examples, control_sequence_examples, device_control_examples, empty_buffer_examples, escape_examples, full_buffer_examples, HaveEvents, ignored_string_examples, LeaveCommands, LeaveOpen, LeavesTextToRun, open_command_examples, parts_examples, sequence_end_examples, stop_examples, string_end_examples, system_command_examples, text_end_examples, text_examples};
ghost use Rattle.vte_core.specs.Laws.{AreParameters, AreWellFormed, CountsData, DispatchesShown, GivesCharacters, Grows, IsDecoded, IsEncoding, OpensLate, OpensSilently, Resyncs};
ghost use Rattle.vte_core.specs.Parts.{AreCuts, EndsWithEscape, GiveEvents, parts_at};
ghost use Rattle.vte_core.specs.Stream.{added, default_limit, events};
ghost use Rattle.vte_core.specs.Utf8.{is_well_formed, segments};

use crate::parser::Parser;
use crate::perform::Perform;

/// Reads the chunks with a new parser, one call of `advance` per chunk.
///
/// No type in Rust has 2^63 bytes or more, so no parser has a larger buffer.
pub fn replay<P: Perform, const OSC_RAW_BUF_SIZE: usize>(performer: &mut P, chunks: &[&[u8]])
    requires { OSC_RAW_BUF_SIZE + 512 ≤ 2 ^ 63 }
    // However the stream is cut, the performer receives exactly its events.
    ensures { P.value_of performer.new ≡ after P.step (P.value_of performer.old)
        (events (Some OSC_RAW_BUF_SIZE) (flat_map (λ chunk. chunk.now) chunks.now)) }
{
    let mut parser = Parser::<OSC_RAW_BUF_SIZE>::new_with_size();
    for chunk in chunks {
        parser.advance(performer, chunk);
    }
}

/// Parameters come back if their debug text is sent, without its brackets, between `ESC [` and `m`.
#[tactic(auto, using(crate::proofs::lemmas::streams::ParameterTexts::shown_dispatched))]
pub fn debug_dispatch()
    ensures { (limit : Option ℕ) (groups : List (List ℕ)) → AreParameters groups
        → DispatchesShown limit groups }
{}

/// The events of a prefix are a prefix of the events, whatever the limit.
#[tactic(auto, using(crate::proofs::lemmas::streams::StreamSteps::events_grow))]
pub fn events_grow()
    ensures { (limit : Option ℕ) → Grows limit }
{}

/// The empty stream has no events.
#[tactic(auto, unfolding(crate::specs::Stream::events, crate::specs::Stream::outcome, crate::specs::Text::text_outcome))]
pub fn empty_stream()
    ensures { (limit : Option ℕ) → events limit [] ≡ [] }
{}

/// The arguments of an event are bounded: a printed character is no control, a sequence has at most
/// 32 numbers and two intermediates, an operating system command at least one piece and at most 16,
/// which fit into the buffer.
#[tactic(auto, using(crate::proofs::lemmas::streams::StreamSteps::events_are_bounded))]
pub fn events_are_bounded()
    ensures { (limit : Option ℕ) (stream : List ℕ) → All (IsBounded limit) (events limit stream) }
{}

/// Without a limit, an operating system command has no more data than its bytes: those of a call,
/// and those that were open before.
pub fn commands_are_counted()
    ensures { (stream bytes : List ℕ) → CountsData stream bytes }
{}

/// A byte adds at most two events, and the second of them is a character or an executed byte.
#[tactic(auto, using(crate::proofs::lemmas::streams::StreamSteps::bytes_are_brief))]
pub fn bytes_are_brief()
    ensures { (limit : Option ℕ) (stream : List ℕ) (byte : ℕ)
        → AreBrief limit (added limit stream (byte ∷ [])) }
{}

/// A byte after which a character is open reports nothing, or U+FFFD if it broke another one.
#[tactic(auto, using(crate::proofs::lemmas::streams::StreamSteps::opens_silently))]
pub fn opens_silently()
    ensures { (limit : Option ℕ) → OpensSilently limit }
{}

/// What is open at the end of a stream began at the last ESC, or is at most three bytes of a
/// character.
#[tactic(auto, using(crate::proofs::lemmas::streams::OpenLaws::opens_late))]
pub fn opens_late()
    ensures { OpensLate }
{}

/// What a call that stops early has reported, followed by what the unread bytes add from there, is
/// what all bytes add. From one start to the next it reports at most two events, and the second of
/// them is a character or an executed byte.
#[tactic(auto, using(crate::proofs::lemmas::streams::EarlyStops::goes_on_from, crate::proofs::lemmas::streams::EarlyStops::reports_units))]
pub fn early_stops()
    ensures adds_up { (limit : Option ℕ) → GoesOnFromPositions limit }
    ensures units { (limit : Option ℕ) → ReportsUnits limit }
{}

/// After CAN and SUB, and from each ESC on, bytes give what they give at the start of a stream.
pub fn resync()
    ensures { (limit : Option ℕ) → Resyncs limit }
{}

/// The events of a stream are those of its parts, one part after another, if an ESC is the end of
/// each part and the start of the next. That ESC closes what is open before it, and makes nothing
/// else.
#[tactic(auto, using(crate::proofs::lemmas::streams::Parts::parts_give_events, crate::proofs::lemmas::streams::Parts::ends_with_escape))]
pub fn events_of_parts()
    ensures parts { (limit : Option ℕ) (stream cuts : List ℕ) → AreCuts stream 0 cuts
        → GiveEvents limit (parts_at cuts stream) stream }
    ensures escape { (limit : Option ℕ) (part : List ℕ) → EndsWithEscape limit part }
{}

/// A text is divided as Unicode recommends: each segment is the well-formed sequence that starts
/// there, else the longest truncated one, else one byte. No other division has this property.
#[tactic(auto, using(crate::proofs::lemmas::dividing::Division::all_divided, crate::proofs::lemmas::dividing::Division::are_right_segments, crate::proofs::lemmas::dividing::Division::only_division))]
pub fn maximal_subparts()
    ensures segments_join { (text : List ℕ) → SegmentsJoin text }
    ensures segments_are_correct { (text : List ℕ) → AreCorrectSegments (segments text) }
    ensures unique_division { (division : List (List ℕ)) → AreCorrectSegments division
        → segments (concat division) ≡ division }
{}

/// The rows of UTF-8 agree with the standard library: the well-formed sequences are the encodings
/// of characters, and the texts that consist of them are those of a `str`.
#[tactic(auto, using(crate::proofs::lemmas::dividing::Utf8Agrees::well_formed_is_encoded, crate::proofs::lemmas::dividing::Utf8Agrees::segments_of_text, crate::proofs::lemmas::dividing::Utf8Agrees::text_of_segments, crate::proofs::lemmas::bytes::Scalars::well_formed_is_scalar))]
pub fn utf8_agrees()
    ensures sequence { (bytes : List ℕ) → is_well_formed bytes ≡ true → IsEncoding bytes }
    ensures character { (c : ℕ) → IsScalar c → IsDecoded c }
    ensures characters { (text : List ℕ) → IsUtf8 text
        → segments text ≡ map encode_utf8 (chars text) }
    ensures is_utf8 { (text : List ℕ) → AreWellFormed (segments text) → IsUtf8 text }
{}

/// A `str` without ESC gives one event for each of its characters.
#[tactic(auto, using(crate::proofs::lemmas::positions::TextRuns::reported_as_characters))]
pub fn text_by_characters()
    ensures { (limit : Option ℕ) (text : List ℕ) → IsUtf8 text → GivesCharacters limit text }
{}

/// The definitions give what was worked out by hand for streams of every shape.
pub fn worked_examples()
    ensures text { (limit : Option ℕ) → HaveEvents limit text_examples }
    ensures escape { (limit : Option ℕ) → HaveEvents limit escape_examples }
    ensures control_sequence { (limit : Option ℕ) → HaveEvents limit control_sequence_examples }
    ensures device_control { (limit : Option ℕ) → HaveEvents limit device_control_examples }
    ensures system_command { HaveEvents default_limit system_command_examples }
    ensures no_limit { HaveEvents None system_command_examples }
    ensures full_buffer { HaveEvents default_limit full_buffer_examples }
    ensures buffer_of_five { HaveEvents (Some 5) buffer_of_five_examples }
    ensures buffer_of_two { HaveEvents (Some 2) buffer_of_two_examples }
    ensures open_commands { LeaveCommands (Some 2) open_command_examples }
    ensures empty_buffer { HaveEvents (Some 0) empty_buffer_examples }
    ensures ignored_string { (limit : Option ℕ) → HaveEvents limit ignored_string_examples }
    ensures stops { (limit : Option ℕ) → AreStops limit stop_examples }
    ensures outside_runs { (limit : Option ℕ) → LeavesTextToRun limit }
    ensures text_ends { LeaveOpen text_end_examples }
    ensures sequence_ends { LeaveOpen sequence_end_examples }
    ensures string_ends { LeaveOpen string_end_examples }
    ensures parts { AreDivided default_limit parts_examples }
{}
