//! A call of one byte that can't stop.
//!
//! `drive_loop` saves registers for its loops at each call. These functions have none, and those
//! that most bytes take do nothing after a call of another one, so they save no registers.
ghost use Rattle.std.specs.Prelude.{false, IfErr, IfOk, length, List, ℕ, [], ◌≡◌, ◌≢◌};
ghost use Rattle.vte_core.specs.Event.{Print, replacement};
ghost use Rattle.vte_core.specs.private.Prelude.{Advances, AnyEvents, bytes_of, caller_looks, chunk_call, DeviceData, Empty, EventsOutsideRuns, HasReadWithLimit, is_in, IsAtPosition, IsRefusedAt, lookahead, looks_of, MayReadAt, MayReadByte, per_byte, printed_ascii, read_count, ReadsCall, ReadsWithin, SpendsWithin, Text};

use crate::buffer::Buffer;
use crate::class::{ESCAPE, is_device_data, is_parameter_byte};
use crate::head::HeadProgress;
use crate::parser::{Machine, Refused, State};
use crate::reader::{CountedPerform, Granularity, Input, Reader};
use crate::utf8::{Extension, OpenCharacter, is_lead, is_printed_ascii};

impl<B: Buffer> Machine<B> {
    /// Reads the one byte of a call that can't stop, or none if memory is refused for it.
    // cargo: #[inline(never)]
    pub(crate) fn drive_single_byte<P: CountedPerform<G>, G: Granularity>(
        &mut self,
        reader: &mut Reader,
        performer: &mut P,
        input: Input<'_>,
    ) -> Result<usize, Refused>
        requires one_byte { length input.bytes.now ≡ 1 }
        ensures { ReadsCall
            (chunk_call false P.step P.is_terminated B.limit input.entry.bytes.now)
            (P.value_of performer.old) (P.value_of performer.new) result self.old self.new
            (looks_of reader.old) (looks_of reader.new) }
    {
        if let State::Text(opened) = self.state {
            if opened.is_empty() {
                return Ok(self.read_single_byte_of_text(reader, performer, input));
            }
            return Ok(self.read_continuing_byte(reader, performer, input, opened));
        }
        if let State::ControlSequence(reached) = self.state {
            return Ok(self.read_parameter_byte(reader, performer, input, reached));
        }
        self.read_single_byte_of_sequence(reader, performer, input)
    }

    /// Reads the one byte of a call in a text.
    #[inline(always)]
    fn read_single_byte_of_text<P: CountedPerform<G>, G: Granularity>(
        &mut self,
        reader: &mut Reader,
        performer: &mut P,
        input: Input<'_>,
    ) -> usize
        requires may_read { MayReadAt
            (chunk_call false P.step P.is_terminated B.limit input.bytes.now)
            (P.value_of performer.old) (Text Empty) self.old 0 }
        requires one_byte { length input.bytes.now ≡ 1 }
        ensures advances { Advances AnyEvents
            (chunk_call false P.step P.is_terminated B.limit input.entry.bytes.now)
            (P.value_of performer.old) (P.value_of performer.new) 0 result self.old self.new }
        ensures reads_within { ReadsWithin (per_byte 5) (caller_looks 0)
            input.entry.bytes.now 0 result self.old self.new reader.old reader.new }
    {
        let byte = reader.byte_at(input, 0);
        if is_printed_ascii(byte) {
            performer.print_char(reader, char::from(byte));
            return 1;
        }
        self.read_single_control_or_non_ascii(reader, performer, input, byte)
    }

    /// Reads the one byte of a call in a text, if it isn't printed ASCII.
    #[inline(never)]
    fn read_single_control_or_non_ascii<P: CountedPerform<G>, G: Granularity>(
        &mut self,
        reader: &mut Reader,
        performer: &mut P,
        input: Input<'_>,
        byte: u8,
    ) -> usize
        requires may_read { MayReadByte
            (chunk_call false P.step P.is_terminated B.limit input.bytes.now)
            (P.value_of performer.old) (Text Empty) self.old 0 byte }
        requires not_printed { is_in printed_ascii byte ≡ false }
        requires one_byte { length input.bytes.now ≡ 1 }
        ensures advances { Advances AnyEvents
            (chunk_call false P.step P.is_terminated B.limit input.entry.bytes.now)
            (P.value_of performer.old) (P.value_of performer.new) 0 result self.old self.new }
        ensures reads_within { ReadsWithin (per_byte 5) (caller_looks 1)
            input.entry.bytes.now 0 result self.old self.new reader.old reader.new }
    {
        if byte == ESCAPE {
            return self.read_escape_in_text::<P, G, false>(reader, performer, input, 0);
        }
        if is_lead(byte) {
            self.state = State::Text(OpenCharacter::One(byte));
        } else {
            reader.report_lone_byte(performer, byte);
        }
        1
    }

    /// Reads the one byte of a call after those that began a character.
    #[inline(never)]
    fn read_continuing_byte<P: CountedPerform<G>, G: Granularity>(
        &mut self,
        reader: &mut Reader,
        performer: &mut P,
        input: Input<'_>,
        opened: OpenCharacter,
    ) -> usize
        requires one_byte { length input.bytes.now ≡ 1 }
        requires in_state { self.old.state ≡ Text opened }
        requires some_open { bytes_of opened ≢ [] }
        ensures is_at_position { (stream : List ℕ) → HasReadWithLimit B.limit self.old stream →
            IsAtPosition (chunk_call false P.step P.is_terminated B.limit input.entry.bytes.now)
            (P.value_of performer.old) (P.value_of performer.new) stream result self.new }
        ensures reads_all { result ≡ 1 }
        ensures spends { SpendsWithin (per_byte 5) (caller_looks 0) (lookahead 2)
            input.entry.bytes.now 0 result self.old self.new reader.old reader.new }
    {
        let byte = reader.byte_at(input, 0);
        match opened.extend(byte) {
            Extension::Truncated(more) => {
                self.state = State::Text(more);
                1
            }
            Extension::WellFormed(c) => {
                self.state = State::Text(OpenCharacter::Empty);
                reader.report_character(performer, c);
                1
            }
            Extension::Malformed => {
                self.state = State::Text(OpenCharacter::Empty);
                self.read_breaking_byte(reader, performer, input)
            }
        }
    }

    /// Prints U+FFFD for the bytes before, and reads the one byte of a call, which broke them. Not
    /// inlined, because whatever goes on after a call saves registers.
    #[inline(never)]
    fn read_breaking_byte<P: CountedPerform<G>, G: Granularity>(
        &mut self,
        reader: &mut Reader,
        performer: &mut P,
        input: Input<'_>,
    ) -> usize
        requires one_byte { length input.bytes.now ≡ 1 }
        requires in_text { self.old.state ≡ Text Empty }
        ensures advances { Advances AnyEvents
            (chunk_call false P.step P.is_terminated B.limit input.entry.bytes.now)
            (P.step (P.value_of performer.old) (Print replacement)) (P.value_of performer.new) 0
            result self.old self.new }
        ensures reads_all { result ≡ 1 }
        ensures spends { SpendsWithin (per_byte 5) (caller_looks 0) (lookahead 1)
            input.entry.bytes.now 0 result self.old self.new reader.old reader.new }
    {
        performer.print_char(reader, char::REPLACEMENT_CHARACTER);
        self.read_single_byte_of_text(reader, performer, input)
    }

    /// Reads a byte of the head of a control sequence: of its parameters, like most, or another.
    #[inline(never)]
    fn read_parameter_byte<P: CountedPerform<G>, G: Granularity>(
        &mut self,
        reader: &mut Reader,
        performer: &mut P,
        input: Input<'_>,
        reached: HeadProgress,
    ) -> usize
        requires may_read { MayReadAt
            (chunk_call false P.step P.is_terminated B.limit input.bytes.now)
            (P.value_of performer.old) (State.ControlSequence reached) self.old 0 }
        ensures advances { Advances EventsOutsideRuns
            (chunk_call false P.step P.is_terminated B.limit input.entry.bytes.now)
            (P.value_of performer.old) (P.value_of performer.new) 0 result self.old self.new }
        ensures reads_within { ReadsWithin (per_byte 5) (caller_looks 0)
            input.entry.bytes.now 0 result self.old self.new reader.old reader.new }
    {
        if reached.may_have_parameters() {
            let byte = reader.byte_at(input, 0);
            if is_parameter_byte(byte) {
                self.collected.collect_parameter_byte(byte);
                self.state = State::ControlSequence(HeadProgress::Parameters);
                return 1;
            }
        }
        self.read_rest_of_head::<P, G, false>(reader, performer, input, 0, reached)
    }

    /// Reads a byte of the data of a device control string, or the byte that ends it.
    #[inline(always)]
    fn read_data_byte<P: CountedPerform<G>, G: Granularity>(
        &mut self,
        reader: &mut Reader,
        performer: &mut P,
        input: Input<'_>,
    ) -> usize
        requires { MayReadAt (chunk_call false P.step P.is_terminated B.limit input.bytes.now)
            (P.value_of performer.old) DeviceData self.old 0 }
        ensures advances { Advances AnyEvents
            (chunk_call false P.step P.is_terminated B.limit input.entry.bytes.now)
            (P.value_of performer.old) (P.value_of performer.new) 0 result self.old self.new }
        ensures reads_within { ReadsWithin (per_byte 5) (caller_looks 0)
            input.entry.bytes.now 0 result self.old self.new reader.old reader.new }
    {
        let byte = reader.byte_at(input, 0);
        if is_device_data(byte) {
            performer.put_byte(reader, byte);
            return 1;
        }
        self.end_data_or_drop_byte::<P, G, false>(reader, performer, input, 0, byte)
    }

    /// Reads a byte outside text and control sequences, or none if memory is refused for it.
    #[inline(never)]
    fn read_single_byte_of_sequence<P: CountedPerform<G>, G: Granularity>(
        &mut self,
        reader: &mut Reader,
        performer: &mut P,
        input: Input<'_>,
    ) -> Result<usize, Refused>
        requires may_read { MayReadAt
            (chunk_call false P.step P.is_terminated B.limit input.bytes.now)
            (P.value_of performer.old) self.old.state self.old 0 }
        requires outside_text { (opened : OpenCharacter) → self.old.state ≢ Text opened }
        ensures advances { Advances AnyEvents
            (chunk_call false P.step P.is_terminated B.limit input.entry.bytes.now)
            (P.value_of performer.old) (P.value_of performer.new) 0 (read_count result) self.old
            self.new }
        ensures reads_within { IfOk result
            (λ read. ReadsWithin (per_byte 5) (caller_looks 0)
            input.entry.bytes.now 0 read self.old self.new reader.old reader.new) }
        ensures refuses { IfErr result
            (λ refused.
            IsRefusedAt (chunk_call false P.step P.is_terminated B.limit input.entry.bytes.now)
            (P.value_of performer.new) 0 refused.read self.old self.new reader.old reader.new) }
    {
        // `read_by_state` would read control sequences and data by functions with loops.
        Ok(match self.state {
            // Never: `drive_single_byte` reads text. A panic would stay in the program.
            State::Text(_) => 0,
            State::Escape => self.read_after_escape::<P, G, false>(reader, performer, input, 0),
            State::EscapeIntermediate => {
                self.read_intermediates::<P, G, false>(reader, performer, input, 0)
            }
            State::ControlSequence(reached) => {
                self.read_rest_of_head::<P, G, false>(reader, performer, input, 0, reached)
            }
            State::DeviceControl(reached) => {
                self.read_device_control::<P, G, false>(reader, performer, input, 0, reached)
            }
            State::DeviceData => self.read_data_byte(reader, performer, input),
            State::SystemCommand => {
                self.read_system_command::<P, G, false>(reader, performer, input, 0)?
            }
            State::IgnoredString => {
                self.read_ignored_string::<P, G, false>(reader, performer, input, 0)
            }
        })
    }
}
