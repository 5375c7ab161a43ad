//! The loop over the bytes of a call.
ghost use Rattle.std.specs.Prelude.{IfErr, IfOk, length, List, true, ℕ, ◌<◌, ◌≡◌};
ghost use Rattle.vte_core.specs.private.Prelude.{Advances, caller_looks, chunk_call, HasReadWithLimit, IsAtPosition, IsOutsideTextAndData, IsRefusedAt, IsSettled, lookahead, looks_of, MayReadAt, NoCharacterStops, per_byte, read_count, ReadsCall, ReadsWithin, ReportsOutsideRuns, SpendsWithin};

use crate::buffer::Buffer;
use crate::parser::{Machine, Refused, State};
use crate::reader::{CountedPerform, Granularity, Input, Reader};

impl<B: Buffer> Machine<B> {
    /// Reads the bytes of a call as `drive_loop` does, and one byte that can't stop it without a
    /// loop.
    #[inline(always)]
    pub(crate) fn drive<P: CountedPerform<G>, G: Granularity, const MAY_STOP: bool>(
        &mut self,
        reader: &mut Reader,
        performer: &mut P,
        input: Input<'_>,
    ) -> Result<usize, Refused>
        requires no_stop { G.IN_RUNS ≡ true → MAY_STOP ≡ true
            → NoCharacterStops P.layout P.step P.is_terminated }
        ensures { ReadsCall
            (chunk_call MAY_STOP P.step P.is_terminated B.limit input.entry.bytes.now)
            (P.value_of performer.old) (P.value_of performer.new) result self.old self.new
            (looks_of reader.old) (looks_of reader.new) }
    {
        if !MAY_STOP && input.len() == 1 {
            return self.drive_single_byte(reader, performer, input);
        }
        self.drive_loop::<P, G, MAY_STOP>(reader, performer, input)
    }

    /// Reads the bytes of a call, as many as there is memory for, and returns how many: all of
    /// them, or up to a stop if `MAY_STOP`.
    // Inlined into a program's own function, its loops would keep their variables on the stack: 1.1
    // to 1.3 times the instructions.
    // cargo: #[inline(never)]
    fn drive_loop<P: CountedPerform<G>, G: Granularity, const MAY_STOP: bool>(
        &mut self,
        reader: &mut Reader,
        performer: &mut P,
        input: Input<'_>,
    ) -> Result<usize, Refused>
        requires no_stop { G.IN_RUNS ≡ true → MAY_STOP ≡ true
            → NoCharacterStops P.layout P.step P.is_terminated }
        ensures { ReadsCall
            (chunk_call MAY_STOP P.step P.is_terminated B.limit input.entry.bytes.now)
            (P.value_of performer.old) (P.value_of performer.new) result self.old self.new
            (looks_of reader.old) (looks_of reader.new) }
    {
        let mut position = self.continue_open_character::<P, G, MAY_STOP>(reader, performer, input);
        while position < input.len() {
            if MAY_STOP && performer.terminated() {
                return Ok(position);
            }
            position = self.read_by_state::<P, G, MAY_STOP>(reader, performer, input, position)?;
        }
        Ok(position)
    }

    /// Continues the character that an earlier call began, if one is open, as far as the bytes of
    /// this call go.
    pub(crate) fn continue_open_character<
        P: CountedPerform<G>,
        G: Granularity,
        const MAY_STOP: bool,
    >(&mut self, reader: &mut Reader, performer: &mut P, input: Input<'_>) -> usize
        ensures is_at_position { (stream : List ℕ) → HasReadWithLimit B.limit self.old stream →
            IsAtPosition (chunk_call MAY_STOP P.step P.is_terminated B.limit input.entry.bytes.now)
            (P.value_of performer.old) (P.value_of performer.new) stream result self.new }
        ensures settled { result < length input.entry.bytes.now → IsSettled self.new.state }
        ensures spends { SpendsWithin (per_byte 2) (caller_looks 0) (lookahead 2)
            input.entry.bytes.now 0 result self.old self.new reader.old reader.new }
        ensures outside_runs { (stream : List ℕ) → HasReadWithLimit B.limit self.old stream
            → ReportsOutsideRuns B.limit stream input.entry.bytes.now result }
    {
        match self.state {
            State::Text(opened) => {
                if opened.is_empty() {
                    return 0;
                }
                self.continue_character::<P, G, MAY_STOP>(reader, performer, input, 0, opened)
            }
            _ => 0,
        }
    }

    /// Reads at least one byte, or none if memory is refused for it. The caller has asked the
    /// performer before that byte.
    #[inline]
    pub(crate) fn read_by_state<P: CountedPerform<G>, G: Granularity, const MAY_STOP: bool>(
        &mut self,
        reader: &mut Reader,
        performer: &mut P,
        input: Input<'_>,
        from: usize,
    ) -> Result<usize, Refused>
        requires may_read { MayReadAt
            (chunk_call MAY_STOP P.step P.is_terminated B.limit input.bytes.now)
            (P.value_of performer.old) self.old.state self.old from }
        requires settled { IsSettled self.old.state }
        requires no_stop { G.IN_RUNS ≡ true → MAY_STOP ≡ true
            → NoCharacterStops P.layout P.step P.is_terminated }
        ensures advances { Advances (IsOutsideTextAndData self.old.state)
            (chunk_call MAY_STOP P.step P.is_terminated B.limit input.entry.bytes.now)
            (P.value_of performer.old) (P.value_of performer.new) from (read_count result) self.old
            self.new }
        ensures reads_within { IfOk result
            (λ read. ReadsWithin (per_byte 5) (caller_looks 0)
            input.entry.bytes.now from read self.old self.new reader.old reader.new) }
        ensures refuses { IfErr result
            (λ refused.
            IsRefusedAt (chunk_call MAY_STOP P.step P.is_terminated B.limit input.entry.bytes.now)
            (P.value_of performer.new) from refused.read self.old self.new reader.old reader.new) }
    {
        // A comparison, because the match jumps by a table, which is hard to predict.
        if let State::Text(_) = self.state {
            return Ok(self.read_text::<P, G, MAY_STOP>(reader, performer, input, from));
        }
        Ok(match self.state {
            // Never: this was tested above. A panic could stay in the program.
            State::Text(_) => from,
            State::Escape => self.read_after_escape::<P, G, MAY_STOP>(
                reader, performer, input, from,
            ),
            State::EscapeIntermediate => {
                self.read_intermediates::<P, G, MAY_STOP>(reader, performer, input, from)
            }
            State::ControlSequence(reached) => {
                self.read_numbers_and_rest::<P, G, MAY_STOP>(
                    reader, performer, input, from, reached,
                )
            }
            State::DeviceControl(reached) => {
                self.read_device_control::<P, G, MAY_STOP>(reader, performer, input, from, reached)
            }
            State::DeviceData => {
                self.read_device_data::<P, G, MAY_STOP>(reader, performer, input, from)
            }
            State::SystemCommand => {
                self.read_system_command::<P, G, MAY_STOP>(reader, performer, input, from)?
            }
            State::IgnoredString => {
                self.read_ignored_string::<P, G, MAY_STOP>(reader, performer, input, from)
            }
        })
    }
}
