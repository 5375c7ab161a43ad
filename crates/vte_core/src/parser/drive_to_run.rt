//! Runs of text and data in the input, for callers that take them from there.
ghost use Rattle.std.specs.Prelude.{false, IfErr, IfOk, List, Some, true, ℕ, ◌*◌, ◌+◌, ◌≤◌};
ghost use Rattle.vte_core.specs.Parser.{HasRead};
ghost use Rattle.vte_core.specs.private.Prelude.{Advances, caller_looks, chunk_call, ComesToRun, Costs, Empty, EventsOutsideRuns, HasNoRunAt, HasReadWithLimit, looks_of, MayReadAt, per_byte, read_before_range, read_through_range, ReadsUntilRefused, ReadsWithin, ReportsOutsideRuns, Text, total_looks};

use crate::buffer::Buffer;
use crate::class::ESCAPE;
use crate::parser::{Machine, Parser, Refused, State};
use crate::reader::{ByCharacter, Chunk, CountedPerform, Input, Reader, RunKind, RunRange};
use crate::utf8::{is_lead, is_printed_ascii};

impl<const OSC_RAW_BUF_SIZE: usize> Parser<OSC_RAW_BUF_SIZE> {
    /// Reads bytes up to a run, and finds the run.
    pub(crate) fn drive_to_run<P: CountedPerform<ByCharacter>>(
        &mut self,
        performer: &mut P,
        chunk: Chunk<'_>,
    ) -> RunRange
        ensures comes { ComesToRun
            (chunk_call true P.step P.is_terminated (Some OSC_RAW_BUF_SIZE) chunk.entry.bytes.now)
            (P.value_of performer.old) (P.value_of performer.new) result self.old.machine
            self.new.machine }
        ensures outside_runs { (stream : List ℕ) → HasRead self.old stream
            → ReportsOutsideRuns (Some OSC_RAW_BUF_SIZE) stream chunk.entry.bytes.now result.start }
        ensures looks_at_most { total_looks self.new.looks
            ≤ total_looks self.old.looks + 7 * result.end + 8 }
        ensures looks_at_least { total_looks self.old.looks + result.end
            ≤ total_looks self.new.looks }
    {
        let (mut reader, input) = chunk.into_reader();
        let result = self.machine.drive_to_run(&mut reader, performer, input);
        self.looks.add(reader);
        match result {
            Ok(range) => range,
            // Never: with a limit no memory is refused.
            Err(refused) => RunRange::empty(refused.read),
        }
    }
}

impl<B: Buffer> Machine<B> {
    /// Reads bytes up to a run, and finds the run. The state stays as it is before the run, because
    /// the bytes of the run lead back to it.
    pub(crate) fn drive_to_run<P: CountedPerform<ByCharacter>>(
        &mut self,
        reader: &mut Reader,
        performer: &mut P,
        input: Input<'_>,
    ) -> Result<RunRange, Refused>
        ensures comes { IfOk result
            (λ range. ComesToRun
            (chunk_call true P.step P.is_terminated B.limit input.entry.bytes.now)
            (P.value_of performer.old) (P.value_of performer.new) range self.old self.new) }
        ensures refuses { IfErr result
            (λ refused. ReadsUntilRefused
            (chunk_call true P.step P.is_terminated B.limit input.entry.bytes.now)
            (P.value_of performer.old) (P.value_of performer.new) refused.read self.old self.new) }
        ensures costs { Costs (per_byte 7) input.entry.bytes.now result
            (read_through_range result) self.old self.new
            (looks_of reader.old) (looks_of reader.new) }
        ensures outside_runs { (stream : List ℕ) → HasReadWithLimit B.limit self.old stream
            → ReportsOutsideRuns B.limit stream input.entry.bytes.now (read_before_range result) }
    {
        let mut position = self.continue_open_character::<P, ByCharacter, true>(
            reader, performer, input,
        );
        while position < input.len() && !performer.terminated() {
            position = match self.state {
                State::Text(_) => {
                    // HT, LF and CR are reported by `execute`.
                    let layout = false;
                    let end = reader.find_run_end(input, position, layout);
                    if end > position {
                        return Ok(RunRange {
                            start: position,
                            end,
                            kind: RunKind::Text,
                        });
                    }
                    self.read_outside_runs(reader, performer, input, position)
                }
                State::DeviceData => {
                    let end = reader.find_device_data_end(input, position);
                    if end > position {
                        return Ok(RunRange {
                            start: position,
                            end,
                            kind: RunKind::Data,
                        });
                    }
                    let byte = reader.byte_at(input, position);
                    self.end_data_or_drop_byte::<P, ByCharacter, true>(
                        reader, performer, input, position, byte,
                    )
                }
                _ => self.read_by_state::<P, ByCharacter, true>(
                    reader, performer, input, position,
                )?,
            };
        }
        Ok(RunRange::empty(position))
    }

    /// Reads text at a position where no run begins: the character or malformed sequence of a lead
    /// byte, or controls and malformed bytes up to the next lead byte or printed ASCII, and an
    /// escape sequence that follows them.
    fn read_outside_runs<P: CountedPerform<ByCharacter>>(
        &mut self,
        reader: &mut Reader,
        performer: &mut P,
        input: Input<'_>,
        from: usize,
    ) -> usize
        requires may_read { MayReadAt
            (chunk_call true P.step P.is_terminated B.limit input.bytes.now)
            (P.value_of performer.old) (Text Empty) self.old from }
        requires no_run { HasNoRunAt false input.bytes.now from }
        ensures advances { Advances EventsOutsideRuns
            (chunk_call true P.step P.is_terminated B.limit input.entry.bytes.now)
            (P.value_of performer.old) (P.value_of performer.new) from result self.old self.new }
        ensures reads_within { ReadsWithin (per_byte 7) (caller_looks 0)
            input.entry.bytes.now from result self.old self.new reader.old reader.new }
        // Four are left of 7 per byte, for a search that found no run.
        ensures looks_at_most { looks_of reader.new + 7 * from + 4
            ≤ looks_of reader.old + 7 * result }
    {
        let mut position = from;
        let mut byte = reader.byte_at(input, from);
        if is_lead(byte) {
            return self.read_character::<P, ByCharacter, true>(
                reader, performer, input, from, byte,
            );
        }
        while byte != ESCAPE {
            reader.report_lone_byte(performer, byte);
            position += 1;
            if position == input.len() || performer.terminated() {
                return position;
            }
            byte = reader.byte_at(input, position);
            if is_printed_ascii(byte) || is_lead(byte) {
                return position;
            }
        }
        self.read_escape_in_text::<P, ByCharacter, true>(reader, performer, input, position)
    }
}
