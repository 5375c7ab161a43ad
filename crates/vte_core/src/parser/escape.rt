//! Escape sequences, and what ESC begins.
ghost use Rattle.std.specs.Prelude.{slice_index, true, [], ◌*◌, ◌+◌, ◌<◌, ◌∷◌, ◌≡◌, ◌≢◌, ◌≤◌};
ghost use Rattle.vte_core.specs.private.Prelude.{Advances, AtEscape, caller_looks, chunk_call, class_of, Dispatches, Empty, Escape, escape, EscapeIntermediate, EscDispatch, EventsOutsideRuns, HandlesByteWithin, is_final, IsAtPlace, IsSettledPlace, looks_of, MayRead, MayReadAt, per_byte, Place, ReadsWithin, TakesByte, TakesBytes, Text};

use crate::buffer::Buffer;
use crate::class::{
    ESCAPE, begins_ignored_string, dispatches_escape, ends_sequence, is_final, is_head_byte,
    is_intermediate, is_plain_control,
};
use crate::head::HeadProgress;
use crate::parser::{Machine, OpenCharacter, State};
use crate::reader::{CountedPerform, Granularity, Input, Reader};

impl<B: Buffer> Machine<B> {
    /// Begins an escape sequence at an ESC in a text, and reads the bytes after the ESC.
    #[inline(never)]
    pub(crate) fn read_escape_in_text<P: CountedPerform<G>, G: Granularity, const MAY_STOP: bool>(
        &mut self,
        reader: &mut Reader,
        performer: &mut P,
        input: Input<'_>,
        from: usize,
    ) -> usize
        requires may_read { MayReadAt
            (chunk_call MAY_STOP P.step P.is_terminated B.limit input.bytes.now)
            (P.value_of performer.old) (Text Empty) self.old from }
        requires escape { slice_index input.bytes.now from ≡ escape }
        ensures advances { Advances EventsOutsideRuns
            (chunk_call MAY_STOP P.step P.is_terminated B.limit input.entry.bytes.now)
            (P.value_of performer.old) (P.value_of performer.new) from result self.old self.new }
        ensures reads_within { ReadsWithin (per_byte 5) (caller_looks 1)
            input.entry.bytes.now from result self.old self.new reader.old reader.new }
        // The caller took one look at ESC; the four others that a byte may cost are left for
        // `find_text_part_end`.
        ensures looks_at_most { looks_of reader.new + 5 * from + 5
            ≤ looks_of reader.old + 5 * result }
    {
        self.collected.clear_intermediates();
        let next = from + 1;
        if next < input.len() && reader.byte_at(input, next) == b'[' {
            self.collected.clear_numbers();
            self.state = State::ControlSequence(HeadProgress::Entry);
            return self.read_short_head::<P, G, MAY_STOP>(reader, performer, input, next + 1);
        }
        self.state = State::Escape;
        self.read_after_escape::<P, G, MAY_STOP>(reader, performer, input, next)
    }

    /// Reads bytes after ESC, up to the one that says what begins. After `[` it reads the control
    /// sequence too.
    #[inline(never)]
    pub(crate) fn read_after_escape<P: CountedPerform<G>, G: Granularity, const MAY_STOP: bool>(
        &mut self,
        reader: &mut Reader,
        performer: &mut P,
        input: Input<'_>,
        from: usize,
    ) -> usize
        requires { MayRead (chunk_call MAY_STOP P.step P.is_terminated B.limit input.bytes.now)
            (P.value_of performer.old) Escape self.old from }
        ensures advances { Advances EventsOutsideRuns
            (chunk_call MAY_STOP P.step P.is_terminated B.limit input.entry.bytes.now)
            (P.value_of performer.old) (P.value_of performer.new) from result self.old self.new }
        ensures reads_within { ReadsWithin (per_byte 3) (caller_looks 0)
            input.entry.bytes.now from result self.old self.new reader.old reader.new }
    {
        for position in from..input.len() {
            let byte = reader.byte_at(input, position);
            // Added before the branches, so that the loop over ESC is shorter.
            let next = position + 1;
            if byte == b'[' {
                self.collected.clear_numbers();
                self.state = State::ControlSequence(HeadProgress::Entry);
                // Not `read_numbers_and_rest`, which may look at a byte twice: 3 looks per byte are
                // left.
                return self.read_rest_of_head::<P, G, MAY_STOP>(
                    reader,
                    performer,
                    input,
                    next,
                    HeadProgress::Entry,
                );
            }
            // Another ESC changes nothing: nothing was collected since the one before.
            if byte != ESCAPE {
                self.read_byte_after_escape(reader, performer, byte);
                return next;
            }
        }
        input.len()
    }

    /// Reads a byte after ESC, other than `[`.
    fn read_byte_after_escape<P: CountedPerform<G>, G: Granularity>(
        &mut self,
        reader: &mut Reader,
        performer: &mut P,
        byte: u8,
    )
        requires in_state { self.old.state ≡ Escape }
        requires no_bracket { byte ≢ 0x5b }
        ensures takes { (place : Place) → IsAtPlace B.limit self.old place
            → IsSettledPlace place
            → TakesBytes P.step
            (P.value_of performer.old) (P.value_of performer.new) B.limit place
            (byte ∷ []) self.new }
        ensures handles { HandlesByteWithin 2 self.old self.new reader.old reader.new }
    {
        if is_final(byte) {
            self.begin_or_dispatch(reader, performer, byte);
        } else if is_intermediate(byte) {
            self.collected.collect_intermediate(byte);
            self.state = State::EscapeIntermediate;
        } else if is_head_byte(byte) {
            self.dispatch_escape(reader, performer, byte);
        } else if ends_sequence(byte) {
            self.end_sequence(reader, performer, byte);
        } else if is_plain_control(byte) {
            performer.execute_control(reader, byte);
        }
        // DEL and 80..FF are dropped.
    }

    /// Begins the string that a byte after ESC introduces, or dispatches the escape sequence that
    /// the byte ends. It is one of 40..7E other than `[`.
    #[inline(never)]
    fn begin_or_dispatch<P: CountedPerform<G>, G: Granularity>(
        &mut self,
        reader: &mut Reader,
        performer: &mut P,
        byte: u8,
    )
        requires ends { is_final (class_of byte) ≡ true }
        requires no_bracket { byte ≢ 0x5b }
        ensures takes { IsAtPlace B.limit self.old AtEscape
            → TakesByte P.step (P.value_of performer.old) (P.value_of performer.new)
            B.limit AtEscape byte self.new }
        ensures handles { HandlesByteWithin 1 self.old self.new reader.old reader.new }
    {
        if byte == b'P' {
            self.collected.clear_numbers();
            self.state = State::DeviceControl(HeadProgress::Entry);
        } else if byte == b']' {
            self.command.clear();
            self.state = State::SystemCommand;
        } else if begins_ignored_string(byte) {
            self.state = State::IgnoredString;
        } else {
            self.dispatch_escape(reader, performer, byte);
        }
    }

    /// Reads the intermediates of an escape sequence and its final byte.
    // cargo: #[inline(never)]
    pub(crate) fn read_intermediates<P: CountedPerform<G>, G: Granularity, const MAY_STOP: bool>(
        &mut self,
        reader: &mut Reader,
        performer: &mut P,
        input: Input<'_>,
        from: usize,
    ) -> usize
        requires { MayRead (chunk_call MAY_STOP P.step P.is_terminated B.limit input.bytes.now)
            (P.value_of performer.old) EscapeIntermediate self.old from }
        ensures advances { Advances EventsOutsideRuns
            (chunk_call MAY_STOP P.step P.is_terminated B.limit input.entry.bytes.now)
            (P.value_of performer.old) (P.value_of performer.new) from result self.old self.new }
        ensures reads_within { ReadsWithin (per_byte 5) (caller_looks 0)
            input.entry.bytes.now from result self.old self.new reader.old reader.new }
    {
        for position in from..input.len() {
            let byte = reader.byte_at(input, position);
            if is_intermediate(byte) {
                self.collected.collect_intermediate(byte);
            } else if dispatches_escape(byte) {
                self.dispatch_escape(reader, performer, byte);
                return position + 1;
            } else if ends_sequence(byte) {
                self.end_sequence(reader, performer, byte);
                return position + 1;
            } else if is_plain_control(byte) {
                performer.execute_control(reader, byte);
                return position + 1;
            }
            // DEL and 80..FF are dropped.
        }
        input.len()
    }

    /// Dispatches an escape sequence at its final byte.
    fn dispatch_escape<P: CountedPerform<G>, G: Granularity>(
        &mut self,
        reader: &mut Reader,
        performer: &mut P,
        final_byte: u8,
    )
        ensures { Dispatches P.step (P.value_of performer.old) (P.value_of performer.new)
            (EscDispatch self.old.collected.intermediates.items
            self.old.collected.too_many_intermediates final_byte)
            self.old self.new reader.old reader.new }
    {
        performer.esc_dispatch(reader, &self.collected, final_byte);
        self.state = State::Text(OpenCharacter::Empty);
    }
}
