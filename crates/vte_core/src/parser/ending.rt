//! ESC, CAN and SUB, which end whatever is open, in every state.
ghost use Rattle.std.specs.Prelude.{true, [], ◌∷◌, ◌≡◌};
ghost use Rattle.vte_core.specs.private.Prelude.{Advances, after, caller_looks, chunk_call, class_of, closing_events_at, ends_sequence, Escape, escape, EventsOutsideRuns, HandlesByteWithin, IsAtPlace, IsOutsideRunsInState, IsSettledPlace, LooksWithin, MayReadByte, per_byte, Place, ReadsWithin, TakesBytes};

use crate::buffer::Buffer;
use crate::class::ESCAPE;
use crate::parser::{Machine, OpenCharacter, State};
use crate::reader::{CountedPerform, Granularity, Input, Reader};

impl<B: Buffer> Machine<B> {
    /// Closes what is open, and then begins an escape sequence, or executes CAN or SUB.
    #[inline(never)]
    pub(crate) fn end_sequence<P: CountedPerform<G>, G: Granularity>(
        &mut self,
        reader: &mut Reader,
        performer: &mut P,
        byte: u8,
    )
        requires { ends_sequence (class_of byte) ≡ true }
        ensures takes { (place : Place) → IsAtPlace B.limit self.old place
            → IsSettledPlace place
            → TakesBytes P.step (P.value_of performer.old)
            (P.value_of performer.new) B.limit place (byte ∷ []) self.new }
        ensures escape { byte ≡ escape → self.new.state ≡ Escape }
        ensures handles { HandlesByteWithin 2 self.old self.new reader.old reader.new }
    {
        self.report_string_end(reader, performer);
        if byte == ESCAPE {
            self.collected.clear_intermediates();
            self.state = State::Escape;
            return;
        }
        performer.execute_control(reader, byte);
        self.state = State::Text(OpenCharacter::Empty);
    }

    /// Reads a byte that ends what is open, and after ESC also the bytes that follow it.
    pub(crate) fn read_ending_byte<P: CountedPerform<G>, G: Granularity, const MAY_STOP: bool>(
        &mut self,
        reader: &mut Reader,
        performer: &mut P,
        input: Input<'_>,
        from: usize,
        byte: u8,
    ) -> usize
        requires may_read { MayReadByte
            (chunk_call MAY_STOP P.step P.is_terminated B.limit input.bytes.now)
            (P.value_of performer.old) self.old.state self.old from byte }
        requires ends { ends_sequence (class_of byte) ≡ true }
        requires outside_runs { IsOutsideRunsInState self.old.state byte }
        ensures advances { Advances EventsOutsideRuns
            (chunk_call MAY_STOP P.step P.is_terminated B.limit input.entry.bytes.now)
            (P.value_of performer.old) (P.value_of performer.new) from result self.old self.new }
        ensures reads_within { ReadsWithin (per_byte 3) (caller_looks 1)
            input.entry.bytes.now from result self.old self.new reader.old reader.new }
    {
        self.end_sequence(reader, performer, byte);
        if byte != ESCAPE || (MAY_STOP && performer.terminated()) {
            return from + 1;
        }
        self.read_after_escape::<P, G, MAY_STOP>(reader, performer, input, from + 1)
    }

    /// Reports the end of a string: `unhook`, or the operating system command.
    fn report_string_end<P: CountedPerform<G>, G: Granularity>(
        &self,
        reader: &mut Reader,
        performer: &mut P,
    )
        ensures reported { (place : Place) → IsAtPlace B.limit self.now place
            → IsSettledPlace place → P.value_of performer.new
            ≡ after P.step (P.value_of performer.old) (closing_events_at B.limit place) }
        ensures looks_at_most { LooksWithin 1 reader.old reader.new }
    {
        match self.state {
            State::DeviceData => performer.unhook(reader),
            State::SystemCommand => self.command.dispatch(reader, performer, false),
            _ => {}
        }
    }
}
