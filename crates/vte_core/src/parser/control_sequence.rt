//! Control sequences.
//!
//! Their heads are read in two short ways and a general one: `read_short_head` takes a head of at
//! most one number, and calls nothing before the dispatch; `read_numbers_and_rest` takes numbers
//! with `;` between them, and `read_rest_of_head` whatever else a head has.
ghost use Rattle.std.specs.Prelude.{false, List, true, ℕ, ◌+◌, ◌<◌, ◌^◌, ◌≡◌};
ghost use Rattle.vte_core.specs.private.Prelude.{Advances, caller_looks, chunk_call, class_of, CsiDispatch, Dispatches, EventsOutsideRuns, HandlesByteWithin, HasReadHead, InControlSequence, is_final, MayRead, per_byte, ReadsWithin, TakesByte};

use crate::buffer::Buffer;
use crate::class::{ends_sequence, is_final, is_plain_control};
use crate::head::{HeadEnd, HeadProgress, Separators};
use crate::parser::{Machine, OpenCharacter, State};
use crate::reader::{CountedPerform, Granularity, Input, Reader};

impl<B: Buffer> Machine<B> {
    /// Reads the first number of a control sequence, if any, and a final byte right after it. Most
    /// sequences have no more, and for them this calls nothing before the dispatch.
    #[inline(always)]
    pub(crate) fn read_short_head<P: CountedPerform<G>, G: Granularity, const MAY_STOP: bool>(
        &mut self,
        reader: &mut Reader,
        performer: &mut P,
        input: Input<'_>,
        from: usize,
    ) -> usize
        requires may_read { MayRead
            (chunk_call MAY_STOP P.step P.is_terminated B.limit input.bytes.now)
            (P.value_of performer.old) (State.ControlSequence HeadProgress.Entry) self.old from }
        requires not_joined { self.old.collected.joined ≡ false }
        ensures advances { Advances EventsOutsideRuns
            (chunk_call MAY_STOP P.step P.is_terminated B.limit input.entry.bytes.now)
            (P.value_of performer.old) (P.value_of performer.new) from result self.old self.new }
        ensures reads_within { ReadsWithin (per_byte 5) (caller_looks 0)
            input.entry.bytes.now from result self.old self.new reader.old reader.new }
    {
        let head = self.collected.read_numbers(
            reader,
            input,
            from,
            HeadProgress::Entry,
            Separators::Unread,
        );
        if let Some(byte) = head.next_byte {
            if is_final(byte) {
                return self.end_control_sequence(reader, performer, head, false, byte);
            }
            if byte == b';' {
                self.collected.end_number();
                self.state = State::ControlSequence(HeadProgress::Parameters);
                return self.read_more_numbers::<P, G, MAY_STOP>(
                    reader,
                    performer,
                    input,
                    head.position + 1,
                    HeadProgress::Parameters,
                );
            }
        }
        self.state = State::ControlSequence(head.progress);
        self.read_more_numbers::<P, G, MAY_STOP>(
            reader,
            performer,
            input,
            head.position,
            head.progress,
        )
    }

    /// Reads further numbers. Not inlined, because most sequences have at most one.
    #[inline(never)]
    fn read_more_numbers<P: CountedPerform<G>, G: Granularity, const MAY_STOP: bool>(
        &mut self,
        reader: &mut Reader,
        performer: &mut P,
        input: Input<'_>,
        from: usize,
        reached: HeadProgress,
    ) -> usize
        requires { MayRead (chunk_call MAY_STOP P.step P.is_terminated B.limit input.bytes.now)
            (P.value_of performer.old) (State.ControlSequence reached) self.old from }
        ensures advances { Advances EventsOutsideRuns
            (chunk_call MAY_STOP P.step P.is_terminated B.limit input.entry.bytes.now)
            (P.value_of performer.old) (P.value_of performer.new) from result self.old self.new }
        ensures reads_within { ReadsWithin (per_byte 4) (caller_looks 0)
            input.entry.bytes.now from result self.old self.new reader.old reader.new }
    {
        self.read_numbers_and_rest::<P, G, MAY_STOP>(reader, performer, input, from, reached)
    }

    /// Continues a control sequence, whose head was read as far as `reached`. There is a short path
    /// for numbers with `;` between them and a final byte after them. Most bytes take it if each
    /// call has one byte and may stop.
    #[inline(always)]
    pub(crate) fn read_numbers_and_rest<P: CountedPerform<G>, G: Granularity, const MAY_STOP: bool>(
        &mut self,
        reader: &mut Reader,
        performer: &mut P,
        input: Input<'_>,
        from: usize,
        reached: HeadProgress,
    ) -> usize
        requires { MayRead (chunk_call MAY_STOP P.step P.is_terminated B.limit input.bytes.now)
            (P.value_of performer.old) (State.ControlSequence reached) self.old from }
        ensures advances { Advances EventsOutsideRuns
            (chunk_call MAY_STOP P.step P.is_terminated B.limit input.entry.bytes.now)
            (P.value_of performer.old) (P.value_of performer.new) from result self.old self.new }
        ensures reads_within { ReadsWithin (per_byte 4) (caller_looks 0)
            input.entry.bytes.now from result self.old self.new reader.old reader.new }
    {
        if !reached.may_have_parameters() || self.collected.joined {
            return self.read_rest_of_head::<P, G, MAY_STOP>(
                reader, performer, input, from, reached,
            );
        }
        let head = self
            .collected
            .read_numbers(reader, input, from, reached, Separators::Read);
        if let Some(byte) = head.next_byte {
            if is_final(byte) {
                return self.end_control_sequence(reader, performer, head, false, byte);
            }
        }
        self.state = State::ControlSequence(head.progress);
        if head.next_byte.is_none() {
            return head.position;
        }
        self.read_rest_of_head::<P, G, MAY_STOP>(
            reader,
            performer,
            input,
            head.position,
            head.progress,
        )
    }

    /// Reads the rest of the head of a control sequence, and the byte after it.
    #[inline(never)]
    pub(crate) fn read_rest_of_head<P: CountedPerform<G>, G: Granularity, const MAY_STOP: bool>(
        &mut self,
        reader: &mut Reader,
        performer: &mut P,
        input: Input<'_>,
        from: usize,
        reached: HeadProgress,
    ) -> usize
        requires { MayRead (chunk_call MAY_STOP P.step P.is_terminated B.limit input.bytes.now)
            (P.value_of performer.old) (State.ControlSequence reached) self.old from }
        ensures advances { Advances EventsOutsideRuns
            (chunk_call MAY_STOP P.step P.is_terminated B.limit input.entry.bytes.now)
            (P.value_of performer.old) (P.value_of performer.new) from result self.old self.new }
        ensures reads_within { ReadsWithin (per_byte 3) (caller_looks 0)
            input.entry.bytes.now from result self.old self.new reader.old reader.new }
    {
        let head = self.collected.read_head(reader, input, from, reached);
        self.state = State::ControlSequence(head.progress);
        if let Some(byte) = head.next_byte {
            if is_final(byte) {
                let joined = self.collected.joined;
                return self.end_control_sequence(reader, performer, head, joined, byte);
            }
            if ends_sequence(byte) {
                self.end_sequence(reader, performer, byte);
            } else if is_plain_control(byte) {
                performer.execute_control(reader, byte);
            }
            // DEL and 80..FF are dropped.
            return head.position + 1;
        }
        head.position
    }

    /// Ends a control sequence at its final byte, after its head: dispatches it, unless the head is
    /// ill-shaped. Returns the next position. `joined` is the value of the field: most callers know
    /// that it is false.
    #[inline(always)]
    fn end_control_sequence<P: CountedPerform<G>, G: Granularity>(
        &mut self,
        reader: &mut Reader,
        performer: &mut P,
        head: HeadEnd,
        joined: bool,
        final_byte: u8,
    ) -> usize
        requires final_byte { is_final (class_of final_byte) ≡ true }
        requires joined { self.old.collected.joined ≡ joined }
        requires no_overflow { head.position + 1 < 2 ^ 64 }
        ensures value { result ≡ head.position + 1 }
        ensures takes { (bytes : List ℕ) → HasReadHead self.old.collected head.progress bytes
            → TakesByte P.step (P.value_of performer.old) (P.value_of performer.new) B.limit
            (InControlSequence bytes) final_byte self.new }
        ensures handles { HandlesByteWithin 1 self.old self.new reader.old reader.new }
    {
        if let HeadProgress::IllShaped = head.progress {
            self.state = State::Text(OpenCharacter::Empty);
            return head.position + 1;
        }
        let ignore = self.collected.end_head(joined);
        self.dispatch_control_sequence(reader, performer, ignore, final_byte, head.position)
    }

    /// Dispatches a control sequence at its final byte, and returns the next position, so that
    /// callers need not keep it.
    #[inline(never)]
    fn dispatch_control_sequence<P: CountedPerform<G>, G: Granularity>(
        &mut self,
        reader: &mut Reader,
        performer: &mut P,
        ignore: bool,
        final_byte: u8,
        position: usize,
    ) -> usize
        requires no_overflow { position + 1 < 2 ^ 64 }
        ensures value { result ≡ position + 1 }
        ensures dispatches { Dispatches P.step (P.value_of performer.old) (P.value_of performer.new)
            (CsiDispatch self.old.collected.params self.old.collected.intermediates.items ignore
            final_byte) self.old self.new reader.old reader.new }
    {
        self.state = State::Text(OpenCharacter::Empty);
        performer.csi_dispatch(reader, &self.collected, ignore, final_byte);
        position + 1
    }
}
