//! Device control strings.
ghost use Rattle.std.specs.Prelude.{false, List, true, ℕ, ◌≡◌};
ghost use Rattle.vte_core.specs.private.Prelude.{Advances, AnyEvents, caller_looks, chunk_call, class_of, DeviceData, EventsOutsideRuns, HandlesByteWithin, HasReadHead, InDeviceControl, is_device_data, is_final, MayRead, MayReadByte, per_byte, ReadsWithin, TakesByte};

use crate::buffer::Buffer;
use crate::class::{ends_sequence, is_device_data, is_final};
use crate::head::HeadProgress;
use crate::parser::{Machine, OpenCharacter, State};
use crate::reader::{CountedPerform, Granularity, Input, Reader};

/// The one 8-bit control that is read: ST, the end of the data.
const STRING_TERMINATOR: u8 = 0x9c;

impl<B: Buffer> Machine<B> {
    /// Reads the rest of the head of a device control string, and its final byte.
    /// Controls in it are dropped.
    // cargo: #[inline(never)]
    pub(crate) fn read_device_control<P: CountedPerform<G>, G: Granularity, const MAY_STOP: bool>(
        &mut self,
        reader: &mut Reader,
        performer: &mut P,
        input: Input<'_>,
        from: usize,
        reached: HeadProgress,
    ) -> usize
        requires { MayRead (chunk_call MAY_STOP P.step P.is_terminated B.limit input.bytes.now)
            (P.value_of performer.old) (State.DeviceControl reached) self.old from }
        ensures advances { Advances EventsOutsideRuns
            (chunk_call MAY_STOP P.step P.is_terminated B.limit input.entry.bytes.now)
            (P.value_of performer.old) (P.value_of performer.new) from result self.old self.new }
        ensures reads_within { ReadsWithin (per_byte 5) (caller_looks 0)
            input.entry.bytes.now from result self.old self.new reader.old reader.new }
    {
        let head = self.collected.read_head(reader, input, from, reached);
        self.state = State::DeviceControl(head.progress);
        if let Some(byte) = head.next_byte {
            if is_final(byte) {
                self.hook(reader, performer, head.progress, byte);
            } else if ends_sequence(byte) {
                self.end_sequence(reader, performer, byte);
            }
            // Plain controls, DEL and 80..FF are dropped.
            return head.position + 1;
        }
        head.position
    }

    /// Hooks the string at the final byte of its head, or ignores it if the head is ill-shaped.
    fn hook<P: CountedPerform<G>, G: Granularity>(
        &mut self,
        reader: &mut Reader,
        performer: &mut P,
        reached: HeadProgress,
        final_byte: u8,
    )
        requires { is_final (class_of final_byte) ≡ true }
        ensures takes { (head : List ℕ) → HasReadHead self.old.collected reached head
            → TakesByte P.step (P.value_of performer.old) (P.value_of performer.new) B.limit
            (InDeviceControl head) final_byte self.new }
        ensures handles { HandlesByteWithin 1 self.old self.new reader.old reader.new }
    {
        if let HeadProgress::IllShaped = reached {
            self.state = State::IgnoredString;
            return;
        }
        let joined = self.collected.joined;
        let ignore = self.collected.end_head(joined);
        performer.hook(reader, &self.collected, ignore, final_byte);
        self.state = State::DeviceData;
    }

    /// Reads the data of a device control string, and the byte that ends it. If data come in
    /// slices and the call can't stop, it reads either a slice, up to the next byte that isn't
    /// data, or that byte.
    pub(crate) fn read_device_data<P: CountedPerform<G>, G: Granularity, const MAY_STOP: bool>(
        &mut self,
        reader: &mut Reader,
        performer: &mut P,
        input: Input<'_>,
        from: usize,
    ) -> usize
        requires { MayRead (chunk_call MAY_STOP P.step P.is_terminated B.limit input.bytes.now)
            (P.value_of performer.old) DeviceData self.old from }
        ensures advances { Advances AnyEvents
            (chunk_call MAY_STOP P.step P.is_terminated B.limit input.entry.bytes.now)
            (P.value_of performer.old) (P.value_of performer.new) from result self.old self.new }
        ensures reads_within { ReadsWithin (per_byte 5) (caller_looks 0)
            input.entry.bytes.now from result self.old self.new reader.old reader.new }
    {
        for position in from..input.len() {
            let byte = reader.byte_at(input, position);
            if !is_device_data(byte) {
                return self.end_data_or_drop_byte::<P, G, MAY_STOP>(
                    reader, performer, input, position, byte,
                );
            }
            if G::IN_RUNS && !MAY_STOP {
                let end = reader.find_device_data_end(input, position + 1);
                reader.report_data(performer, input, position, end);
                return end;
            }
            performer.put_byte(reader, byte);
            if MAY_STOP && performer.terminated() {
                return position + 1;
            }
        }
        input.len()
    }

    /// Reads a byte that isn't put: it ends the data, or is dropped.
    #[inline(never)]
    pub(crate) fn end_data_or_drop_byte<P: CountedPerform<G>, G: Granularity, const MAY_STOP: bool>(
        &mut self,
        reader: &mut Reader,
        performer: &mut P,
        input: Input<'_>,
        from: usize,
        byte: u8,
    ) -> usize
        requires may_read { MayReadByte
            (chunk_call MAY_STOP P.step P.is_terminated B.limit input.bytes.now)
            (P.value_of performer.old) DeviceData self.old from byte }
        requires no_data { is_device_data (class_of byte) ≡ false }
        ensures advances { Advances EventsOutsideRuns
            (chunk_call MAY_STOP P.step P.is_terminated B.limit input.entry.bytes.now)
            (P.value_of performer.old) (P.value_of performer.new) from result self.old self.new }
        ensures reads_within { ReadsWithin (per_byte 5) (caller_looks 1)
            input.entry.bytes.now from result self.old self.new reader.old reader.new }
    {
        if ends_sequence(byte) {
            return self.read_ending_byte::<P, G, MAY_STOP>(reader, performer, input, from, byte);
        }
        if byte == STRING_TERMINATOR {
            performer.unhook(reader);
            self.state = State::Text(OpenCharacter::Empty);
        }
        from + 1
    }
}
