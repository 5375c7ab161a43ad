//! Operating system commands.
ghost use Rattle.std.specs.Prelude.{IfErr, IfOk};
ghost use Rattle.vte_core.specs.private.Prelude.{Advances, caller_looks, chunk_call, EventsOutsideRuns, IsRefusedAt, MayReadAt, per_byte, read_count, ReadsWithin, SystemCommand};

use crate::buffer::Buffer;
use crate::class::ends_sequence;
use crate::parser::{Machine, OpenCharacter, Refused, State};
use crate::reader::{CountedPerform, Granularity, Input, Reader};

/// BEL: ends an operating system command.
const BELL: u8 = 0x07;

impl<B: Buffer> Machine<B> {
    /// Reads data bytes of an operating system command, and the byte after them. It allocates
    /// for the data, or else reads nothing.
    // cargo: #[inline(never)]
    pub(crate) fn read_system_command<P: CountedPerform<G>, G: Granularity, const MAY_STOP: bool>(
        &mut self,
        reader: &mut Reader,
        performer: &mut P,
        input: Input<'_>,
        from: usize,
    ) -> Result<usize, Refused>
        requires { MayReadAt (chunk_call MAY_STOP P.step P.is_terminated B.limit input.bytes.now)
            (P.value_of performer.old) SystemCommand self.old from }
        ensures advances { Advances EventsOutsideRuns
            (chunk_call MAY_STOP P.step P.is_terminated B.limit input.entry.bytes.now)
            (P.value_of performer.old) (P.value_of performer.new) from (read_count result) self.old
            self.new }
        ensures reads_within { IfOk result
            (λ read. ReadsWithin (per_byte 5) (caller_looks 0)
            input.entry.bytes.now from read self.old self.new reader.old reader.new) }
        ensures refuses { IfErr result
            (λ refused.
            IsRefusedAt (chunk_call MAY_STOP P.step P.is_terminated B.limit input.entry.bytes.now)
            (P.value_of performer.new) from refused.read self.old self.new reader.old reader.new) }
    {
        let end = reader.find_command_data_end(input, from);
        if !self.command.reserve_if_kept(end - from) {
            return Err(Refused { read: from });
        }
        self.command.push_data(reader, input, from, end);
        let byte = match reader.get_byte(input, end) {
            Some(byte) => byte,
            None => return Ok(end),
        };
        if ends_sequence(byte) {
            return Ok(self.read_ending_byte::<P, G, MAY_STOP>(reader, performer, input, end, byte));
        }
        if byte == b';' {
            self.command.end_piece();
        } else if byte == BELL {
            self.command.dispatch(reader, performer, true);
            self.state = State::Text(OpenCharacter::Empty);
        }
        Ok(end + 1)
    }
}
