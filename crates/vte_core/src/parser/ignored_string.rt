//! Ignored strings: SOS, PM, APC, and device control strings with an ill-shaped head.
ghost use Rattle.vte_core.specs.private.Prelude.{Advances, caller_looks, chunk_call, EventsOutsideRuns, IgnoredString, MayReadAt, per_byte, ReadsWithin};

use crate::buffer::Buffer;
use crate::parser::Machine;
use crate::reader::{CountedPerform, Granularity, Input, Reader};

impl<B: Buffer> Machine<B> {
    /// Reads a string that means nothing, and the byte that ends it.
    pub(crate) fn read_ignored_string<P: CountedPerform<G>, G: Granularity, const MAY_STOP: bool>(
        &mut self,
        reader: &mut Reader,
        performer: &mut P,
        input: Input<'_>,
        from: usize,
    ) -> usize
        requires { MayReadAt (chunk_call MAY_STOP P.step P.is_terminated B.limit input.bytes.now)
            (P.value_of performer.old) IgnoredString self.old from }
        ensures advances { Advances EventsOutsideRuns
            (chunk_call MAY_STOP P.step P.is_terminated B.limit input.entry.bytes.now)
            (P.value_of performer.old) (P.value_of performer.new) from result self.old self.new }
        ensures reads_within { ReadsWithin (per_byte 5) (caller_looks 0)
            input.entry.bytes.now from result self.old self.new reader.old reader.new }
    {
        let end = reader.find_ignored_string_end(input, from);
        match reader.get_byte(input, end) {
            Some(byte) => self.read_ending_byte::<P, G, MAY_STOP>(
                reader, performer, input, end, byte,
            ),
            None => end,
        }
    }
}
