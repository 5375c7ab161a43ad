//! The bytes of a character after the first.
//!
//! `continue_character` reads any of them, byte by byte. For a character that begins in this call,
//! `complete_three` and `complete_four` read the same without a loop, and test only once how many
//! bytes it has.
ghost use Rattle.std.specs.Prelude.{false, length, slice_index, true, [], ◌*◌, ◌+◌, ◌<◌, ◌≡◌, ◌≢◌, ◌≤◌};
ghost use Rattle.vte_core.specs.private.Prelude.{Advances, BeginsFour, BeginsThree, bytes_of, caller_looks, chunk_call, Completes, Empty, HasNoRunAt, IsLead, lookahead, looks_of, MayReadByte, NoCharacterStops, One, per_byte, ReadsWithin, SpendsWithin, Text};

use crate::buffer::Buffer;
use crate::parser::{Machine, State};
use crate::reader::{CountedPerform, Granularity, Input, Reader};
use crate::utf8::{
    Extension, OpenCharacter, character_of_four, character_of_three, character_of_two,
    is_continuation, may_begin_four, may_begin_three,
};

impl<B: Buffer> Machine<B> {
    /// Reads the character or malformed sequence that begins with a lead byte. A byte that breaks
    /// it is left unread, and U+FFFD is printed for those before it. If text comes in runs, a
    /// character of four bytes begins a run.
    #[inline(always)]
    pub(crate) fn read_character<P: CountedPerform<G>, G: Granularity, const MAY_STOP: bool>(
        &mut self,
        reader: &mut Reader,
        performer: &mut P,
        input: Input<'_>,
        from: usize,
        first: u8,
    ) -> usize
        requires may_read { MayReadByte
            (chunk_call MAY_STOP P.step P.is_terminated B.limit input.bytes.now)
            (P.value_of performer.old) (Text Empty) self.old from first }
        requires lead { IsLead first }
        requires no_stop { G.IN_RUNS ≡ true → MAY_STOP ≡ true
            → NoCharacterStops P.layout P.step P.is_terminated }
        ensures advances { Advances
            ((G.IN_RUNS ≡ false) × HasNoRunAt false input.entry.bytes.now from)
            (chunk_call MAY_STOP P.step P.is_terminated B.limit input.entry.bytes.now)
            (P.value_of performer.old) (P.value_of performer.new) from result self.old self.new }
        ensures in_text { result < length input.entry.bytes.now → self.new.state ≡ Text Empty }
        ensures reads_within { ReadsWithin (per_byte 5) (caller_looks 1)
            input.entry.bytes.now from result self.old self.new reader.old reader.new }
        // Three are left of 5 per byte: one for the lead byte, and two for a search that found no
        // run.
        ensures looks_at_most { looks_of reader.new + 5 * from + 3
            ≤ looks_of reader.old + 5 * result }
        // Without runs 3 per byte are enough, with that for the lead byte.
        ensures looks_at_most_by_character { G.IN_RUNS ≡ false
            → looks_of reader.new + 3 * from + 1 ≤ looks_of reader.old + 3 * result }
    {
        let next = from + 1;
        if next >= input.len() {
            self.state = State::Text(OpenCharacter::One(first));
            return next;
        }
        let second = reader.byte_at(input, next);
        if !is_continuation(second) {
            performer.print_char(reader, char::REPLACEMENT_CHARACTER);
            return next;
        }
        if first < 0xe0 {
            reader.report_character(performer, character_of_two(first, second));
            return next + 1;
        }
        if first < 0xf0 {
            self.complete_three::<P, G, MAY_STOP>(reader, performer, input, from, first, second)
        } else {
            self.complete_four::<P, G, MAY_STOP>(reader, performer, input, from, first, second)
        }
    }

    /// Reads the character of three bytes that begins at `from`.
    #[inline(always)]
    fn complete_three<P: CountedPerform<G>, G: Granularity, const MAY_STOP: bool>(
        &mut self,
        reader: &mut Reader,
        performer: &mut P,
        input: Input<'_>,
        from: usize,
        first: u8,
        second: u8,
    ) -> usize
        requires may_read { MayReadByte
            (chunk_call MAY_STOP P.step P.is_terminated B.limit input.bytes.now)
            (P.value_of performer.old) (Text Empty) self.old from first }
        requires lead { BeginsThree first }
        requires before_end { from + 1 < length input.bytes.now }
        requires looked_at { second ≡ slice_index input.bytes.now (from + 1) }
        ensures completes { Completes
            (chunk_call MAY_STOP P.step P.is_terminated B.limit input.entry.bytes.now)
            (P.value_of performer.old) (P.value_of performer.new) (from + 1) result
            (One first) self.new }
        ensures spends { SpendsWithin (per_byte 2) (caller_looks 1) (lookahead 2)
            input.entry.bytes.now (from + 1) result self.old self.new reader.old reader.new }
    {
        let next = from + 1;
        if !may_begin_three(first, second) {
            performer.print_char(reader, char::REPLACEMENT_CHARACTER);
            return next;
        }
        if next + 1 >= input.len() {
            // No byte is left for `continue_near_end`.
            self.state = State::Text(OpenCharacter::Two(first, second));
            return next + 1;
        }
        let third = reader.byte_at(input, next + 1);
        if !is_continuation(third) {
            performer.print_char(reader, char::REPLACEMENT_CHARACTER);
            return next + 1;
        }
        reader.report_character(performer, character_of_three(first, second, third));
        next + 2
    }

    /// Reads the character of four bytes that begins at `from`. If text comes in runs, it begins
    /// a run.
    #[inline(always)]
    // cargo: #[allow(unsafe_code)]
    fn complete_four<P: CountedPerform<G>, G: Granularity, const MAY_STOP: bool>(
        &mut self,
        reader: &mut Reader,
        performer: &mut P,
        input: Input<'_>,
        from: usize,
        first: u8,
        second: u8,
    ) -> usize
        requires may_read { MayReadByte
            (chunk_call MAY_STOP P.step P.is_terminated B.limit input.bytes.now)
            (P.value_of performer.old) (Text Empty) self.old from first }
        requires lead { BeginsFour first }
        requires before_end { from + 1 < length input.bytes.now }
        requires looked_at { second ≡ slice_index input.bytes.now (from + 1) }
        requires no_stop { G.IN_RUNS ≡ true → MAY_STOP ≡ true
            → NoCharacterStops P.layout P.step P.is_terminated }
        ensures advances { Advances
            ((G.IN_RUNS ≡ false) × HasNoRunAt false input.entry.bytes.now from)
            (chunk_call MAY_STOP P.step P.is_terminated B.limit input.entry.bytes.now)
            (P.value_of performer.old) (P.value_of performer.new) from result self.old self.new }
        ensures in_text { result < length input.entry.bytes.now → self.new.state ≡ Text Empty }
        ensures reads_within { ReadsWithin (per_byte 5) (caller_looks 2)
            input.entry.bytes.now from result self.old self.new reader.old reader.new }
        // As in `read_character`, with one more for the second byte.
        ensures looks_at_most { looks_of reader.new + 5 * from + 4
            ≤ looks_of reader.old + 5 * result }
        ensures looks_at_most_by_character { G.IN_RUNS ≡ false
            → looks_of reader.new + 3 * from + 2 ≤ looks_of reader.old + 3 * result }
    {
        let next = from + 1;
        if !may_begin_four(first, second) {
            performer.print_char(reader, char::REPLACEMENT_CHARACTER);
            return next;
        }
        // One comparison, whether one byte is missing or two.
        if next + 2 >= input.len() {
            return self.continue_near_end::<P, G, MAY_STOP>(
                reader,
                performer,
                input,
                next + 1,
                OpenCharacter::Two(first, second),
            );
        }
        let third = reader.byte_at(input, next + 1);
        if !is_continuation(third) {
            performer.print_char(reader, char::REPLACEMENT_CHARACTER);
            return next + 1;
        }
        let fourth = reader.byte_at(input, next + 2);
        if !is_continuation(fourth) {
            performer.print_char(reader, char::REPLACEMENT_CHARACTER);
            return next + 2;
        }
        if G::IN_RUNS {
            let end = reader.find_run_end_after_non_ascii(performer, input, next + 3);
            // cargo: // SAFETY: the character at `from` is whole, and the search passes whole
            // cargo: // characters.
            reader.report_text(performer, input, from, end);
            return end;
        }
        reader.report_character(performer, character_of_four(first, second, third, fourth));
        next + 3
    }

    /// Continues a character that may not end in this call.
    // Inlined in cargo's builds, it would take registers from the loops of text: 1.09 times the
    // instructions on ASCII.
    // cargo instead: #[inline(never)]
    #[inline(always)]
    fn continue_near_end<P: CountedPerform<G>, G: Granularity, const MAY_STOP: bool>(
        &mut self,
        reader: &mut Reader,
        performer: &mut P,
        input: Input<'_>,
        from: usize,
        opened: OpenCharacter,
    ) -> usize
        requires within { from ≤ length input.bytes.now }
        requires some_open { bytes_of opened ≢ [] }
        ensures completes { Completes
            (chunk_call MAY_STOP P.step P.is_terminated B.limit input.entry.bytes.now)
            (P.value_of performer.old) (P.value_of performer.new) from result opened self.new }
        ensures spends { SpendsWithin (per_byte 2) (caller_looks 0) (lookahead 2)
            input.entry.bytes.now from result self.old self.new reader.old reader.new }
    {
        self.continue_character::<P, G, MAY_STOP>(reader, performer, input, from, opened)
    }

    /// Reads the bytes that continue an open character. A byte that breaks it is left unread,
    /// and U+FFFD is printed for those before it.
    #[inline(always)]
    pub(crate) fn continue_character<P: CountedPerform<G>, G: Granularity, const MAY_STOP: bool>(
        &mut self,
        reader: &mut Reader,
        performer: &mut P,
        input: Input<'_>,
        from: usize,
        opened: OpenCharacter,
    ) -> usize
        requires within { from ≤ length input.bytes.now }
        requires some_open { bytes_of opened ≢ [] }
        ensures completes { Completes
            (chunk_call MAY_STOP P.step P.is_terminated B.limit input.entry.bytes.now)
            (P.value_of performer.old) (P.value_of performer.new) from result opened self.new }
        ensures spends { SpendsWithin (per_byte 2) (caller_looks 0) (lookahead 2)
            input.entry.bytes.now from result self.old self.new reader.old reader.new }
    {
        let mut still_open = opened;
        for position in from..input.len() {
            match still_open.extend(reader.byte_at(input, position)) {
                Extension::Truncated(more) => still_open = more,
                Extension::WellFormed(c) => {
                    reader.report_character(performer, c);
                    self.state = State::Text(OpenCharacter::Empty);
                    return position + 1;
                }
                Extension::Malformed => {
                    performer.print_char(reader, char::REPLACEMENT_CHARACTER);
                    self.state = State::Text(OpenCharacter::Empty);
                    return position;
                }
            }
        }
        self.state = State::Text(still_open);
        input.len()
    }
}
