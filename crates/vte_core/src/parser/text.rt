//! Text: characters, runs of them, and malformed sequences.
ghost use Rattle.std.specs.Prelude.{false, IfSome, length, None, slice_index, true, ◌*◌, ◌+◌, ◌<◌, ◌≡◌, ◌≤◌};
ghost use Rattle.vte_core.specs.private.Prelude.{Advances, AnyEvents, caller_looks, chunk_call, Empty, escape, IsLead, IsPrintedAscii, looks_of, MayReadAt, MayReadByte, NoCharacterStops, per_byte, PrintsRun, ReadsWithin, Text};

use crate::buffer::Buffer;
use crate::class::ESCAPE;
use crate::parser::Machine;
use crate::reader::{CountedPerform, Granularity, Input, Reader};
use crate::utf8::{is_lead, is_printed_ascii};

/// How many bytes of a text are read before it is searched for ESC. Most texts are shorter, and
/// cost no search.
const SHORT_TEXT: usize = 128;

/// The end of a run of ASCII, and the byte there if it was read and isn't printed ASCII.
#[derive(Clone, Copy)]
struct AsciiEnd {
    end: usize,
    next_byte: Option<u8>,
}

/// Prints the run of ASCII at a position. If it is short, only its first byte is printed.
#[inline(always)]
// cargo: #[allow(unsafe_code)]
fn print_ascii_run<P: CountedPerform<G>, G: Granularity>(
    reader: &mut Reader,
    performer: &mut P,
    input: Input<'_>,
    from: usize,
    first: u8,
) -> AsciiEnd
    requires in_runs { G.IN_RUNS ≡ true }
    requires before_end { from < length input.bytes.now }
    requires looked_at { first ≡ slice_index input.bytes.now from }
    requires printed { IsPrintedAscii first }
    ensures prints { PrintsRun P.layout P.step (P.value_of performer.old)
        (P.value_of performer.new) input.entry.bytes.now from result.end }
    ensures next_is { IfSome result.next_byte (λ byte. (result.end < length input.entry.bytes.now)
        × (byte ≡ slice_index input.entry.bytes.now result.end)) }
    ensures next_not_printed { IfSome result.next_byte (λ byte. IsPrintedAscii byte → ⊥) }
    ensures reads_some { from < result.end }
    ensures within { result.end ≤ length input.entry.bytes.now }
    ensures looks_at_most { looks_of reader.new + 5 * from + 1
        ≤ looks_of reader.old + 5 * result.end }
    ensures looks_at_least { looks_of reader.old + result.end ≤ looks_of reader.new + from }
{
    let next_byte = reader.get_byte(input, from + 1);
    if reader.begins_ascii_run(input, from, next_byte) {
        let end = reader.find_ascii_run_end(performer, input, from);
        // cargo: // SAFETY: ASCII is at `from`, and the search passes whole characters.
        reader.report_text(performer, input, from, end);
        return AsciiEnd {
            end,
            next_byte: None,
        };
    }
    performer.print_char(reader, char::from(first));
    let end = from + 1;
    match next_byte {
        Some(byte) if !is_printed_ascii(byte) => AsciiEnd { end, next_byte },
        _ => AsciiEnd {
            end,
            next_byte: None,
        },
    }
}

impl<B: Buffer> Machine<B> {
    /// Reads text up to an ESC, and then the bytes after that. Each granularity has a loop of its
    /// own, because shared code took more instructions.
    #[inline(always)]
    pub(crate) fn read_text<P: CountedPerform<G>, G: Granularity, const MAY_STOP: bool>(
        &mut self,
        reader: &mut Reader,
        performer: &mut P,
        input: Input<'_>,
        from: usize,
    ) -> usize
        requires may_read { MayReadAt
            (chunk_call MAY_STOP P.step P.is_terminated B.limit input.bytes.now)
            (P.value_of performer.old) (Text Empty) self.old from }
        requires no_stop { G.IN_RUNS ≡ true → MAY_STOP ≡ true
            → NoCharacterStops P.layout P.step P.is_terminated }
        ensures advances { Advances AnyEvents
            (chunk_call MAY_STOP P.step P.is_terminated B.limit input.entry.bytes.now)
            (P.value_of performer.old) (P.value_of performer.new) from result self.old self.new }
        ensures reads_within { ReadsWithin (per_byte 5) (caller_looks 0)
            input.entry.bytes.now from result self.old self.new reader.old reader.new }
    {
        if G::IN_RUNS {
            self.read_runs::<P, G, MAY_STOP>(reader, performer, input, from)
        } else if MAY_STOP {
            self.read_until_stop(reader, performer, input, from)
        } else {
            self.read_characters(reader, performer, input, from)
        }
    }

    /// Reads text for a performer that receives runs. It is read by words, which find an ESC too.
    // cargo: #[inline]
    fn read_runs<P: CountedPerform<G>, G: Granularity, const MAY_STOP: bool>(
        &mut self,
        reader: &mut Reader,
        performer: &mut P,
        input: Input<'_>,
        from: usize,
    ) -> usize
        requires in_runs { G.IN_RUNS ≡ true }
        requires may_read { MayReadAt
            (chunk_call MAY_STOP P.step P.is_terminated B.limit input.bytes.now)
            (P.value_of performer.old) (Text Empty) self.old from }
        requires no_stop { MAY_STOP ≡ true → NoCharacterStops P.layout P.step P.is_terminated }
        ensures advances { Advances AnyEvents
            (chunk_call MAY_STOP P.step P.is_terminated B.limit input.entry.bytes.now)
            (P.value_of performer.old) (P.value_of performer.new) from result self.old self.new }
        ensures reads_within { ReadsWithin (per_byte 5) (caller_looks 0)
            input.entry.bytes.now from result self.old self.new reader.old reader.new }
    {
        let mut position = from;
        while position < input.len() {
            let mut byte = reader.byte_at(input, position);
            if is_printed_ascii(byte) {
                let run = print_ascii_run(reader, performer, input, position, byte);
                position = run.end;
                match run.next_byte {
                    Some(next_byte) => byte = next_byte,
                    None => continue,
                }
            }
            // One comparison tells lead bytes and malformed ones from ESC and controls.
            if byte < 0xa0 {
                if byte == ESCAPE {
                    return self.read_escape_in_text::<P, G, MAY_STOP>(
                        reader, performer, input, position,
                    );
                }
                reader.report_lone_byte(performer, byte);
                position += 1;
            } else if is_lead(byte) {
                position = self.read_run_at_lead::<P, G, MAY_STOP>(
                    reader, performer, input, position, byte,
                );
            } else {
                // Printed U+FFFD can't stop the call. The branches above may have executed a
                // control, such as C2 85, so they ask.
                // proof: `NoCharacterStops` says so of every character.
                reader.report_lone_byte(performer, byte);
                position += 1;
                continue;
            }
            if MAY_STOP && performer.terminated() {
                return position;
            }
        }
        position
    }

    /// Reads text character by character, for a call that may stop after each.
    // cargo: #[inline]
    fn read_until_stop<P: CountedPerform<G>, G: Granularity>(
        &mut self,
        reader: &mut Reader,
        performer: &mut P,
        input: Input<'_>,
        from: usize,
    ) -> usize
        requires by_character { G.IN_RUNS ≡ false }
        requires may_read { MayReadAt
            (chunk_call true P.step P.is_terminated B.limit input.bytes.now)
            (P.value_of performer.old) (Text Empty) self.old from }
        ensures advances { Advances AnyEvents
            (chunk_call true P.step P.is_terminated B.limit input.entry.bytes.now)
            (P.value_of performer.old) (P.value_of performer.new) from result self.old self.new }
        ensures reads_within { ReadsWithin (per_byte 5) (caller_looks 0)
            input.entry.bytes.now from result self.old self.new reader.old reader.new }
    {
        let mut position = from;
        // The length of `prefix` bounds the position, so that the inner loop has no test of the
        // index. As a function of its own, it would return a position and why it ended.
        let mut prefix = input.take_prefix((from + SHORT_TEXT).min(input.len()));
        while position < input.len() {
            while position < prefix.len() {
                let byte = reader.byte_at(prefix, position);
                if is_printed_ascii(byte) {
                    performer.print_char(reader, char::from(byte));
                } else if is_lead(byte) {
                    position = self.read_character::<P, G, true>(
                        reader, performer, input, position, byte,
                    );
                    // The performer is asked here too, which takes fewer instructions.
                    if performer.terminated() {
                        return position;
                    }
                    continue;
                } else if byte == ESCAPE {
                    return self.read_escape_in_text::<P, G, true>(
                        reader, performer, input, position,
                    );
                } else {
                    reader.report_lone_byte(performer, byte);
                }
                position += 1;
                if performer.terminated() {
                    return position;
                }
            }
            if position < input.len() {
                prefix = input.take_prefix(reader.find_text_part_end::<true>(
                    input, from, position,
                ));
            }
        }
        position
    }

    /// Reads text character by character, for a call that can't stop.
    // Each round reads the byte of the next one: 0.87 of the instructions for ASCII. In a call that
    // may stop, this takes more.
    #[inline(always)]
    fn read_characters<P: CountedPerform<G>, G: Granularity>(
        &mut self,
        reader: &mut Reader,
        performer: &mut P,
        input: Input<'_>,
        from: usize,
    ) -> usize
        requires by_character { G.IN_RUNS ≡ false }
        requires may_read { MayReadAt
            (chunk_call false P.step P.is_terminated B.limit input.bytes.now)
            (P.value_of performer.old) (Text Empty) self.old from }
        ensures advances { Advances AnyEvents
            (chunk_call false P.step P.is_terminated B.limit input.entry.bytes.now)
            (P.value_of performer.old) (P.value_of performer.new) from result self.old self.new }
        ensures reads_within { ReadsWithin (per_byte 5) (caller_looks 0)
            input.entry.bytes.now from result self.old self.new reader.old reader.new }
    {
        let mut position = from;
        let mut prefix = input.take_prefix((from + SHORT_TEXT).min(input.len()));
        let mut byte = reader.byte_at(input, from);
        while let Some(next) = self.read_byte_of_text(reader, performer, input, position, byte) {
            position = next;
            if position < prefix.len() {
                byte = reader.byte_at(prefix, position);
            } else if position < input.len() {
                prefix = input.take_prefix(reader.find_text_part_end::<false>(
                    input, from, position,
                ));
                byte = reader.byte_at(input, position);
            } else {
                return position;
            }
        }
        self.read_escape_in_text::<P, G, false>(reader, performer, input, position)
    }

    /// Reads the character, malformed sequence or control that begins with a byte of text. Returns
    /// its end, or `None` if the byte is ESC, which is left unread.
    #[inline(always)]
    fn read_byte_of_text<P: CountedPerform<G>, G: Granularity>(
        &mut self,
        reader: &mut Reader,
        performer: &mut P,
        input: Input<'_>,
        from: usize,
        first: u8,
    ) -> Option<usize>
        requires by_character { G.IN_RUNS ≡ false }
        requires may_read { MayReadByte
            (chunk_call false P.step P.is_terminated B.limit input.bytes.now)
            (P.value_of performer.old) (Text Empty) self.old from first }
        ensures escape { result ≡ None → first ≡ escape }
        ensures unread { result ≡ None → (self.new ≡ self.old)
            × (P.value_of performer.new ≡ P.value_of performer.old)
            × (looks_of reader.new ≡ looks_of reader.old) }
        ensures advances { IfSome result (λ end. Advances AnyEvents
            (chunk_call false P.step P.is_terminated B.limit input.entry.bytes.now)
            (P.value_of performer.old) (P.value_of performer.new) from end self.old self.new) }
        ensures in_text { IfSome result (λ end. end < length input.entry.bytes.now
            → self.new.state ≡ Text Empty) }
        ensures reads_within { IfSome result (λ end. ReadsWithin (per_byte 3) (caller_looks 1)
            input.entry.bytes.now from end self.old self.new reader.old reader.new) }
    {
        if is_printed_ascii(first) {
            performer.print_char(reader, char::from(first));
        } else if is_lead(first) {
            let end = self.read_character::<P, G, false>(reader, performer, input, from, first);
            return Some(end);
        } else if first >= 0xa0 {
            // These are tested before ESC, which takes fewer instructions.
            reader.report_lone_byte(performer, first);
        } else if first == ESCAPE {
            return None;
        } else {
            reader.report_lone_byte(performer, first);
        }
        Some(from + 1)
    }

    /// Reads the run, character or malformed sequence that begins with a lead byte, for a performer
    /// that receives runs.
    #[inline(always)]
    // cargo: #[allow(unsafe_code)]
    fn read_run_at_lead<P: CountedPerform<G>, G: Granularity, const MAY_STOP: bool>(
        &mut self,
        reader: &mut Reader,
        performer: &mut P,
        input: Input<'_>,
        from: usize,
        first: u8,
    ) -> usize
        requires in_runs { G.IN_RUNS ≡ true }
        requires may_read { MayReadByte
            (chunk_call MAY_STOP P.step P.is_terminated B.limit input.bytes.now)
            (P.value_of performer.old) (Text Empty) self.old from first }
        requires lead { IsLead first }
        requires no_stop { MAY_STOP ≡ true → NoCharacterStops P.layout P.step P.is_terminated }
        ensures advances { Advances AnyEvents
            (chunk_call MAY_STOP P.step P.is_terminated B.limit input.entry.bytes.now)
            (P.value_of performer.old) (P.value_of performer.new) from result self.old self.new }
        ensures in_text { result < length input.entry.bytes.now → self.new.state ≡ Text Empty }
        ensures reads_within { ReadsWithin (per_byte 5) (caller_looks 1)
            input.entry.bytes.now from result self.old self.new reader.old reader.new }
    {
        let end = reader.find_run_end_at_lead(performer, input, from, first);
        if end > from {
            // cargo: // SAFETY: the search has passed the character at `from`, and passes whole
            // cargo: // characters.
            reader.report_text(performer, input, from, end);
            return end;
        }
        self.read_character::<P, G, MAY_STOP>(reader, performer, input, from, first)
    }
}
