//! Reads the bytes of a call, and reports events. Contracts count both as *looks*.
//!
//! Other modules read bytes only by functions of this one. A function of the parser that takes a
//! byte and its position doesn't read that byte again: its caller has read it.
// proof: The module counts the bytes that it loads and the events that it reports, for contracts
// alone. Each form of `advance` makes a [`Chunk`] of its bytes, and passes nothing else on. The one
// [`Reader`] of a chunk is the only way to the bytes of its [`Input`], and a [`CountedPerform`]
// receives events with a reader alone. No other module can make one of these. Bytes leave this
// module one by one, in blocks, as a copy in a buffer, or as text or data: for a performer, or in a
// [`Run`] for the caller.
ghost use Rattle.std.specs.Prelude.{drop, false, IsUtf8, length, map, MatchOption, slice_index, take, true, vec_capacity, ℕ, [], ◌++◌, ◌+◌, ◌-◌, ◌<◌, ◌∷◌, ◌≡◌, ◌≢◌, ◌≤◌};
ghost use Rattle.vte_core.specs.private.Prelude.{after, AreOfKind, ArePositions, ArePut, character_event, escape, FindsEnd, is_in, IsRun, IsTaken, IsWindow, looks_of, malformed_event, printed_ascii, PrintsRun, Put, Reports};

mod advance;
// cargo: #[cfg(any(feature = "std", feature = "ansi"))]
mod advance_long;
mod counted_perform;
mod granularity;
// cargo lacks: only contracts read it
mod looks;
mod run;
mod run_blocks;
mod run_end;
mod search;

use crate::class::ESCAPE;
use arrayvec::{ArrayVec, CapacityError};
pub(crate) use counted_perform::CountedPerform;
pub(crate) use granularity::Granularity;
pub use granularity::{ByCharacter, InRuns};
pub(crate) use looks::Looks;
use looks::Tally;
use memchr::memchr;
pub use run::{Run, Taken};
pub(crate) use run::{RunKind, RunRange};
// cargo: #[cfg(any(feature = "std", feature = "ansi"))]
// cargo instead: use crate::prelude::{AllocError, Vec};
use std::alloc::{AllocError, Allocator};
use std::snapshot::Snapshot;
use std::{mem, str};

/// The bytes of a call, which has one reader.
// cargo lacks: a slice serves
pub(crate) struct Chunk<'a> {
    bytes: &'a [u8],
}

// cargo lacks: a slice serves
impl<'a> Chunk<'a> {
    fn new(bytes: &'a [u8]) -> Self
        ensures { result.bytes.now ≡ bytes.now }
    {
        Chunk { bytes }
    }

    /// Returns the reader of the call, which has taken no looks, and its input.
    pub(crate) fn into_reader(self) -> (Reader, Input<'a>)
        ensures looks { looks_of result.0 ≡ 0 }
        ensures bytes { result.1.bytes.now ≡ self.entry.bytes.now }
    {
        let Chunk { bytes } = self;
        let reader = Reader {
            tally: Snapshot::of(&Tally::Start),
        };
        (reader, Input { bytes })
    }
}

/// Reads the bytes of a call and reports events. It takes no space at run time: only Rattle's
/// contracts need its count.
// proof: it can't be dropped: its looks are added to those of the parser.
// cargo: #[derive(Clone, Copy)]
pub(crate) struct Reader {
    // cargo lacks: only contracts read it
    tally: Snapshot<Tally>,
}

/// The bytes of a call, which only its [`Reader`] reads.
#[derive(Clone, Copy)]
// cargo lacks: a slice serves
pub(crate) struct Input<'a> {
    bytes: &'a [u8],
}

/// Sixteen bytes (`current`), and those one, two and three places before each of them.
#[derive(Drop)]
pub(crate) struct Window {
    pub(crate) three_back: [u8; 16],
    pub(crate) two_back: [u8; 16],
    pub(crate) one_back: [u8; 16],
    pub(crate) current: [u8; 16],
}

// cargo: /// Returns the bytes up to a position.
// cargo: #[inline(always)]
// cargo: pub(crate) fn take_prefix(input: &[u8], to: usize) -> &[u8] {
// cargo:     &input[..to]
// cargo: }

// cargo lacks: a slice serves
impl<'a> Input<'a> {
    pub(crate) fn len(self) -> usize
        ensures { result ≡ length self.entry.bytes.now }
    {
        self.bytes.len()
    }

    /// Returns the bytes up to a position.
    #[inline(always)]
    pub(crate) fn take_prefix(self, to: usize) -> Self
        requires { to ≤ length self.bytes.now }
        ensures length { length result.bytes.now ≡ to }
        ensures same_bytes { (k : ℕ) → k < to
            → slice_index result.bytes.now k ≡ slice_index self.entry.bytes.now k }
    {
        Input {
            bytes: &self.bytes[..to],
        }
    }
}

/// Returns the text from one position to another.
///
/// # Safety
///
/// The bytes between the positions must be whole characters. They are if a search for the end of a
/// run ended at `to`, and started at `from` or after whole characters that begin at `from`. Such a
/// search passes whole characters: a byte of ASCII, or a lead byte with all its continuation bytes,
/// the first of which `may_begin_three` and `may_begin_four` test. It also passes blocks whose
/// bytes all fit, as `may_follow` tests. If a block ends inside a character, the search goes back
/// to the start of that character.
#[inline(always)]
#[allow(unsafe_code)]
// cargo instead: pub(crate) unsafe fn text_between(bytes: &[u8], from: usize, to: usize) -> &str
fn text_between(bytes: &[u8], from: usize, to: usize) -> &str
    requires range { ArePositions bytes.now from to }
    requires utf8 { IsUtf8 (take (to - from) (drop from bytes.now)) }
    ensures { result.now ≡ take (to - from) (drop from bytes.now) }
{
    let bytes = &bytes[from..to];
    // cargo: debug_assert!(str::from_utf8(bytes).is_ok());
    // SAFETY: this is what the caller promises.
    unsafe { str::from_utf8_unchecked(bytes) }
}

/// Returns the data from one position to another.
#[inline(always)]
fn data_between(bytes: &[u8], from: usize, to: usize) -> &[u8]
    requires range { ArePositions bytes.now from to }
    ensures { result.now ≡ take (to - from) (drop from bytes.now) }
{
    &bytes[from..to]
}

/// Returns the run in a range of the bytes.
///
/// # Safety
///
/// The bytes of a run of text must be whole characters, as [`text_between`] says.
// cargo: #[allow(unsafe_code)]
// cargo instead: unsafe fn take_run(bytes: &[u8], range: RunRange) -> Run<'_>
fn take_run(bytes: &[u8], range: RunRange) -> Run<'_>
    requires range { ArePositions bytes.now range.start range.end }
    requires kind { AreOfKind range.kind
        (take (range.end - range.start) (drop range.start bytes.now)) }
    ensures start { result.start ≡ range.start }
    ensures end { result.end ≡ range.end }
    ensures taken { IsTaken range.kind
        (take (range.end - range.start) (drop range.start bytes.now)) result.taken }
{
    let taken = match range.kind {
        // cargo: // SAFETY: this is what the caller promises.
        RunKind::Text => Taken::Text(text_between(bytes, range.start, range.end)),
        RunKind::Data => Taken::Data(data_between(bytes, range.start, range.end)),
        RunKind::Nothing => Taken::Nothing,
    };
    Run {
        start: range.start,
        end: range.end,
        taken,
    }
}

impl Reader {
    /// Adds to the count, which only contracts read.
    fn count_looks(&mut self, count: usize)
        ensures { looks_of self.new ≡ looks_of self.old + count }
    {
        // cargo instead: let _ = count;
        let before = mem::replace(&mut self.tally, Snapshot::of(&Tally::Start));
        // cargo lacks: only contracts read it
        self.tally = Snapshot::of(&Tally::Then(before, count));
    }

    /// Returns the byte at an index.
    pub(crate) fn byte_at(&mut self, input: Input<'_>, index: usize) -> u8
        requires { index < length input.bytes.now }
        ensures value { result ≡ slice_index input.entry.bytes.now index }
        ensures looks { looks_of self.new ≡ looks_of self.old + 1 }
    {
        self.count_looks(1);
        input.bytes[index]
    }

    /// Returns the byte at an index, or `None` past the end.
    #[inline(always)]
    pub(crate) fn get_byte(&mut self, input: Input<'_>, index: usize) -> Option<u8>
        ensures { MatchOption result
            ((length input.entry.bytes.now ≤ index)
            × (looks_of self.new ≡ looks_of self.old)) (λ byte.
            (index < length input.entry.bytes.now)
            × (byte ≡ slice_index input.entry.bytes.now index)
            × (looks_of self.new ≡ looks_of self.old + 1)) }
    {
        let byte = *input.bytes.get(index)?;
        self.count_looks(1);
        Some(byte)
    }

    /// Returns a copy of the `N` bytes from a position on, or `None` if there are fewer.
    #[inline(always)]
    pub(crate) fn get_block<const N: usize>(
        &mut self,
        input: Input<'_>,
        from: usize,
    ) -> Option<[u8; N]>
        requires { from ≤ length input.bytes.now }
        ensures { MatchOption result (looks_of self.new ≡ looks_of self.old)
            (λ block. (from + N ≤ length input.entry.bytes.now)
            × (block ≡ take N (drop from input.entry.bytes.now))
            × (looks_of self.new ≡ looks_of self.old + N)) }
    {
        let block = *input.bytes[from..].first_chunk::<N>()?;
        self.count_looks(N);
        Some(block)
    }

    /// Returns the 19 bytes from a position on, or `None` if there are fewer. Each array is loaded
    /// from the input, because loads from a copy would span two stores and wait for both.
    #[inline(always)]
    pub(crate) fn get_window(&mut self, input: Input<'_>, from: usize) -> Option<Window>
        requires { from ≤ length input.bytes.now }
        ensures { MatchOption result (looks_of self.new ≡ looks_of self.old)
            (λ window. IsWindow input.entry.bytes.now from window
            × (looks_of self.new ≡ looks_of self.old + 19)) }
    {
        let bytes = input.bytes[from..].first_chunk::<19>()?;
        let window = Window {
            three_back: *bytes.first_chunk::<16>()?,
            two_back: *bytes[1..].first_chunk::<16>()?,
            one_back: *bytes[2..].first_chunk::<16>()?,
            current: *bytes[3..].first_chunk::<16>()?,
        };
        self.count_looks(19);
        Some(window)
    }

    /// Returns the position of the first ESC from a position on, or the length if there is none.
    pub(crate) fn find_escape(&mut self, input: Input<'_>, from: usize) -> usize
        requires { from ≤ length input.bytes.now }
        ensures { FindsEnd
            (λ byte. byte ≢ escape) input.entry.bytes.now from result self.old self.new }
    {
        let rest = &input.bytes[from..];
        match memchr(ESCAPE, rest) {
            Some(distance) => {
                self.count_looks(distance + 1);
                from + distance
            }
            None => {
                self.count_looks(rest.len());
                input.bytes.len()
            }
        }
    }

    /// Reports a whole character.
    #[inline(always)]
    #[tactic(auto, unfolding(crate::specs::Text::character_event))]
    pub(crate) fn report_character<P: CountedPerform<G>, G: Granularity>(
        &mut self,
        performer: &mut P,
        c: char,
    )
        ensures { Reports P.step (P.value_of performer.old) (P.value_of performer.new)
            (character_event c) self.old self.new }
    {
        match c {
            '\u{0}'..='\u{1f}' | '\u{80}'..='\u{9f}' => performer.execute_control(self, c as u8),
            _ => performer.print_char(self, c),
        }
    }

    /// Reports a byte that is neither printed nor a lead byte: it is a control, or malformed by
    /// itself.
    #[inline(always)]
    #[tactic(auto, unfolding(crate::specs::Text::character_event, crate::specs::Text::malformed_event))]
    pub(crate) fn report_lone_byte<P: CountedPerform<G>, G: Granularity>(
        &mut self,
        performer: &mut P,
        byte: u8,
    )
        requires { is_in printed_ascii byte ≡ false }
        ensures control { byte < 0x80
            → P.value_of performer.new ≡ P.step (P.value_of performer.old) (character_event byte) }
        ensures malformed { 0x80 ≤ byte
            → P.value_of performer.new
            ≡ P.step (P.value_of performer.old) (malformed_event (byte ∷ [])) }
        ensures looks { looks_of self.new ≡ looks_of self.old + 1 }
    {
        match byte {
            0x00..=0x1f | 0x80..=0x9f => performer.execute_control(self, byte),
            _ => performer.print_char(self, char::REPLACEMENT_CHARACTER),
        }
    }

    // cargo lacks: the crate calls `print_text`
    /// Reports the run of text from one position to another, and counts its bytes.
    #[inline(always)]
    pub(crate) fn report_text<P: CountedPerform<G>, G: Granularity>(
        &mut self,
        performer: &mut P,
        input: Input<'_>,
        from: usize,
        to: usize,
    )
        requires in_runs { G.IN_RUNS ≡ true }
        requires not_empty { from < to }
        requires within { to ≤ length input.bytes.now }
        requires run { IsRun P.layout input.bytes.now from to }
        ensures printed { PrintsRun P.layout P.step (P.value_of performer.old)
            (P.value_of performer.new) input.entry.bytes.now from to }
        ensures looks { looks_of self.new + from ≡ looks_of self.old + to }
    {
        performer.print_text(self, text_between(input.bytes, from, to));
    }

    /// Reports the data from one position to another.
    #[inline(always)]
    pub(crate) fn report_data<P: CountedPerform<G>, G: Granularity>(
        &mut self,
        performer: &mut P,
        input: Input<'_>,
        from: usize,
        to: usize,
    )
        requires in_runs { G.IN_RUNS ≡ true }
        requires not_empty { from < to }
        requires within { to ≤ length input.bytes.now }
        requires put { ArePut input.bytes.now from to }
        ensures put { P.value_of performer.new
            ≡ after P.step (P.value_of performer.old)
            (map Put (take (to - from) (drop from input.entry.bytes.now))) }
        ensures looks { looks_of self.new + from ≡ looks_of self.old + to }
    {
        performer.put_slice(self, data_between(input.bytes, from, to));
    }

    /// Appends the bytes from one position to another to an array that has room for them.
    pub(crate) fn copy_to_array<const N: usize>(
        &mut self,
        input: Input<'_>,
        from: usize,
        to: usize,
        array: &mut ArrayVec<u8, N>,
    ) -> Result<(), CapacityError>
        requires range { ArePositions input.bytes.now from to }
        requires has_room { length array.old.items + (to - from) ≤ N }
        ensures appended { array.new.items
            ≡ array.old.items ++ take (to - from) (drop from input.entry.bytes.now) }
        ensures looks { looks_of self.new + from ≡ looks_of self.old + to }
    {
        self.count_looks(to - from);
        array.try_extend_from_slice(&input.bytes[from..to])
    }
}

// cargo: #[cfg(any(feature = "std", feature = "ansi"))]
impl Reader {
    /// Appends the bytes from one position to another to a vector that has memory for them.
    pub(crate) fn copy_to_vec<A: Allocator>(
        &mut self,
        input: Input<'_>,
        from: usize,
        to: usize,
        vec: &mut Vec<u8, A>,
    ) -> Result<(), AllocError>
        requires range { ArePositions input.bytes.now from to }
        requires has_room { length vec.old.items + (to - from) ≤ vec_capacity vec.old }
        ensures appended { vec.new.items
            ≡ vec.old.items ++ take (to - from) (drop from input.entry.bytes.now) }
        ensures keeps_memory { vec_capacity vec.old ≤ vec_capacity vec.new }
        ensures looks { looks_of self.new + from ≡ looks_of self.old + to }
    {
        self.count_looks(to - from);
        vec.extend_from_slice(&input.bytes[from..to])
    }
}
