//! A parser as plain data, for callers that can hold nothing else.
ghost use Rattle.std.specs.Prelude.{length, List, take, ℕ, [], ◌≡◌, ◌≤◌};
ghost use Rattle.vte_core.specs.declared.parser.State.{State};
ghost use Rattle.vte_core.specs.Parser.{HasRead};
ghost use Rattle.vte_core.specs.private.SavedLayout.{state_bytes};
ghost use Rattle.vte_core.specs.Saved.{HasReadSaved, IsZero};

use crate::head::{HeadProgress, MAX_INTERMEDIATES};
use crate::params::{MAX_NUMBERS, Params};
use crate::parser::{MAX_OSC_RAW, OpenCharacter, Parser, State};
use crate::store::MAX_PIECES;
use arrayvec::ArrayVec;

/// A parser as plain data, laid out as a C struct. All zeros is a new parser, and any other bytes
/// are some parser.
#[repr(C)]
#[derive(Clone, Copy)]
// cargo: #[derive(Debug)]
pub struct Saved {
    /// How many intermediates are collected of a sequence.
    intermediate_count: usize,
    /// These intermediates, at the front.
    intermediates: [u8; MAX_INTERMEDIATES],
    /// How many groups its parameters have.
    group_count: usize,
    /// The lengths of the groups.
    lengths: [u8; MAX_NUMBERS],
    /// How many numbers all groups have together.
    number_count: usize,
    /// The numbers of all groups, one after another.
    numbers: [u16; MAX_NUMBERS],
    /// The number that is being read.
    number: u16,
    /// Whether it follows a colon: 0 is false.
    joined: u8,
    /// Whether there were more intermediates.
    too_many_intermediates: u8,
    /// How many data bytes are kept of an operating system command.
    byte_count: usize,
    /// These bytes.
    bytes: [u8; MAX_OSC_RAW],
    /// How many ends of pieces are kept of the command.
    end_count: usize,
    /// These ends, as positions in the bytes.
    ends: [usize; MAX_PIECES],
    /// Whether data bytes of the command were lost.
    lost: u8,
    /// The number of the state, and the bytes of an open character.
    state: [u8; 4],
}

/// Copies elements to the front of an array, and returns how many there are.
fn copy_to_front<T: Copy>(elements: &[T], array: &mut [T]) -> usize
    requires { length elements.now ≤ length array.old }
    ensures { take result array.new ≡ elements.now }
{
    array[..elements.len()].copy_from_slice(elements);
    elements.len()
}

/// Returns the first elements of an array: `count` of them, or all if there are fewer.
fn first_elements<T: Copy>(array: &[T], count: usize) -> &[T]
    ensures elements { result.now ≡ take count array.now }
    ensures fits { length result.now ≤ length array.now }
{
    &array[..count.min(array.len())]
}

/// Collects the first elements of an array.
// cargo instead: fn collect_front<T: Element, const N: usize>(
fn collect_front<T: Copy + Default + Drop, const N: usize>(
    array: &[T; N],
    count: usize,
) -> ArrayVec<T, N>
    ensures { result.items ≡ take count array.now }
{
    let mut collected = ArrayVec::from(*array);
    collected.truncate(count);
    collected
}

/// Returns the number of a state, and the bytes of an open character.
fn encode_state(state: State) -> [u8; 4]
    ensures { result ≡ state_bytes state }
{
    match state {
        State::Text(OpenCharacter::Empty) => [0, 0, 0, 0],
        State::Text(OpenCharacter::One(first)) => [1, first, 0, 0],
        State::Text(OpenCharacter::Two(first, second)) => [2, first, second, 0],
        State::Text(OpenCharacter::Three(first, second, third)) => [3, first, second, third],
        State::Escape => [4, 0, 0, 0],
        State::EscapeIntermediate => [5, 0, 0, 0],
        State::ControlSequence(HeadProgress::Entry) => [6, 0, 0, 0],
        State::ControlSequence(HeadProgress::Parameters) => [7, 0, 0, 0],
        State::ControlSequence(HeadProgress::Intermediates) => [8, 0, 0, 0],
        State::ControlSequence(HeadProgress::IllShaped) => [9, 0, 0, 0],
        State::DeviceControl(HeadProgress::Entry) => [10, 0, 0, 0],
        State::DeviceControl(HeadProgress::Parameters) => [11, 0, 0, 0],
        State::DeviceControl(HeadProgress::Intermediates) => [12, 0, 0, 0],
        State::DeviceControl(HeadProgress::IllShaped) => [13, 0, 0, 0],
        State::DeviceData => [14, 0, 0, 0],
        State::SystemCommand => [15, 0, 0, 0],
        State::IgnoredString => [16, 0, 0, 0],
    }
}

/// Returns the state with this number. Each number above 16 also stands for an ignored string.
fn decode_state(saved: [u8; 4]) -> State
    ensures { (state : State) → saved ≡ state_bytes state → result ≡ state }
{
    let [number, first, second, third] = saved;
    match number {
        0 => State::Text(OpenCharacter::Empty),
        1 => State::Text(OpenCharacter::One(first)),
        2 => State::Text(OpenCharacter::Two(first, second)),
        3 => State::Text(OpenCharacter::Three(first, second, third)),
        4 => State::Escape,
        5 => State::EscapeIntermediate,
        6 => State::ControlSequence(HeadProgress::Entry),
        7 => State::ControlSequence(HeadProgress::Parameters),
        8 => State::ControlSequence(HeadProgress::Intermediates),
        9 => State::ControlSequence(HeadProgress::IllShaped),
        10 => State::DeviceControl(HeadProgress::Entry),
        11 => State::DeviceControl(HeadProgress::Parameters),
        12 => State::DeviceControl(HeadProgress::Intermediates),
        13 => State::DeviceControl(HeadProgress::IllShaped),
        14 => State::DeviceData,
        15 => State::SystemCommand,
        _ => State::IgnoredString,
    }
}

impl Saved {
    /// Returns a new parser: all zeros.
    #[allow(clippy::new_without_default)]
    pub fn new() -> Self
        ensures zeros { IsZero result }
        ensures reads { HasReadSaved result [] }
    {
        Saved {
            intermediate_count: 0,
            intermediates: [0; MAX_INTERMEDIATES],
            group_count: 0,
            lengths: [0; MAX_NUMBERS],
            number_count: 0,
            numbers: [0; MAX_NUMBERS],
            number: 0,
            joined: 0,
            too_many_intermediates: 0,
            byte_count: 0,
            bytes: [0; MAX_OSC_RAW],
            end_count: 0,
            ends: [0; MAX_PIECES],
            lost: 0,
            state: [0; 4],
        }
    }
}

impl Parser<MAX_OSC_RAW> {
    /// Saves the parser as plain data, but not whether a command that has ended lost data.
    #[doc(hidden)]
    // cargo: #[inline]
    pub fn save(&self, saved: &mut Saved)
        // What was saved has read what the parser has.
        ensures { (stream : List ℕ) → HasRead self.now stream → HasReadSaved saved.new stream }
    {
        // Most calls end between characters of a text, where nothing else counts.
        if let State::Text(OpenCharacter::Empty) = self.machine.state {
            saved.state = [0; 4];
        } else {
            self.save_open(saved);
        }
    }

    /// Saves a parser in which something may be open.
    #[inline(never)]
    fn save_open(&self, saved: &mut Saved)
        ensures { (stream : List ℕ) → HasRead self.now stream → HasReadSaved saved.new stream }
    {
        let machine = &self.machine;
        // Numbers and commands of earlier sequences don't count.
        match machine.state {
            State::ControlSequence(_) | State::DeviceControl(_) => {
                let (lengths, numbers) = machine.collected.params.raw_parts();
                saved.group_count = copy_to_front(lengths, &mut saved.lengths);
                saved.number_count = copy_to_front(numbers, &mut saved.numbers);
            }
            State::SystemCommand => {
                let (bytes, ends, lost) = machine.command.raw_parts();
                saved.byte_count = copy_to_front(bytes, &mut saved.bytes);
                saved.end_count = copy_to_front(ends, &mut saved.ends);
                saved.lost = u8::from(lost);
            }
            _ => {}
        }
        saved.state = encode_state(machine.state);
        let collected = &machine.collected;
        let intermediates = collected.intermediates.as_slice();
        saved.intermediate_count = copy_to_front(intermediates, &mut saved.intermediates);
        saved.too_many_intermediates = u8::from(collected.too_many_intermediates);
        saved.number = collected.number;
        saved.joined = u8::from(collected.joined);
    }

    /// Becomes the parser that was saved.
    #[doc(hidden)]
    // cargo: #[inline]
    pub fn restore(&mut self, saved: &Saved)
        // The parser has read what was saved.
        ensures { (stream : List ℕ) → HasReadSaved saved.now stream → HasRead self.new stream }
    {
        if saved.state[0] == 0 {
            self.machine.state = State::Text(OpenCharacter::Empty);
        } else {
            self.restore_open(saved);
        }
    }

    /// Becomes the parser that was saved, in which something may be open.
    #[inline(never)]
    fn restore_open(&mut self, saved: &Saved)
        ensures { (stream : List ℕ) → HasReadSaved saved.now stream → HasRead self.new stream }
    {
        let machine = &mut self.machine;
        machine.state = decode_state(saved.state);
        match machine.state {
            State::ControlSequence(_) | State::DeviceControl(_) => {
                machine.collected.params = Params::from_raw_parts(
                    collect_front(&saved.lengths, saved.group_count),
                    collect_front(&saved.numbers, saved.number_count),
                );
            }
            State::SystemCommand => {
                let bytes = first_elements(&saved.bytes, saved.byte_count);
                let ends = first_elements(&saved.ends, saved.end_count);
                machine.command.restore(bytes, ends, saved.lost != 0);
            }
            _ => {}
        }
        let collected = &mut machine.collected;
        collected.intermediates = collect_front(&saved.intermediates, saved.intermediate_count);
        collected.too_many_intermediates = saved.too_many_intermediates != 0;
        collected.number = saved.number;
        collected.joined = saved.joined != 0;
    }
}
