//! What is collected of an escape sequence, and of the head of a control sequence or a device
//! control string.
ghost use Rattle.std.specs.Prelude.{false, IfSome, IsTrue, length, List, min, not, true, ℕ, [], ◌*◌, ◌++◌, ◌+◌, ◌<◌, ◌↔◌, ◌∷◌, ◌≡◌, ◌≤◌, ◌⊎◌};
ghost use Rattle.vte_core.specs.Parameters.{greatest_number};
ghost use Rattle.vte_core.specs.private.Prelude.{class_of, CountsNumbers, HasReadHead, HoldsHead, HoldsIntermediates, HoldsNumbers, HoldsWholeHead, is_head_byte, is_parameter_byte, looks_of, ReadsHeadUpTo, SameIntermediates, SameNumbers, semicolon, with_open_number};

use crate::class::{digit_of, is_head_byte, is_intermediate, is_parameter_byte};
use crate::params::Params;
use crate::reader::{Input, Reader};
use arrayvec::ArrayVec;

/// How many intermediates of a sequence are kept, a marker among them.
pub(crate) const MAX_INTERMEDIATES: usize = 2;

/// How far a head has been read.
#[derive(Clone, Copy)]
pub(crate) enum HeadProgress {
    /// None of it.
    Entry,
    /// A marker or a parameter was last.
    Parameters,
    /// An intermediate was last.
    Intermediates,
    /// No further bytes make it well-shaped.
    IllShaped,
}

impl HeadProgress {
    /// Returns whether a digit or a separator may come next.
    pub(crate) fn may_have_parameters(self) -> bool
        ensures { IsTrue result ↔ ((self ≡ HeadProgress.Entry) ⊎ (self ≡ HeadProgress.Parameters)) }
    {
        matches!(self, HeadProgress::Entry | HeadProgress::Parameters)
    }
}

/// Whether `;` is read among the digits of numbers, or left for the caller.
#[derive(Clone, Copy)]
pub(crate) enum Separators {
    Read,
    Unread,
}

/// How far a head has been read, and up to which position. `next_byte` is the byte there, if there
/// is one.
#[derive(Clone, Copy)]
pub(crate) struct HeadEnd {
    pub(crate) progress: HeadProgress,
    pub(crate) position: usize,
    pub(crate) next_byte: Option<u8>,
}

/// What is collected of a sequence: intermediates and parameters.
#[derive(Clone, Drop)]
pub(crate) struct CollectedHead {
    /// The first two, a marker among them.
    pub(crate) intermediates: ArrayVec<u8, MAX_INTERMEDIATES>,
    /// Whether there were more.
    pub(crate) too_many_intermediates: bool,
    /// The first 32 numbers, without the one that is being read.
    pub(crate) params: Params,
    /// The number that is being read.
    pub(crate) number: u16,
    /// Whether it follows a colon.
    pub(crate) joined: bool,
}

impl CollectedHead {
    /// Creates an empty collection.
    // cargo instead: pub(crate) const fn new() -> Self
    pub(crate) fn new() -> Self
        ensures { HoldsIntermediates result [] }
    {
        CollectedHead {
            intermediates: ArrayVec::new(),
            too_many_intermediates: false,
            params: Params::new(),
            number: 0,
            joined: false,
        }
    }

    /// Removes the intermediates.
    pub(crate) fn clear_intermediates(&mut self)
        ensures { HoldsIntermediates self.new [] }
    {
        // proof: a new vector costs less there, as in `Params`.
        // cargo instead: self.intermediates.clear();
        self.intermediates = ArrayVec::new();
        self.too_many_intermediates = false;
    }

    /// Removes the numbers before a head. The ESC before it has removed the intermediates.
    pub(crate) fn clear_numbers(&mut self)
        ensures head { HoldsIntermediates self.old [] → HoldsHead self.new HeadProgress.Entry [] }
        ensures joined { self.new.joined ≡ false }
    {
        self.params.clear();
        self.number = 0;
        self.joined = false;
    }

    /// Collects an intermediate or a marker.
    pub(crate) fn collect_intermediate(&mut self, byte: u8)
        ensures holds { (intermediates : List ℕ) → HoldsIntermediates self.old intermediates
            → HoldsIntermediates self.new (intermediates ++ byte ∷ []) }
        ensures numbers { SameNumbers self.old self.new }
    {
        if self.intermediates.try_push(byte).is_err() {
            self.too_many_intermediates = true;
        }
    }

    /// Adds a number to the parameters, unless there are 32 already. Returns whether it was added.
    /// `joined` is the value of the field: a caller that knows it passes a constant, and needn't
    /// load it.
    #[inline(always)]
    fn store_number(&mut self, joined: bool, number: u16) -> bool
        requires { self.old.joined ≡ joined }
        ensures holds { (text : List ℕ) → CountsNumbers (with_open_number self.old number) text
            → HoldsNumbers self.new (not result) text }
        ensures same_intermediates { SameIntermediates self.old self.new }
        ensures joined { self.new.joined ≡ self.old.joined }
    {
        if self.params.is_full() {
            return false;
        }
        self.params.push(joined, number);
        true
    }

    /// Collects a `;` after a number that doesn't follow a colon.
    #[inline(always)]
    pub(crate) fn end_number(&mut self)
        requires { self.old.joined ≡ false }
        ensures counts { (text : List ℕ) → CountsNumbers self.old text
            → CountsNumbers self.new (text ++ semicolon ∷ []) }
        ensures same_intermediates { SameIntermediates self.old self.new }
    {
        let _ = self.store_number(false, self.number);
        self.number = 0;
    }

    /// Collects a digit or a separator.
    #[inline(always)]
    pub(crate) fn collect_parameter_byte(&mut self, byte: u8)
        requires { is_parameter_byte (class_of byte) ≡ true }
        ensures counts { (text : List ℕ) → CountsNumbers self.old text
            → CountsNumbers self.new (text ++ byte ∷ []) }
        ensures same_intermediates { SameIntermediates self.old self.new }
    {
        if let Some(digit) = digit_of(byte) {
            self.number = with_digit(u32::from(self.number), digit) as u16;
        } else {
            let _ = self.store_number(self.joined, self.number);
            self.joined = byte == b':';
            self.number = 0;
        }
    }

    /// Collects a byte of a head, or finds the head ill-shaped. Returns the new progress.
    #[inline(always)]
    fn collect_head_byte(&mut self, reached: HeadProgress, byte: u8) -> HeadProgress
        requires { is_head_byte (class_of byte) ≡ true }
        ensures { (head : List ℕ) → HasReadHead self.old reached head
            → HasReadHead self.new result (head ++ byte ∷ []) }
    {
        if is_parameter_byte(byte) && reached.may_have_parameters() {
            self.collect_parameter_byte(byte);
            return HeadProgress::Parameters;
        }
        if let HeadProgress::IllShaped = reached {
            return HeadProgress::IllShaped;
        }
        if is_intermediate(byte) {
            self.collect_intermediate(byte);
            return HeadProgress::Intermediates;
        }
        // A marker is only at the beginning.
        if let HeadProgress::Entry = reached {
            self.collect_intermediate(byte);
            return HeadProgress::Parameters;
        }
        HeadProgress::IllShaped
    }

    /// Reads the digits at a position in a head, if any, and also `;` if `separators` says so. Most
    /// heads have nothing else.
    #[inline(always)]
    pub(crate) fn read_numbers(
        &mut self,
        reader: &mut Reader,
        input: Input<'_>,
        from: usize,
        reached: HeadProgress,
        separators: Separators,
    ) -> HeadEnd
        requires within { from ≤ length input.bytes.now }
        requires may_have_parameters { reached ≡ HeadProgress.Entry
            ⊎ reached ≡ HeadProgress.Parameters }
        requires separators_only_if_not_joined { separators ≡ Separators.Read
            → self.old.joined ≡ false }
        ensures reads { ReadsHeadUpTo input.entry.bytes.now from reached result self.old self.new }
        ensures may_have_parameters { result.progress ≡ HeadProgress.Entry
            ⊎ result.progress ≡ HeadProgress.Parameters }
        ensures joined { self.new.joined ≡ self.old.joined }
        ensures looks { looks_of reader.new + from
            ≡ looks_of reader.old + min (result.position + 1) (length input.entry.bytes.now) }
    {
        // A local, because the field would be cut to 16 bits and stored at each digit.
        let mut number = u32::from(self.number);
        let mut position = from;
        let mut next_byte = None;
        while position < input.len() {
            let byte = reader.byte_at(input, position);
            if let Some(digit) = digit_of(byte) {
                number = with_digit(number, digit);
            } else if matches!(separators, Separators::Read) && byte == b';' {
                let _ = self.store_number(false, number as u16);
                number = 0;
            } else {
                next_byte = Some(byte);
                break;
            }
            position += 1;
        }
        self.number = number as u16;
        let progress = if position > from {
            HeadProgress::Parameters
        } else {
            reached
        };
        HeadEnd {
            progress,
            position,
            next_byte,
        }
    }

    /// Reads the rest of a head, which has been read as far as `reached`, up to the first byte that
    /// doesn't belong to it.
    #[inline(always)]
    pub(crate) fn read_head(
        &mut self,
        reader: &mut Reader,
        input: Input<'_>,
        from: usize,
        reached: HeadProgress,
    ) -> HeadEnd
        requires { from ≤ length input.bytes.now }
        ensures reads { ReadsHeadUpTo input.entry.bytes.now from reached result self.old self.new }
        ensures next_not_in_head { IfSome result.next_byte (λ byte. is_head_byte (class_of byte)
            ≡ false) }
        ensures looks { looks_of reader.new + from
            ≡ looks_of reader.old + min (result.position + 1) (length input.entry.bytes.now) }
    {
        let mut progress = reached;
        let mut position = from;
        let mut next_byte = None;
        while position < input.len() {
            let byte = reader.byte_at(input, position);
            if !is_head_byte(byte) {
                next_byte = Some(byte);
                break;
            }
            progress = self.collect_head_byte(progress, byte);
            position += 1;
        }
        HeadEnd {
            progress,
            position,
            next_byte,
        }
    }

    /// Adds the last number to the parameters, and returns whether there were too many numbers or
    /// intermediates. `joined` is the value of the field, as in `store_number`.
    #[inline(always)]
    pub(crate) fn end_head(&mut self, joined: bool) -> bool
        requires { self.old.joined ≡ joined }
        ensures { (reached : HeadProgress) (head : List ℕ) → HoldsHead self.old reached head
            → HoldsWholeHead self.new result head }
    {
        let has_room = self.store_number(joined, self.number);
        self.too_many_intermediates || !has_room
    }
}

/// Adds a digit to a number. 65,535 stands for all greater numbers.
#[inline(always)]
fn with_digit(number: u32, digit: u32) -> u32
    requires number { number ≤ greatest_number }
    requires digit { digit < 10 }
    ensures { result ≡ min (number * 10 + digit) greatest_number }
{
    (number * 10 + digit).min(u32::from(u16::MAX))
}
