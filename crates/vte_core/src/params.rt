//! The parameters of a control sequence.
ghost use Rattle.std.specs.Fmt.{decimal, WritesOnOk};
ghost use Rattle.std.specs.Iterator.{at_most, item_count, UpTo, YieldsFirstRef};
ghost use Rattle.std.specs.Iterator.SizeHint.{IsWithinCount};
ghost use Rattle.std.specs.List.{join_with_byte};
ghost use Rattle.std.specs.Prelude.{IfSome, IsTrue, length, List, map, Some, true, ℕ, [], ◌++◌, ◌<◌, ◌==◌, ◌↔◌, ◌∷◌, ◌≡◌, ◌≤◌};
ghost use Rattle.vte_core.specs.Parameters.{AreGroups, colon, count_of, max_numbers, shown, with_number};
ghost use Rattle.vte_core.specs.private.FlatGroups.{AreFlatGroups, AreRawParts, lengths_of};

use arrayvec::ArrayVec;
use std::fmt;
use std::iter::FusedIterator;
use std::marker::Model;

/// How many numbers of a sequence are kept.
pub(crate) const MAX_NUMBERS: usize = 32;

/// The numbers of a sequence, in groups that are never empty.
#[derive(Clone, Drop)]
// cargo: #[doc = include_str!("../../docs/params.md")]
pub struct Params {
    /// All numbers in a row.
    numbers: ArrayVec<u16, MAX_NUMBERS>,
    /// How many of them are in each group. Empty until a number joins a group, since in most
    /// sequences none does.
    lengths: ArrayVec<u8, MAX_NUMBERS>,
}

impl Model for Params {
    ghost use Rattle.std.specs.Prelude.{List, ℕ};
    ghost use Rattle.vte_core.specs.private.FlatGroups.{AreFlatGroups, stored_groups};

    ghost Value = { List (List ℕ) };

    ghost view = { λ params. stored_groups params.lengths.items params.numbers.items };

    ghost invariant = { λ params. AreFlatGroups params.lengths.items params.numbers.items };
}

/// An iterator over the groups of a [`Params`], each a slice of its numbers.
#[derive(Drop)]
// cargo: #[derive(Clone, Debug)]
pub struct ParamsIter<'a> {
    numbers: &'a [u16],
    lengths: &'a [u8],
}

impl<'a> Model for ParamsIter<'a> {
    ghost use Rattle.std.specs.Prelude.{List, ℕ};
    ghost use Rattle.vte_core.specs.private.FlatGroups.{AreStoredLengths, stored_groups};

    ghost Value = { List (List ℕ) };

    ghost view = { λ it. stored_groups it.lengths.now it.numbers.now };

    ghost invariant = { λ it. AreStoredLengths it.lengths.now it.numbers.now };
}

impl Params {
    /// Creates parameters without numbers.
    // cargo instead: pub(crate) const fn new() -> Self
    pub(crate) fn new() -> Self
        ensures { result ≡ [] }
    {
        Params {
            numbers: ArrayVec::new(),
            lengths: ArrayVec::new(),
        }
    }

    /// Removes all numbers.
    pub(crate) fn clear(&mut self)
        ensures { self.new ≡ [] }
    {
        // proof: a `clear` of each would write over what it has, by a call of its own.
        // cargo instead: self.numbers.clear();
        // cargo instead: self.lengths.clear();
        *self = Params::new();
    }

    /// Returns whether there is no room for another number.
    // cargo: #[inline]
    pub(crate) fn is_full(&self) -> bool
        ensures { IsTrue result ↔ (max_numbers ≤ count_of self.now) }
    {
        self.numbers.is_full()
    }

    /// Adds a number: to the last group if `joined`, or else as a group of its own.
    #[inline(always)]
    pub(crate) fn push(&mut self, joined: bool, value: u16)
        requires { count_of self.old < max_numbers }
        ensures { self.new ≡ with_number self.old (record { joined = joined; value = value }) }
    {
        if joined {
            self.push_joined(value);
        } else if self.lengths.is_empty() {
            self.numbers.push(value);
        } else {
            self.numbers.push(value);
            self.lengths.push(1);
        }
    }

    /// Adds a number to the last group, or to a new one if there is none. Few numbers join a group.
    #[inline(never)]
    fn push_joined(&mut self, value: u16)
        requires { count_of self.old < max_numbers }
        ensures { self.new ≡ with_number self.old (record { joined = true; value = value }) }
    {
        fill_lengths(&mut self.lengths, self.numbers.len());
        let length = self.lengths.pop().unwrap_or(0);
        self.numbers.push(value);
        self.lengths.push(length + 1);
    }

    /// Returns how many numbers are in each group, or nothing if one is in each, and all numbers in
    /// a row.
    // cargo: #[cfg(feature = "__own")]
    pub(crate) fn raw_parts(&self) -> (&[u8], &[u16])
        ensures { AreRawParts result.0.now result.1.now self.now }
    {
        (self.lengths.as_slice(), self.numbers.as_slice())
    }

    /// Returns the parameters with these numbers in groups of these lengths, or none if the lengths
    /// don't cover all numbers.
    // cargo: #[cfg(feature = "__own")]
    pub(crate) fn from_raw_parts(
        lengths: ArrayVec<u8, MAX_NUMBERS>,
        numbers: ArrayVec<u16, MAX_NUMBERS>,
    ) -> Self
        ensures { (groups : List (List ℕ)) → AreRawParts lengths.items numbers.items groups
            → result ≡ groups }
    {
        if are_flat_groups(lengths.as_slice(), numbers.as_slice()) {
            Params { numbers, lengths }
        } else {
            Params::new()
        }
    }

    /// Returns how many numbers there are, including those joined by `:`.
    pub fn len(&self) -> usize
        ensures value { result ≡ count_of self.now }
        ensures groups { AreGroups self.now }
    {
        self.numbers.len()
    }

    /// Returns whether there are no numbers.
    pub fn is_empty(&self) -> bool
        ensures { result ≡ (count_of self.now == 0) }
    {
        self.numbers.is_empty()
    }

    /// Returns an iterator over the groups. Numbers joined by `:` are one group.
    // cargo: #[inline]
    pub fn iter(&self) -> ParamsIter<'_>
        ensures value { result ≡ self.now }
        ensures groups { AreGroups self.now }
    {
        ParamsIter {
            numbers: self.numbers.as_slice(),
            lengths: self.lengths.as_slice(),
        }
    }
}

/// Stores the lengths of this many numbers, if none are stored: each is a group of its own.
fn fill_lengths(lengths: &mut ArrayVec<u8, MAX_NUMBERS>, count: usize)
    requires { count ≤ max_numbers }
    ensures { lengths.new.items ≡ lengths_of lengths.old.items count }
{
    if lengths.is_empty() {
        for _ in 0..count {
            lengths.push(1);
        }
    }
}

/// Returns whether these are the lengths of groups with these numbers.
#[tactic(auto, using(std::proofs::lemmas::Grind::elements, crate::proofs::lemmas::fields::FlatGroups::sum_take_more, crate::proofs::lemmas::fields::FlatGroups::sum_take_below, crate::proofs::lemmas::fields::FlatGroups::filled_take_more, crate::proofs::lemmas::fields::FlatGroups::are_stored_lengths_alone, crate::proofs::lemmas::fields::FlatGroups::lengths_of_stored))]
// cargo: #[cfg(feature = "__own")]
fn are_flat_groups(lengths: &[u8], numbers: &[u16]) -> bool
    ensures { IsTrue result ↔ AreFlatGroups lengths.now numbers.now }
{
    if lengths.is_empty() {
        return true;
    }
    let mut left = numbers.len();
    for length in lengths {
        let length = usize::from(*length);
        if length == 0 || left < length {
            return false;
        }
        left -= length;
    }
    left == 0
}

impl ParamsIter<'_> {
    /// Returns how many groups are left.
    #[tactic(auto, using(crate::proofs::lemmas::fields::FlatGroups::length_stored_groups, crate::proofs::lemmas::fields::FlatGroups::length_stored_groups_alone))]
    fn count_groups(&self) -> usize
        ensures { result ≡ length self.now }
    {
        if self.lengths.is_empty() {
            self.numbers.len()
        } else {
            self.lengths.len()
        }
    }
}

impl Default for Params {
    ghost is_default = { λ params. params ≡ [] };

    fn default() -> Self {
        Params::new()
    }
}

impl<'a> IntoIterator for &'a Params {
    type Item = &'a [u16];

    type IntoIter = ParamsIter<'a>;

    ghost into_iter_gives = { λ params it. (it ≡ params.now) × AreGroups params.now };

    // cargo: #[inline]
    fn into_iter(self) -> ParamsIter<'a> {
        self.iter()
    }
}

impl<'a> Iterator for ParamsIter<'a> {
    type Item = &'a [u16];

    ghost next_gives = { YieldsFirstRef (λ groups. groups) };

    ghost remaining = { item_count (λ groups. groups) };

    #[inline(always)]
    fn next(&mut self) -> Option<&'a [u16]> {
        // Each number is a group of its own.
        if self.lengths.is_empty() {
            if self.numbers.is_empty() {
                return None;
            }
            let (group, numbers) = self.numbers.split_at(1);
            self.numbers = numbers;
            return Some(group);
        }
        let (length, lengths) = self.lengths.split_first()?;
        let (group, numbers) = self.numbers.split_at(usize::from(*length));
        self.lengths = lengths;
        self.numbers = numbers;
        Some(group)
    }

    fn size_hint(&self) -> (usize, Option<usize>)
        ensures value { result ≡ (length self.now, Some (length self.now)) }
        ensures lower { IsWithinCount result.0 (at_most (length self.now)) }
        ensures upper { IfSome result.1 (UpTo (at_most (length self.now))) }
    {
        let groups = self.count_groups();
        (groups, Some(groups))
    }
}

impl<'a> FusedIterator for ParamsIter<'a> {}

/// The numbers of one group, with `:` between them.
#[derive(Drop)]
struct Group<'a>(&'a [u16]);

impl fmt::Display for Group<'_> {
    ghost output = { λ group. Some (join_with_byte colon (map decimal group.0.now)) };

    #[tactic(auto, using(std::proofs::lemmas::Grind::common_steps))]
    fn fmt<W: fmt::Write>(&self, f: &mut fmt::Formatter<W>) -> fmt::Result {
        if let [first, rest @ ..] = self.0 {
            write!(f, "{first}")?;
            for number in rest {
                write!(f, ":{number}")?;
            }
        }
        Ok(())
    }
}

/// Writes groups with `;` between them.
fn write_groups<W: fmt::Write>(mut groups: ParamsIter<'_>, f: &mut fmt::Formatter<W>) -> fmt::Result
    ensures { WritesOnOk W.write_str_gives f.old result (shown groups.entry) f.new }
{
    if let Some(first) = groups.next() {
        write!(f, "{}", Group(first))?;
        for group in groups {
            write!(f, ";{}", Group(group))?;
        }
    }
    Ok(())
}

/// The groups in brackets, with `;` between them and `:` between the numbers of a group.
impl fmt::Debug for Params {
    ghost debug_output = { λ params. Some (0x5b ∷ (shown params ++ 0x5d ∷ [])) };

    #[tactic(auto, using(std::proofs::lemmas::Grind::common_steps))]
    fn fmt<W: fmt::Write>(&self, f: &mut fmt::Formatter<W>) -> fmt::Result {
        write!(f, "[")?;
        write_groups(self.iter(), f)?;
        write!(f, "]")
    }
}
