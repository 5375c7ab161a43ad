//! The iterator over parts.
ghost use Rattle.std.specs.Iterator.{item_count, YieldsFirstRef};
ghost use Rattle.std.specs.Prelude.{length, ◌<◌, ◌≡◌, ◌≤◌};
ghost use Rattle.vte_core.specs.Parts.{next_escape, parts_after};

use crate::class::ESCAPE;
use memchr::memchr;
use std::iter::FusedIterator;
use std::marker::Model;

/// An iterator over the parts of a stream, which `parts` returns.
#[derive(Drop)]
// cargo: #[derive(Clone, Debug)]
pub struct Parts<'a> {
    rest: &'a [u8],
    size: usize,
}

impl<'a> Model for Parts<'a> {
    ghost use Rattle.std.specs.Prelude.{List, ℕ, ◌<◌};
    ghost use Rattle.vte_core.specs.Parts.{parts_after};

    ghost Value = { List (List ℕ) };

    ghost view = { λ it. parts_after it.size 0 it.rest.now };

    ghost invariant = { λ it. 0 < it.size };
}

impl<'a> Parts<'a> {
    pub(crate) fn new(stream: &'a [u8], size: usize) -> Self
        requires { 0 < size }
        ensures { result ≡ parts_after size 0 stream.now }
    {
        Parts { rest: stream, size }
    }
}

impl<'a> Iterator for Parts<'a> {
    type Item = &'a [u8];

    ghost next_gives = { YieldsFirstRef (λ parts. parts) };

    ghost remaining = { item_count (λ parts. parts) };

    fn next(&mut self) -> Option<&'a [u8]> {
        if self.rest.is_empty() {
            return None;
        }
        let cut = find_next_escape(self.rest, self.size);
        // The ESC is in this part and in the next.
        let part = &self.rest[..self.rest.len().min(cut + 1)];
        self.rest = &self.rest[cut..];
        Some(part)
    }
}

impl<'a> FusedIterator for Parts<'a> {}

/// Returns the position of the first ESC from a position on, or the length if there is none.
fn find_next_escape(stream: &[u8], from: usize) -> usize
    ensures value { result ≡ next_escape from stream.now }
    ensures within { result ≤ length stream.now }
{
    let from = from.min(stream.len());
    match memchr(ESCAPE, &stream[from..]) {
        Some(distance) => from + distance,
        None => stream.len(),
    }
}
