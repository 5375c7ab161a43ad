//! A struct that keeps a parser, and knows over several calls which character was printed last.
ghost use Rattle.std.specs.Prelude.{List, None, ℕ, [], ◌++◌, ◌≡◌};
ghost use Rattle.examples.specs.LastPrinted.{last_after, Watches};
ghost use Rattle.vte_core.specs.Event.{after};
ghost use Rattle.vte_core.specs.Stream.{default_limit, events};

use vte_core::{Params, Parser, Perform, laws};

#[derive(Drop)]
struct LastPrinted {
    c: Option<char>,
}

impl Perform for LastPrinted {
    ghost use Rattle.std.specs.Prelude.{false, Option};

    ghost Value = { Option ℕ };

    ghost value_of = { λ last. last.c };

    ghost step = { last_after };

    ghost is_terminated = { λ last. false };

    fn print(&mut self, c: char) {
        self.c = Some(c);
    }

    fn execute(&mut self, _byte: u8) {}

    fn hook(&mut self, _params: &Params, _intermediates: &[u8], _ignore: bool, _action: char) {}

    fn put(&mut self, _byte: u8) {}

    fn unhook(&mut self) {}

    fn osc_dispatch(&mut self, _params: &[&[u8]], _bell_terminated: bool) {}

    fn csi_dispatch(
        &mut self,
        _params: &Params,
        _intermediates: &[u8],
        _ignore: bool,
        _action: char,
    ) {}

    fn esc_dispatch(&mut self, _intermediates: &[u8], _ignore: bool, _byte: u8) {}

    fn terminated(&self) -> bool {
        false
    }
}

/// Watches a stream that comes in calls of [`Watcher::read`].
#[derive(Drop)]
pub struct Watcher {
    parser: Parser<1024>,
    last: LastPrinted,
}

impl Watcher {
    /// Creates a watcher of a stream that has not begun.
    pub fn new() -> Self
        ensures { Watches result [] }
    {
        laws::empty_stream();
        Watcher {
            parser: Parser::new(),
            last: LastPrinted { c: None },
        }
    }

    /// Reads more of the stream.
    pub fn read(&mut self, bytes: &[u8])
        ensures { (stream : List ℕ) → Watches self.old stream
            → Watches self.new (stream ++ bytes.now) }
    {
        laws::events_grow();
        self.parser.advance(&mut self.last, bytes);
    }

    /// Returns the character that the stream printed last.
    pub fn last(&self) -> Option<char>
        ensures { (stream : List ℕ) → Watches self.now stream →
            result ≡ after last_after None (events default_limit stream) }
    {
        self.last.c
    }
}
