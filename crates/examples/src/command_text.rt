//! A performer that notes how long the text of a command is, for a parser without a limit.
ghost use Rattle.std.specs.Prelude.{IfOk, None, ◌≡◌};
ghost use Rattle.examples.specs.CommandText.{length_after};
ghost use Rattle.vte_core.specs.Event.{after};
ghost use Rattle.vte_core.specs.Stream.{events};

use std::alloc::Allocator;
use vte_core::{LongParser, Params, Perform, Refused, laws};

#[derive(Drop)]
struct TextLength {
    last: usize,
}

impl Perform for TextLength {
    ghost use Rattle.std.specs.Prelude.{false, ℕ};

    ghost Value = { ℕ };

    ghost value_of = { λ length. length.last };

    ghost step = { length_after };

    ghost is_terminated = { λ last. false };

    fn print(&mut self, _c: char) {}

    fn execute(&mut self, _byte: u8) {}

    fn hook(&mut self, _params: &Params, _intermediates: &[u8], _ignore: bool, _action: char) {}

    fn put(&mut self, _byte: u8) {}

    fn unhook(&mut self) {}

    fn osc_dispatch(&mut self, params: &[&[u8]], _bell_terminated: bool) {
        self.last = match params {
            [_, text, ..] => text.len(),
            _ => 0,
        };
    }

    fn csi_dispatch(
        &mut self,
        _params: &Params,
        _intermediates: &[u8],
        _ignore: bool,
        _action: char,
    ) {}

    fn esc_dispatch(&mut self, _intermediates: &[u8], _ignore: bool, _byte: u8) {}

    fn terminated(&self) -> bool {
        false
    }
}

/// Returns how long the text of a stream's last operating system command is, however long that may
/// be.
///
/// # Errors
///
/// `Refused` if there is no memory for it.
pub fn last_text_length<A: Allocator>(alloc: A, stream: &[u8]) -> Result<usize, Refused>
    ensures { IfOk result (λ length. length ≡ after length_after 0 (events None stream.now)) }
{
    laws::empty_stream();
    let mut length = TextLength { last: 0 };
    let mut parser = LongParser::new(alloc);
    parser.advance(&mut length, stream)?;
    Ok(length.last)
}
