//! A performer that asks for an early stop when the bell rings.
ghost use Rattle.std.specs.Prelude.{false, ◌≡◌};
ghost use Rattle.examples.specs.Bell.{rung_after};
ghost use Rattle.vte_core.specs.Event.{after};
ghost use Rattle.vte_core.specs.Stream.{default_limit, events};

use vte_core::{Params, Parser, Perform, laws};

#[derive(Drop)]
struct Bell {
    has_rung: bool,
}

impl Perform for Bell {
    ghost use Rattle.std.specs.Prelude.{Bool};

    ghost Value = { Bool };

    ghost value_of = { λ bell. bell.has_rung };

    ghost step = { rung_after };

    ghost is_terminated = { λ has_rung. has_rung };

    fn print(&mut self, _c: char) {}

    fn execute(&mut self, byte: u8) {
        if byte == 0x07 {
            self.has_rung = true;
        }
    }

    fn hook(&mut self, _params: &Params, _intermediates: &[u8], _ignore: bool, _action: char) {}

    fn put(&mut self, _byte: u8) {}

    fn unhook(&mut self) {}

    fn osc_dispatch(&mut self, _params: &[&[u8]], _bell_terminated: bool) {}

    fn csi_dispatch(
        &mut self,
        _params: &Params,
        _intermediates: &[u8],
        _ignore: bool,
        _action: char,
    ) {}

    fn esc_dispatch(&mut self, _intermediates: &[u8], _ignore: bool, _byte: u8) {}

    fn terminated(&self) -> bool {
        self.has_rung
    }
}

/// Returns whether a stream rings the bell. What follows the first bell isn't read.
pub fn rings(stream: &[u8]) -> bool
    ensures { result ≡ after rung_after false (events default_limit stream.now) }
{
    laws::empty_stream();
    let mut bell = Bell { has_rung: false };
    let _ = Parser::new().advance_until_terminated(&mut bell, stream);
    bell.has_rung
}
