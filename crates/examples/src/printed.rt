//! A performer that notes whether a character was printed.
ghost use Rattle.std.specs.List.{flat_map};
ghost use Rattle.std.specs.Prelude.{false, ◌≡◌};
ghost use Rattle.examples.specs.Printed.{seen_after};
ghost use Rattle.vte_core.specs.Event.{after};
ghost use Rattle.vte_core.specs.Stream.{default_limit, events};

use vte_core::{Params, Perform, laws};

#[derive(Drop)]
struct Printed {
    seen: bool,
}

impl Perform for Printed {
    ghost use Rattle.std.specs.Prelude.{Bool};

    ghost Value = { Bool };

    ghost value_of = { λ printed. printed.seen };

    ghost step = { seen_after };

    ghost is_terminated = { λ seen. false };

    fn print(&mut self, _c: char) {
        self.seen = true;
    }

    fn execute(&mut self, _byte: u8) {}

    fn hook(&mut self, _params: &Params, _intermediates: &[u8], _ignore: bool, _action: char) {}

    fn put(&mut self, _byte: u8) {}

    fn unhook(&mut self) {}

    fn osc_dispatch(&mut self, _params: &[&[u8]], _bell_terminated: bool) {}

    fn csi_dispatch(
        &mut self,
        _params: &Params,
        _intermediates: &[u8],
        _ignore: bool,
        _action: char,
    ) {}

    fn esc_dispatch(&mut self, _intermediates: &[u8], _ignore: bool, _byte: u8) {}

    fn terminated(&self) -> bool {
        false
    }
}

/// Returns whether a stream, which comes in chunks, prints a character.
pub fn prints(chunks: &[&[u8]]) -> bool
    ensures { result
        ≡ after seen_after false (events default_limit (flat_map (λ chunk. chunk.now) chunks.now)) }
{
    let mut printed = Printed { seen: false };
    laws::replay::<Printed, 1024>(&mut printed, chunks);
    printed.seen
}
