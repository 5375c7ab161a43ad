//! A law of the text that is left. Its function does nothing: the contract is the law.
ghost use Rattle.std.specs.List.{flat_map};
ghost use Rattle.std.specs.Prelude.{List, Option, ℕ, ◌≡◌};
ghost use Rattle.event_log.specs.Plain.{plain_text};
ghost use Rattle.vte_core.specs.Parts.{AreCuts, parts_at};
ghost use Rattle.vte_core.specs.Stream.{events};

use vte_core::laws;

/// The text of a stream is that of its parts, one part after another, if an ESC is the end of each
/// part and the start of the next.
pub fn text_of_parts()
    ensures { (limit : Option ℕ) (stream cuts : List ℕ) → AreCuts stream 0 cuts
        → flat_map (λ part. plain_text (events limit part)) (parts_at cuts stream)
        ≡ plain_text (events limit stream) }
{
    laws::events_of_parts();
}
