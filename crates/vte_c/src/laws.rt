//! Laws of what is reported to a caller. The functions do nothing: their contracts are the laws.
ghost use Rattle.std.specs.Prelude.{List, ℕ, [], ◌++◌, ◌≡◌};
ghost use Rattle.event_log.specs.Plain.{plain_text};
ghost use Rattle.vte_c.specs.Record.{all_kinds, wanted_events};
ghost use Rattle.vte_c.specs.Reported.{HasReported, HasStripped};
ghost use Rattle.vte_core.specs.declared.parser.saved.Saved.{Saved};
ghost use Rattle.vte_core.specs.Event.{Event};
ghost use Rattle.vte_core.specs.Saved.{IsZero};
ghost use Rattle.vte_core.specs.Stream.{default_limit, events};

use vte_core::Saved;

/// Calls of `vte_feed` report exactly the events of the stream of the kinds asked for, in order.
pub fn events_are_reported()
    // A parser of zeros has reported nothing of the empty stream.
    ensures starts { (kinds : ℕ) (parser : Saved) → IsZero parser
        → HasReported kinds parser [] [] [] }
    // More bytes may come at any time, after those that are still unread.
    ensures goes_on { (kinds : ℕ) (parser : Saved) (given : List Event)
        (stream unread bytes : List ℕ) →
        HasReported kinds parser given stream unread →
        HasReported kinds parser given (stream ++ bytes) (unread ++ bytes) }
    // Once all are read, exactly these events of the stream have been reported, with 1,024 data
    // bytes of a command.
    ensures ends { (kinds : ℕ) (parser : Saved) (given : List Event) (stream : List ℕ) →
        HasReported kinds parser given stream [] →
        given ≡ wanted_events kinds (events default_limit stream) }
    // All kinds are all events.
    ensures all_wanted { (events : List Event) → wanted_events all_kinds events ≡ events }
{
    vte_core::laws::empty_stream();
    let _ = Saved::new();
}

/// Calls of `vte_strip` write exactly the text of the stream.
pub fn text_is_stripped()
    ensures starts { (parser : Saved) → IsZero parser → HasStripped parser [] [] [] }
    ensures goes_on { (parser : Saved) (text stream unread bytes : List ℕ) →
        HasStripped parser text stream unread →
        HasStripped parser text (stream ++ bytes) (unread ++ bytes) }
    ensures ends { (parser : Saved) (text stream : List ℕ) → HasStripped parser text stream [] →
        text ≡ plain_text (events default_limit stream) }
{
    vte_core::laws::empty_stream();
    let _ = Saved::new();
}
