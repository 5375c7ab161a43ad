//! Laws of lists of a processor's calls, and the laws of the types.
ghost use Rattle.std.specs.Prelude.{drop, List, None, Option, take, ℕ, ◌++◌, ◌≡◌};
ghost use Rattle.vte.specs.CallExamples.{color_examples, command_examples, counted_examples, escape_examples, executed_examples, HaveCalls, HaveColors, link_examples, mode_examples, palette_examples, position_examples, rendition_examples, selected_examples, title_examples};
ghost use Rattle.vte.specs.declared.ansi.laws.replays.Step.{Step};
ghost use Rattle.vte.specs.Processor.{given_bytes, HoldInvariantAt, processor_meaning, State, TakesAllTurns, TakesSteps, TakesTurns};
ghost use Rattle.vte.specs.ProcessorCalls.{HasDelivered};
ghost use Rattle.vte.specs.Refusal.{TakesTurnsUntilRefused};
ghost use Rattle.vte.specs.UpdateExamples.{ExpiredExample, HaveOutcomes, ShortExamples, update_examples};
ghost use Rattle.vte_handler.specs.Timeout.{IsSteady};

mod replays;

pub use replays::{RefusedStep, Step, replay, replay_long};
use vte_handler::{Handler, Timeout};
pub use vte_types::laws::{
    defaults, equal_values_hash_equally, keywords_are_text, modes_keep_their_numbers,
    named_color_numbers_are_distinct, shades_undo_each_other, shown_colors_are_read_back,
    words_are_prefixes, words_differ_from_other_texts,
};

/// The definitions give the calls that were worked out by hand for streams of every shape.
pub fn worked_examples()
    ensures executed { HaveCalls executed_examples }
    ensures escape { HaveCalls escape_examples }
    ensures counted { HaveCalls counted_examples }
    ensures position { HaveCalls position_examples }
    ensures selected { HaveCalls selected_examples }
    ensures mode { HaveCalls mode_examples }
    ensures rendition { HaveCalls rendition_examples }
    ensures title { HaveCalls title_examples }
    ensures link { HaveCalls link_examples }
    ensures palette { HaveCalls palette_examples }
    ensures command { HaveCalls command_examples }
    ensures color { HaveColors color_examples }
    ensures update { HaveOutcomes update_examples }
    ensures expired { ExpiredExample }
    ensures short_examples { ShortExamples }
{}

/// What becomes of the bytes that a caller passes to a processor in calls of its own, and what its
/// handler receives of them: as of the calls of [`replay`], with a limit and without.
pub fn calls_are_received<H: Handler, T: Timeout>()
    ensures calls { (limit : Option ℕ) (state next : State H.Value T.Value) (steps : List Step)
        → let meaning = processor_meaning limit H.step T.set T.clear T.allows in
        TakesSteps meaning state steps next → HasDelivered meaning state (given_bytes steps) next }
    // The last call was refused memory when it had read this many of its bytes.
    ensures refused { (state reached next : State H.Value T.Value) (steps : List Step)
        (bytes : List ℕ) (read : ℕ)
        → let meaning = processor_meaning None H.step T.set T.clear T.allows in
        TakesSteps meaning state steps reached →
        TakesTurnsUntilRefused meaning reached bytes next (drop read bytes) →
        HasDelivered meaning state (given_bytes steps ++ take read bytes) next }
    // Further calls go on from where calls led to.
    ensures goes_on { (limit : Option ℕ) (state reached next : State H.Value T.Value)
        (steps more : List Step)
        → let meaning = processor_meaning limit H.step T.set T.clear T.allows in
        TakesSteps meaning state steps reached → TakesSteps meaning reached more next →
        TakesSteps meaning state (steps ++ more) next }
    ensures hold_invariant { (limit : Option ℕ) (state next : State H.Value T.Value)
        (steps : List Step) → let meaning = processor_meaning limit H.step T.set T.clear T.allows in
        TakesSteps meaning state steps next → HoldInvariantAt meaning state →
        HoldInvariantAt meaning next }
    // With a steady timeout they lead to one state only.
    ensures unique_state { (limit : Option ℕ) (state next other : State H.Value T.Value)
        (steps : List Step) → let meaning = processor_meaning limit H.step T.set T.clear T.allows in
        IsSteady meaning.timeout → HoldInvariantAt meaning state →
        TakesSteps meaning state steps next → TakesSteps meaning state steps other → other ≡ next }
{}

/// The rest of a refused call of a [`LongProcessor`](crate::ansi::LongProcessor) leads to where the
/// whole call leads to: if it was refused between turns, and with a steady timeout within a turn
/// too, although the timeout is asked once more.
#[tactic(auto, using(crate::proofs::lemmas::turns::RefusedTurns::taken_on))]
pub fn refused_calls_go_on<H: Handler, T: Timeout>()
    ensures between_turns { (state next end : State H.Value T.Value) (bytes rest : List ℕ)
        → let meaning = processor_meaning None H.step T.set T.clear T.allows in
        TakesTurns meaning state bytes next rest → TakesAllTurns meaning next rest end
        → TakesAllTurns meaning state bytes end }
    ensures inside_turn { (state next end : State H.Value T.Value) (bytes rest : List ℕ)
        → let meaning = processor_meaning None H.step T.set T.clear T.allows in
        IsSteady meaning.timeout → HoldInvariantAt meaning state
        → TakesTurnsUntilRefused meaning state bytes next rest →
        TakesAllTurns meaning next rest end → TakesAllTurns meaning state bytes end }
{}
