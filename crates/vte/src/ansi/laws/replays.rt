//! Lists of a processor's calls.
ghost use Rattle.std.specs.Prelude.{IfErr, IfOk, None};
ghost use Rattle.vte.specs.LongProcessor.{ProcessorLacksMemory};
ghost use Rattle.vte.specs.Processor.{processor_meaning, State};
ghost use Rattle.vte.specs.ProcessorCalls.{IsAt, Replays};
ghost use Rattle.vte.specs.ProcessorFacts.{long_facts, processor_facts};
ghost use Rattle.vte.specs.Refusal.{HasReplayedUntil, left_by};
ghost use Rattle.vte_core.specs.Stream.{default_limit};

use crate::ansi::long_processor::LongProcessor;
use crate::ansi::processor::Processor;
use std::alloc::Allocator;
use vte_handler::{Handler, Timeout};

/// A call of a processor.
#[derive(Clone, Copy)]
pub enum Step<'a> {
    /// `advance`, of these bytes.
    Advance(&'a [u8]),
    /// `stop_sync`.
    StopSync,
}

/// Memory for a step, an `Advance`, was refused.
#[derive(Clone, Copy, Debug, PartialEq, Eq)]
pub struct RefusedStep {
    /// How many steps were taken before it.
    pub index: usize,
    /// How many bytes of it were read.
    pub read: usize,
}

/// Calls the processor once per step.
///
/// The bytes that were held and those that the steps give are parsed or still held afterwards, each
/// once and in order. The handler receives the calls of the parsed bytes, and one more call after
/// each stop.
pub fn replay<H: Handler, T: Timeout + Drop, A: Allocator>(
    processor: &mut Processor<T, A>,
    handler: &mut H,
    steps: &[Step<'_>],
)
    ensures { Replays (processor_meaning default_limit H.step T.set T.clear T.allows)
        (processor_facts T.value_of processor.old) (processor_facts T.value_of processor.new)
        (H.value_of handler.old) (H.value_of handler.new) steps.now }
{
    for step in steps {
        match step {
            Step::Advance(bytes) => processor.advance(handler, bytes),
            Step::StopSync => processor.stop_sync(handler),
        }
    }
}

/// Calls a processor without a limit once per step, as [`replay`] does, and stops at the first call
/// that is refused memory.
pub fn replay_long<H: Handler, T: Timeout + Drop, A: Allocator>(
    processor: &mut LongProcessor<T, A>,
    handler: &mut H,
    steps: &[Step<'_>],
) -> Result<(), RefusedStep>
    ensures replays { IfOk result
        (λ all. Replays (processor_meaning None H.step T.set T.clear T.allows)
        (long_facts T.value_of processor.old) (long_facts T.value_of processor.new)
        (H.value_of handler.old) (H.value_of handler.new) steps.now) }
    ensures refuses { IfErr result (λ refused. (state : State H.Value T.Value)
        → IsAt (long_facts T.value_of processor.old) (H.value_of handler.old) state →
        HasReplayedUntil
        (processor_meaning None H.step T.set T.clear T.allows) state steps.now refused
        (IsAt (long_facts T.value_of processor.new) (H.value_of handler.new))) }
    ensures lacks_memory { IfErr result (λ refused. ProcessorLacksMemory
        (long_facts T.value_of processor.new) (left_by steps.now refused)) }
{
    for (index, step) in steps.iter().enumerate() {
        match step {
            Step::Advance(bytes) => {
                if let Err(refused) = processor.advance(handler, bytes) {
                    return Err(RefusedStep {
                        index,
                        read: refused.read,
                    });
                }
            }
            Step::StopSync => processor.stop_sync(handler),
        }
    }
    Ok(())
}
