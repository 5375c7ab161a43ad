//! A struct that keeps a processor and its handler, and knows over several calls whether the
//! terminal was to ring.
ghost use Rattle.std.specs.Prelude.{IfOk, List, [], ◌++◌, ◌∷◌};
ghost use Rattle.examples.specs.Session.{HasMade, RangBy};
ghost use Rattle.vte.specs.declared.ansi.laws.replays.Step.{Step};
ghost use Rattle.vte.specs.declared.ansi.laws.replays.Step.TheVariants.{Advance, StopSync};
ghost use Rattle.vte.specs.Processor.{given_bytes};
ghost use Rattle.vte.specs.ProcessorFacts.{processor_facts};

use crate::page::{Page, UntilEnded};
use std::alloc::{AllocError, Global};
use vte::ansi::{ByCall, Processor, laws};

/// A terminal that reads a stream in calls of [`Session::read`], and learns when an update has
/// expired.
#[derive(Drop)]
pub struct Session {
    processor: Processor<UntilEnded, Global>,
    page: ByCall<Page>,
}

impl Session {
    /// Creates a session of a stream that has not begun.
    ///
    /// # Errors
    ///
    /// `AllocError` if there is no memory for the processor.
    pub fn new(alloc: Global) -> Result<Self, AllocError>
        ensures { IfOk result (λ session. HasMade session []) }
    {
        let page = ByCall(Page {
            text: String::new(alloc),
            whole: true,
            rung: false,
        });
        match Processor::new(alloc, UntilEnded { pending: false }) {
            Ok(processor) => Ok(Session { processor, page }),
            Err(_) => Err(AllocError),
        }
    }

    /// Reads more of the stream.
    pub fn read(&mut self, bytes: &[u8])
        ensures { (steps : List Step) → HasMade self.old steps
            → HasMade self.new (steps ++ Advance bytes.entry ∷ []) }
    {
        laws::calls_are_received::<ByCall<Page>, UntilEnded>();
        self.processor.advance(&mut self.page, bytes);
    }

    /// Ends an update that has expired.
    pub fn end_update(&mut self)
        ensures { (steps : List Step) → HasMade self.old steps
            → HasMade self.new (steps ++ StopSync ∷ []) }
    {
        laws::calls_are_received::<ByCall<Page>, UntilEnded>();
        self.processor.stop_sync(&mut self.page);
    }

    /// Returns whether the terminal was to ring.
    pub fn has_rung(&self) -> bool
        ensures { (steps : List Step) → HasMade self.now steps
            → RangBy (given_bytes steps)
            (processor_facts (λ timeout. timeout.pending) self.now.processor).held result }
    {
        laws::calls_are_received::<ByCall<Page>, UntilEnded>();
        self.page.0.rung
    }
}
