//! The calls that read bytes into a [`LongParser`].
// proof: each makes a [`Chunk`] of its bytes.
ghost use Rattle.std.specs.Prelude.{false, IfErr, List, None, ℕ};
ghost use Rattle.vte_core.specs.Advance.{ReadsBytes, ReadsUntilTerminated};
ghost use Rattle.vte_core.specs.AdvanceToRun.{ReadsToRun};
ghost use Rattle.vte_core.specs.LongParser.{HasReadLong};
ghost use Rattle.vte_core.specs.LongParserCalls.{ReadsLong};
ghost use Rattle.vte_core.specs.Looks.{per_byte};
ghost use Rattle.vte_core.specs.OutsideRuns.{ReportsOutsideRuns};

use crate::parser::{LongParser, Refused};
use crate::perform::{Perform, PerformText, PerformThroughText};
use crate::reader::{ByCharacter, Chunk, InRuns, Run, take_run};
use std::alloc::Allocator;

impl<A: Allocator> LongParser<A> {
    /// Reads the next bytes of the stream, and reports the events that they add to it.
    ///
    /// # Errors
    ///
    /// Fails if memory is refused. [`Refused`] says how many bytes were read before, whose events
    /// were reported: free some memory, and pass in the others.
    pub fn advance<P: Perform>(&mut self, performer: &mut P, bytes: &[u8]) -> Result<(), Refused>
        ensures { ReadsLong (per_byte 5) P.step (λ _. false) (P.value_of performer.old)
            (P.value_of performer.new) bytes.now self.old self.new result
            (λ _. ReadsBytes P.step) }
    {
        self.drive::<P, ByCharacter, false>(performer, Chunk::new(bytes))?;
        Ok(())
    }

    /// Reads the next bytes of the stream as [`advance`](Self::advance) does, and passes characters
    /// to print in [runs](crate::PerformText), and the data of device control strings in
    /// [slices](crate::PerformText::put_slice).
    pub fn advance_text<P: PerformText>(
        &mut self,
        performer: &mut P,
        bytes: &[u8],
    ) -> Result<(), Refused>
        ensures { ReadsLong (per_byte 5) P.step (λ _. false) (P.value_of performer.old)
            (P.value_of performer.new) bytes.now self.old self.new result
            (λ _. ReadsBytes P.step) }
    {
        self.drive::<P, InRuns, false>(performer, Chunk::new(bytes))?;
        Ok(())
    }

    /// Reads bytes until the performer is terminated or memory is refused, and returns how many
    /// were read.
    ///
    /// The performer is asked as by
    /// [`Parser::advance_until_terminated`](crate::Parser::advance_until_terminated), and before
    /// memory is allocated: a stop needs none.
    pub fn advance_until_terminated<P: Perform>(
        &mut self,
        performer: &mut P,
        bytes: &[u8],
    ) -> Result<usize, Refused>
        ensures { ReadsLong (per_byte 5) P.step P.is_terminated (P.value_of performer.old)
            (P.value_of performer.new) bytes.now self.old self.new result
            (ReadsUntilTerminated P.step P.is_terminated) }
    {
        self.drive::<P, ByCharacter, true>(performer, Chunk::new(bytes))
    }

    /// Reads bytes as [`advance_until_terminated`](Self::advance_until_terminated) does, and passes
    /// characters to print in [runs](crate::PerformText). No character of a run may terminate the
    /// performer, which isn't asked inside a run.
    // cargo: #[cfg(any(feature = "__own", feature = "ansi"))]
    // cargo instead: pub(crate) fn advance_text_until_terminated<P: PerformText>(
    pub fn advance_text_until_terminated<P: PerformThroughText>(
        &mut self,
        performer: &mut P,
        bytes: &[u8],
    ) -> Result<usize, Refused>
        ensures { ReadsLong (per_byte 5) P.step P.is_terminated (P.value_of performer.old)
            (P.value_of performer.new) bytes.now self.old self.new result
            (ReadsUntilTerminated P.step P.is_terminated) }
    {
        self.drive::<P, InRuns, true>(performer, Chunk::new(bytes))
    }

    /// Reads bytes up to and including a run of text, or of the data of a device control string.
    /// Returns the run instead of reporting it, as
    /// [`Parser::advance_to_run`](crate::Parser::advance_to_run) does.
    // cargo: #[allow(unsafe_code)]
    pub fn advance_to_run<'a, P: Perform>(
        &mut self,
        performer: &mut P,
        bytes: &'a [u8],
    ) -> Result<Run<'a>, Refused>
        ensures reads { ReadsLong (per_byte 7) P.step P.is_terminated (P.value_of performer.old)
            (P.value_of performer.new) bytes.now self.old self.new result
            (ReadsToRun P.step P.is_terminated) }
        // Characters and data are left to a run if memory is refused too.
        ensures outside_runs { IfErr result (λ refused. (stream : List ℕ)
            → HasReadLong self.old stream
            → ReportsOutsideRuns None stream bytes.now refused.read) }
    {
        let range = self.drive_to_run(performer, Chunk::new(bytes))?;
        // cargo: // SAFETY: `drive_to_run` found the range in these bytes.
        Ok(take_run(bytes, range))
    }
}
