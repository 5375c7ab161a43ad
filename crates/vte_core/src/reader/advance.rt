//! The calls that read bytes into a [`Parser`].
// proof: each makes a [`Chunk`] of its bytes.
ghost use Rattle.vte_core.specs.Advance.{ReadsBytes, ReadsUntilTerminated};
ghost use Rattle.vte_core.specs.AdvanceToRun.{ReadsToRun};
ghost use Rattle.vte_core.specs.Parser.{parser_facts};

use crate::parser::Parser;
use crate::perform::{Perform, PerformText, PerformThroughText};
use crate::reader::{ByCharacter, Chunk, InRuns, Run, take_run};

impl<const OSC_RAW_BUF_SIZE: usize> Parser<OSC_RAW_BUF_SIZE> {
    /// Reads the next bytes of the stream, and reports the events that they add to it.
    ///
    /// However calls split the stream, the events are the same. A character or sequence that is
    /// open at the end waits for more bytes.
    pub fn advance<P: Perform>(&mut self, performer: &mut P, bytes: &[u8])
        ensures { ReadsBytes P.step (P.value_of performer.old) (P.value_of performer.new) bytes.now
            (parser_facts self.old) (parser_facts self.new) }
    {
        self.drive::<P, ByCharacter, false>(performer, Chunk::new(bytes));
    }

    /// Reads the next bytes of the stream as [`advance`](Self::advance) does, and passes characters
    /// to print in [runs](crate::PerformText), and the data of device control strings in
    /// [slices](crate::PerformText::put_slice).
    pub fn advance_text<P: PerformText>(&mut self, performer: &mut P, bytes: &[u8])
        ensures { ReadsBytes P.step (P.value_of performer.old) (P.value_of performer.new) bytes.now
            (parser_facts self.old) (parser_facts self.new) }
    {
        self.drive::<P, InRuns, false>(performer, Chunk::new(bytes));
    }

    /// Reads bytes until the performer is terminated, and returns how many were read.
    ///
    /// A character that an earlier call began is finished first. Then the performer is asked, and
    /// again after each character, malformed sequence or byte that was reported. While nothing is
    /// reported, many bytes may be read between two questions. An open character at the end
    /// of the bytes counts as read.
    #[must_use = "the bytes after the stop are still to be read"]
    pub fn advance_until_terminated<P: Perform>(&mut self, performer: &mut P, bytes: &[u8]) -> usize
        ensures { ReadsUntilTerminated P.step P.is_terminated result (P.value_of performer.old)
            (P.value_of performer.new) bytes.now (parser_facts self.old) (parser_facts self.new) }
    {
        self.drive::<P, ByCharacter, true>(performer, Chunk::new(bytes))
    }

    /// Reads bytes as [`advance_until_terminated`](Self::advance_until_terminated) does, and passes
    /// characters to print in [runs](crate::PerformText). No character of a run may terminate the
    /// performer, which isn't asked inside a run.
    #[must_use = "the bytes after the stop are still to be read"]
    // cargo: #[cfg(any(feature = "__own", feature = "ansi"))]
    // cargo instead: pub(crate) fn advance_text_until_terminated<P: PerformText>(
    pub fn advance_text_until_terminated<P: PerformThroughText>(
        &mut self,
        performer: &mut P,
        bytes: &[u8],
    ) -> usize
        ensures { ReadsUntilTerminated P.step P.is_terminated result (P.value_of performer.old)
            (P.value_of performer.new) bytes.now (parser_facts self.old) (parser_facts self.new) }
    {
        self.drive::<P, InRuns, true>(performer, Chunk::new(bytes))
    }

    /// Reads bytes up to and including a run of text, or of the data of a device control string.
    /// Returns the run instead of reporting it.
    ///
    /// Most text comes in the returned runs. A character that was divided between two calls, and
    /// U+FFFD for malformed bytes, come by [`print`](Perform::print), and a performer whose `print`
    /// does nothing loses them.
    ///
    /// A caller can take text from its own input in this way, with its position and without a copy.
    ///
    /// ```rattle
    /// let mut parser = Parser::new();
    /// let bytes = b"\x1b[1mna\xc3\xafve\r\n";
    /// let run = parser.advance_to_run(&mut performer, bytes); // reports the sequence
    /// assert_eq!((run.start, run.taken, run.end), (4, Taken::Text("naïve"), 10));
    /// parser.advance(&mut performer, &bytes[run.end..]); // reports CR and LF
    /// ```
    ///
    /// A run begins at a whole character that is printed as it is, if nothing is open before it, or
    /// at a data byte that is put. It ends before the first control, malformed sequence, open
    /// character or byte that isn't put. What an earlier call began is reported. Without a run,
    /// the call ends with the bytes, or when the performer is terminated. It is asked as by
    /// [`advance_until_terminated`](Self::advance_until_terminated).
    #[must_use = "the bytes after the run are still to be read"]
    // cargo: #[allow(unsafe_code)]
    pub fn advance_to_run<'a, P: Perform>(&mut self, performer: &mut P, bytes: &'a [u8]) -> Run<'a>
        ensures { ReadsToRun P.step P.is_terminated result (P.value_of performer.old)
            (P.value_of performer.new) bytes.now (parser_facts self.old) (parser_facts self.new) }
    {
        let range = self.drive_to_run(performer, Chunk::new(bytes));
        // cargo: // SAFETY: `drive_to_run` found the range in these bytes.
        take_run(bytes, range)
    }
}
