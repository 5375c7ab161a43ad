//! Performers, as the functions of a parser see them.
// proof: they count each event as it is reported.
ghost use Rattle.std.specs.Prelude.{Bool, chars, false, length, map, true, ◌<◌, ◌≡◌};
ghost use Rattle.vte_core.specs.private.Prelude.{CsiDispatch, EscDispatch, Event, Execute, Hook, is_control_character, IsRunText, OscDispatch, Print, Put, Reports, ReportsAll, run_event, Unhook};

use crate::head::CollectedHead;
use crate::perform::Perform;
use crate::reader::Reader;
use crate::reader::granularity::{Granularity, ReceiveAs};

/// A performer, as the functions of a parser see it.
pub(crate) trait CountedPerform<G: Granularity> {
    ghost Value: { Type 0 };

    ghost value_of: { Self → Value };

    ghost step: { Value → Event → Value };

    ghost is_terminated: { Value → Bool };

    ghost layout: { Bool };

    /// Returns whether HT, LF and CR come as text.
    fn keeps_layout(&self) -> bool
        ensures { result ≡ layout };

    /// Reports a character to print.
    fn print_char(&mut self, reader: &mut Reader, c: char)
        requires { is_control_character c ≡ false }
        ensures { Reports step (value_of self.old) (value_of self.new)
            (Print c) reader.old reader.new };

    /// Reports a text to print, and counts its bytes, which are no fewer than its characters.
    fn print_text(&mut self, reader: &mut Reader, text: &str)
        requires in_runs { G.IN_RUNS ≡ true }
        requires not_empty { 0 < length text.now }
        requires is_run_text { IsRunText layout text.now }
        ensures { ReportsAll step (value_of self.old) (value_of self.new)
            (map (run_event layout) (chars text.now)) (length text.now) reader.old reader.new };

    /// Reports a control function of one byte.
    fn execute_control(&mut self, reader: &mut Reader, byte: u8)
        ensures { Reports step (value_of self.old) (value_of self.new)
            (Execute byte) reader.old reader.new };

    /// Reports that a device control string begins, with the final byte of its head.
    fn hook(&mut self, reader: &mut Reader, collected: &CollectedHead, ignore: bool, final_byte: u8)
        ensures { Reports step (value_of self.old) (value_of self.new)
            (Hook collected.now.params collected.now.intermediates.items ignore final_byte)
            reader.old reader.new };

    /// Reports a data byte of the device control string.
    fn put_byte(&mut self, reader: &mut Reader, byte: u8)
        ensures { Reports step (value_of self.old) (value_of self.new)
            (Put byte) reader.old reader.new };

    /// Reports data bytes of the device control string, and counts each.
    fn put_slice(&mut self, reader: &mut Reader, bytes: &[u8])
        requires in_runs { G.IN_RUNS ≡ true }
        requires not_empty { 0 < length bytes.now }
        ensures { ReportsAll step (value_of self.old) (value_of self.new) (map Put bytes.now)
            (length bytes.now) reader.old reader.new };

    /// Reports that the device control string ends.
    fn unhook(&mut self, reader: &mut Reader)
        ensures { Reports step (value_of self.old) (value_of self.new) Unhook
            reader.old reader.new };

    /// Reports an operating system command.
    fn osc_dispatch(&mut self, reader: &mut Reader, pieces: &[&[u8]], bell_terminated: bool)
        ensures { Reports step (value_of self.old) (value_of self.new)
            (OscDispatch (map (λ piece. piece.now) pieces.now) bell_terminated)
            reader.old reader.new };

    /// Reports a control sequence with this final byte.
    fn csi_dispatch(
        &mut self,
        reader: &mut Reader,
        collected: &CollectedHead,
        ignore: bool,
        final_byte: u8,
    )
        ensures { Reports step (value_of self.old) (value_of self.new)
            (CsiDispatch collected.now.params collected.now.intermediates.items ignore final_byte)
            reader.old reader.new };

    /// Reports an escape sequence with this final byte.
    fn esc_dispatch(&mut self, reader: &mut Reader, collected: &CollectedHead, final_byte: u8)
        ensures { Reports step (value_of self.old) (value_of self.new)
            (EscDispatch collected.now.intermediates.items collected.now.too_many_intermediates
            final_byte) reader.old reader.new };

    /// Returns whether a call that may stop ends here. The question takes no look.
    fn terminated(&self) -> bool
        ensures { result ≡ is_terminated (value_of self.now) };
}

impl<P: ReceiveAs<G>, G: Granularity> CountedPerform<G> for P {
    ghost Value = { P.Value };

    ghost value_of = { P.value_of };

    ghost step = { P.step };

    ghost is_terminated = { P.is_terminated };

    ghost layout = { P.layout };

    #[inline(always)]
    fn keeps_layout(&self) -> bool {
        ReceiveAs::<G>::keeps_layout(self)
    }

    #[inline(always)]
    fn print_char(&mut self, reader: &mut Reader, c: char) {
        reader.count_looks(1);
        ReceiveAs::<G>::print_char(self, c);
    }

    #[inline(always)]
    fn print_text(&mut self, reader: &mut Reader, text: &str) {
        reader.count_looks(text.len());
        ReceiveAs::<G>::print_text(self, text);
    }

    #[inline(always)]
    fn execute_control(&mut self, reader: &mut Reader, byte: u8) {
        reader.count_looks(1);
        ReceiveAs::<G>::execute_control(self, byte);
    }

    #[inline(always)]
    fn hook(
        &mut self,
        reader: &mut Reader,
        collected: &CollectedHead,
        ignore: bool,
        final_byte: u8,
    ) {
        reader.count_looks(1);
        let (intermediates, action) = (collected.intermediates.as_slice(), char::from(final_byte));
        Perform::hook(self, &collected.params, intermediates, ignore, action);
    }

    #[inline(always)]
    fn put_byte(&mut self, reader: &mut Reader, byte: u8) {
        reader.count_looks(1);
        ReceiveAs::<G>::put_byte(self, byte);
    }

    #[inline(always)]
    fn put_slice(&mut self, reader: &mut Reader, bytes: &[u8]) {
        reader.count_looks(bytes.len());
        ReceiveAs::<G>::put_slice(self, bytes);
    }

    #[inline(always)]
    fn unhook(&mut self, reader: &mut Reader) {
        reader.count_looks(1);
        Perform::unhook(self);
    }

    #[inline(always)]
    fn osc_dispatch(&mut self, reader: &mut Reader, pieces: &[&[u8]], bell_terminated: bool) {
        reader.count_looks(1);
        Perform::osc_dispatch(self, pieces, bell_terminated);
    }

    #[inline(always)]
    fn csi_dispatch(
        &mut self,
        reader: &mut Reader,
        collected: &CollectedHead,
        ignore: bool,
        final_byte: u8,
    ) {
        reader.count_looks(1);
        let (intermediates, action) = (collected.intermediates.as_slice(), char::from(final_byte));
        Perform::csi_dispatch(self, &collected.params, intermediates, ignore, action);
    }

    #[inline(always)]
    fn esc_dispatch(&mut self, reader: &mut Reader, collected: &CollectedHead, final_byte: u8) {
        reader.count_looks(1);
        let intermediates = collected.intermediates.as_slice();
        Perform::esc_dispatch(
            self,
            intermediates,
            collected.too_many_intermediates,
            final_byte,
        );
    }

    #[inline(always)]
    fn terminated(&self) -> bool {
        Perform::terminated(self)
    }
}
