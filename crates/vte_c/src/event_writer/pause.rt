//! The pause after a command that may have lost data, in which the parser is asked.
ghost use Rattle.std.specs.Prelude.{◌≡◌};
ghost use Rattle.vte_c.specs.private.Buffers.{buffers_of, paused_if, resumed};

use super::{EventWriter, MAX_DATA_PER_BYTE};
use crate::event;

impl EventWriter<'_> {
    /// Pauses if a command may have lost data, and keeps the index of its record.
    pub(super) fn pause_if(&mut self, may_have_lost: bool, command_index: usize)
        ensures { buffers_of self.new ≡ paused_if may_have_lost (buffers_of self.old) }
    {
        if may_have_lost {
            self.is_paused = true;
            self.command_index = command_index;
            self.full_at = 0;
        }
    }

    /// Goes on after a pause, and says in the record of the command whether it lost data.
    pub(super) fn resume(&mut self, lost_data: bool)
        ensures { buffers_of self.new ≡ resumed (buffers_of self.old) }
    {
        if self.is_paused {
            self.is_paused = false;
            if !self.has_stopped && self.data_capacity - self.data_used >= MAX_DATA_PER_BYTE {
                self.full_at = self.records.len().saturating_sub(1);
            }
            if lost_data {
                self.write_loss();
            }
        }
    }

    /// Says in the record of the last command that it lost data, if it was written.
    fn write_loss(&mut self)
        ensures { buffers_of self.new ≡ buffers_of self.old }
    {
        let index = self.command_index;
        if index < self.record_count
            && index < self.records.len()
            && self.records[index].kind == event::OSC
        {
            self.records[index] = self.records[index].with_loss();
        }
    }
}
