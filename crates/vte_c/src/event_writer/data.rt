//! The data of events: the groups of a sequence and the pieces of a command, written into the
//! caller's area.
ghost use Rattle.std.specs.List.{flat_map};
ghost use Rattle.std.specs.Prelude.{length, List, map, ℕ, ◌++◌, ◌≤◌};
ghost use Rattle.vte_c.specs.private.Buffers.{AreaHolds, Buffers, buffers_of};
ghost use Rattle.vte_c.specs.Record.{group_bytes, piece_bytes};

use super::{EventWriter, encode_single_number};
use crate::event::count_byte;
use vte_core::Params;

impl EventWriter<'_> {
    /// Writes groups into the area. Returns where they end.
    pub(super) fn write_groups(&mut self, params: &Params) -> usize
        ensures { AreaHolds (buffers_of self.old) self.new result
            (flat_map group_bytes params.now) }
    {
        let mut end = self.data_used;
        for group in params {
            end = self.write_group(end, group);
        }
        end
    }

    /// Writes a group into the area at `start`: its count of numbers, and two bytes for each.
    fn write_group(&mut self, start: usize, group: &[u16]) -> usize
        ensures { (buffers : Buffers) (text : List ℕ) → AreaHolds buffers self.old start text →
            AreaHolds buffers self.new result (text ++ group_bytes group.now) }
    {
        // Most groups have one number.
        if let [number] = group {
            return self.write(start, &encode_single_number(*number));
        }
        let mut end = self.write(start, &[count_byte(group.len())]);
        for number in group {
            end = self.write(end, &[(*number % 256) as u8, (*number / 256) as u8]);
        }
        end
    }

    /// Writes the pieces of a command into the area. Returns where they end.
    pub(super) fn write_pieces(&mut self, pieces: &[&[u8]]) -> usize
        ensures { AreaHolds (buffers_of self.old) self.new result (flat_map piece_bytes (map
            (λ piece. piece.now) pieces.now)) }
    {
        let mut end = self.data_used;
        for piece in pieces {
            end = self.write_piece(end, piece);
        }
        end
    }

    /// Writes a piece into the area at `start`, after four bytes with its length.
    fn write_piece(&mut self, start: usize, piece: &[u8]) -> usize
        ensures { (buffers : Buffers) (text : List ℕ) → AreaHolds buffers self.old start text →
            AreaHolds buffers self.new result (text ++ piece_bytes piece.now) }
    {
        let length = piece.len().min(u32::MAX as usize);
        let bytes = [
            (length % 256) as u8,
            (length / 256 % 256) as u8,
            (length / 65536 % 256) as u8,
            (length / 16777216) as u8,
        ];
        let end = self.write(start, &bytes);
        self.write(end, piece)
    }

    /// Writes bytes into the area at `start`, if they fit. Returns where they end, or would end.
    #[inline(always)]
    pub(super) fn write(&mut self, start: usize, bytes: &[u8]) -> usize
        ensures holds { (buffers : Buffers) (text : List ℕ)
            → AreaHolds buffers self.old start text →
            AreaHolds buffers self.new result (text ++ bytes.now) }
        ensures not_before_start { start ≤ result }
    {
        let end = start.saturating_add(bytes.len());
        if end <= self.data_capacity {
            self.area[start..end].copy_from_slice(bytes);
        }
        end
    }
}
