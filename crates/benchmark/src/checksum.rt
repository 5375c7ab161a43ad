//! A performer that folds all events into a checksum, as cheaply as possible.
//!
//! bench/peer does the same for the crate.
use std::fmt;
use vte::{Params, Perform};

// The kinds of events, in bits above anything that is folded with them.
const PRINT: u64 = 1 << 32;

const EXECUTE: u64 = 2 << 32;

const HOOK: u64 = 3 << 32;

const PUT: u64 = 4 << 32;

const UNHOOK: u64 = 5 << 32;

const OSC_DISPATCH: u64 = 6 << 32;

const CSI_DISPATCH: u64 = 7 << 32;

const ESC_DISPATCH: u64 = 8 << 32;

/// The exclusive or of all numbers, and the sum of its values after each, which depends on the
/// order.
///
/// With a sum in the place of the exclusive or, LLVM would fold several events at once where it
/// sees them together.
#[derive(Drop)]
pub(crate) struct Checksum {
    parity: u64,
    sum: u64,
}

impl Checksum {
    pub(crate) fn new() -> Self {
        Checksum { parity: 0, sum: 0 }
    }

    #[inline(always)]
    pub(crate) fn fold(&mut self, number: u64) {
        self.parity ^= number;
        self.sum = self.sum.wrapping_add(self.parity);
    }

    fn fold_params(&mut self, params: &Params) {
        for group in params {
            self.fold(group.len() as u64);
            for number in group {
                self.fold(*number as u64);
            }
        }
    }

    fn fold_intermediates(&mut self, intermediates: &[u8], ignore: bool) {
        for byte in intermediates {
            self.fold(*byte as u64);
        }
        self.fold(ignore as u64);
    }

    /// Folds a piece of an operating system command: its length and the sum of its bytes.
    pub(crate) fn fold_piece(&mut self, piece: &[u8]) {
        self.fold(piece.len() as u64);
        let mut sum: u64 = 0;
        for byte in piece {
            sum = sum.wrapping_add(*byte as u64);
        }
        self.fold(sum);
    }
}

impl fmt::Display for Checksum {
    fn fmt<W: fmt::Write>(&self, f: &mut fmt::Formatter<W>) -> fmt::Result {
        let parity = self.parity;
        let sum = self.sum;
        write!(f, "{parity:016x} {sum:016x}")
    }
}

impl Perform for Checksum {
    ghost use Rattle.std.specs.Prelude.{false};

    // The benchmark compares it with the crate's checksum; no contract mentions it.
    ghost Value = { Unit };

    ghost value_of = { λ checksum. tt };

    ghost step = { λ value event. value };

    ghost is_terminated = { λ value. false };

    #[inline]
    fn print(&mut self, c: char) {
        self.fold(PRINT + c as u64);
    }

    #[inline]
    fn execute(&mut self, byte: u8) {
        self.fold(EXECUTE + byte as u64);
    }

    fn hook(&mut self, params: &Params, intermediates: &[u8], ignore: bool, action: char) {
        self.fold(HOOK + action as u64);
        self.fold_params(params);
        self.fold_intermediates(intermediates, ignore);
    }

    #[inline]
    fn put(&mut self, byte: u8) {
        self.fold(PUT + byte as u64);
    }

    fn unhook(&mut self) {
        self.fold(UNHOOK);
    }

    fn osc_dispatch(&mut self, params: &[&[u8]], bell_terminated: bool) {
        self.fold(OSC_DISPATCH + bell_terminated as u64);
        for piece in params {
            self.fold_piece(piece);
        }
    }

    fn csi_dispatch(&mut self, params: &Params, intermediates: &[u8], ignore: bool, action: char) {
        self.fold(CSI_DISPATCH + action as u64);
        self.fold_params(params);
        self.fold_intermediates(intermediates, ignore);
    }

    fn esc_dispatch(&mut self, intermediates: &[u8], ignore: bool, byte: u8) {
        self.fold(ESC_DISPATCH + byte as u64);
        self.fold_intermediates(intermediates, ignore);
    }

    #[inline]
    fn terminated(&self) -> bool {
        false
    }
}
