//! The numbers of enums.

use std::fmt;
use vte::ansi::{
    CharsetIndex, ClearMode, CursorShape, LineClearMode, Mode, ModifyOtherKeys, PrivateMode,
    ScpCharPath, ScpUpdateMode, StandardCharset, TabulationClearMode,
};

/// An enum whose values have numbers: their indices, or what a sequence names them by.
pub trait Variant: fmt::Debug {
    /// Returns the number of this value.
    fn number(self) -> u64;
}

impl Variant for LineClearMode {
    #[inline(always)]
    fn number(self) -> u64 {
        self as u64
    }
}

impl Variant for ClearMode {
    #[inline(always)]
    fn number(self) -> u64 {
        self as u64
    }
}

impl Variant for TabulationClearMode {
    #[inline(always)]
    fn number(self) -> u64 {
        self as u64
    }
}

impl Variant for CursorShape {
    #[inline(always)]
    fn number(self) -> u64 {
        self as u64
    }
}

impl Variant for CharsetIndex {
    #[inline(always)]
    fn number(self) -> u64 {
        self as u64
    }
}

impl Variant for StandardCharset {
    #[inline(always)]
    fn number(self) -> u64 {
        self as u64
    }
}

impl Variant for ModifyOtherKeys {
    #[inline(always)]
    fn number(self) -> u64 {
        self as u64
    }
}

impl Variant for ScpCharPath {
    #[inline(always)]
    fn number(self) -> u64 {
        self as u64
    }
}

impl Variant for ScpUpdateMode {
    #[inline(always)]
    fn number(self) -> u64 {
        self as u64
    }
}

impl Variant for Mode {
    #[inline(always)]
    fn number(self) -> u64 {
        self.raw() as u64
    }
}

impl Variant for PrivateMode {
    #[inline(always)]
    fn number(self) -> u64 {
        self.raw() as u64
    }
}
