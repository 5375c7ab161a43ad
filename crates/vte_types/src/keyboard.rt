//! Modes of the keyboard (the kitty keyboard protocol; xterm's modifyOtherKeys).
ghost use Rattle.std.specs.Int.RustNames.{bit_and, bit_or, bit_xor};
ghost use Rattle.std.specs.Prelude.{if◌then◌else◌, IsTrue, None, Some, ⊤, ◌==◌, ◌↔◌, ◌≡◌, ◌≢◌};
ghost use Rattle.vte_types.specs.Keyboard.{all_bits, bits_of, keyboard_flags, modes_of_bits, without};

// cargo: pub use crate::adapter::keyboard::KeyboardModes;
use bitflags::{Flag, Flags};

/// What a program asks the keyboard to report: the flags of the kitty keyboard protocol, one bit
/// per flag.
///
/// ```
/// let mut modes = KeyboardModes::DISAMBIGUATE_ESC_CODES;
/// modes.insert(KeyboardModes::REPORT_EVENT_TYPES);
/// assert_eq!(modes.bits(), 3);
/// assert_eq!(KeyboardModes::from_bits(32), None);
/// ```
#[derive(Default, Debug, Clone, Copy, PartialEq, Eq, Hash)]
// cargo lacks: `bitflags!` writes it
pub struct KeyboardModes(u8);

// cargo lacks: `bitflags!` writes it
impl KeyboardModes {
    /// No flag.
    pub const NO_MODE: KeyboardModes = KeyboardModes(0);

    /// Keys that would send a control or something like an escape sequence send an unambiguous
    /// sequence.
    pub const DISAMBIGUATE_ESC_CODES: KeyboardModes = KeyboardModes(1);

    /// Key repeats and releases are reported too.
    pub const REPORT_EVENT_TYPES: KeyboardModes = KeyboardModes(2);

    /// The key's shifted form and its position on the standard layout are reported too.
    pub const REPORT_ALTERNATE_KEYS: KeyboardModes = KeyboardModes(4);

    /// Keys that produce text send sequences too.
    pub const REPORT_ALL_KEYS_AS_ESC: KeyboardModes = KeyboardModes(8);

    /// The text that a key produces is reported with it.
    pub const REPORT_ASSOCIATED_TEXT: KeyboardModes = KeyboardModes(16);
}

/// The flags and their names.
// cargo lacks: `bitflags!` writes it
static FLAGS: [Flag<KeyboardModes>; 6] = [
    Flag {
        name: "NO_MODE",
        value: KeyboardModes::NO_MODE,
    },
    Flag {
        name: "DISAMBIGUATE_ESC_CODES",
        value: KeyboardModes::DISAMBIGUATE_ESC_CODES,
    },
    Flag {
        name: "REPORT_EVENT_TYPES",
        value: KeyboardModes::REPORT_EVENT_TYPES,
    },
    Flag {
        name: "REPORT_ALTERNATE_KEYS",
        value: KeyboardModes::REPORT_ALTERNATE_KEYS,
    },
    Flag {
        name: "REPORT_ALL_KEYS_AS_ESC",
        value: KeyboardModes::REPORT_ALL_KEYS_AS_ESC,
    },
    Flag {
        name: "REPORT_ASSOCIATED_TEXT",
        value: KeyboardModes::REPORT_ASSOCIATED_TEXT,
    },
];

/// The set operations. [`KeyboardModes`] also has them as methods of its own, with contracts.
// cargo lacks: `bitflags!` writes it
impl Flags for KeyboardModes {
    type Bits = u8;

    ghost exact = { ⊤ };

    ghost table = { keyboard_flags };

    ghost set_of = { bits_of };

    fn flags<'a>() -> &'a [Flag<KeyboardModes>] {
        &FLAGS
    }

    fn bits(&self) -> u8 {
        self.0
    }

    fn from_bits_retain(bits: u8) -> KeyboardModes {
        KeyboardModes(bits)
    }
}

/// The set operations of [`Flags`].
// cargo lacks: `bitflags!` writes it
impl KeyboardModes {
    /// No flag.
    pub fn empty() -> Self
        ensures { result ≡ modes_of_bits 0 }
    {
        Flags::empty()
    }

    /// Every flag.
    pub fn all() -> Self
        ensures { result ≡ modes_of_bits all_bits }
    {
        Flags::all()
    }

    /// Returns the bits.
    pub fn bits(&self) -> u8
        ensures { result ≡ bits_of self.now }
    {
        Flags::bits(self)
    }

    /// Returns exactly these bits, including those that belong to no flag.
    pub fn from_bits_retain(bits: u8) -> Self
        ensures { result ≡ modes_of_bits bits }
    {
        Flags::from_bits_retain(bits)
    }

    /// Returns exactly these bits, or `None` if one of them belongs to no flag.
    pub fn from_bits(bits: u8) -> Option<Self>
        ensures { result ≡ (if bit_and bits 0xe0 == 0 then Some (modes_of_bits bits) else None) }
    {
        Flags::from_bits(bits)
    }

    /// Returns these bits without those that belong to no flag.
    pub fn from_bits_truncate(bits: u8) -> Self
        ensures { result ≡ modes_of_bits (bit_and bits all_bits) }
    {
        Flags::from_bits_truncate(bits)
    }

    /// Returns whether no bit is set.
    pub fn is_empty(&self) -> bool
        ensures { IsTrue result ↔ (bits_of self.now ≡ 0) }
    {
        Flags::is_empty(self)
    }

    /// Returns whether every flag is set.
    pub fn is_all(&self) -> bool
        ensures { IsTrue result ↔ (bit_and (bits_of self.now) all_bits ≡ all_bits) }
    {
        Flags::is_all(self)
    }

    /// Returns whether every bit of `other` is set.
    pub fn contains(&self, other: Self) -> bool
        ensures { IsTrue result ↔ (bit_and (bits_of self.now) (bits_of other) ≡ bits_of other) }
    {
        Flags::contains(self, other)
    }

    /// Returns whether any bit of `other` is set.
    pub fn intersects(&self, other: Self) -> bool
        ensures { IsTrue result ↔ (bit_and (bits_of self.now) (bits_of other) ≢ 0) }
    {
        Flags::intersects(self, other)
    }

    /// Returns the bits of either.
    pub fn union(self, other: Self) -> Self
        ensures { result ≡ modes_of_bits (bit_or (bits_of self) (bits_of other)) }
    {
        Flags::union(self, other)
    }

    /// Returns the bits of both.
    pub fn intersection(self, other: Self) -> Self
        ensures { result ≡ modes_of_bits (bit_and (bits_of self) (bits_of other)) }
    {
        Flags::intersection(self, other)
    }

    /// Returns the bits that aren't in `other`.
    pub fn difference(self, other: Self) -> Self
        ensures { result ≡ modes_of_bits (without (bits_of self) (bits_of other)) }
    {
        Flags::difference(self, other)
    }

    /// Returns the bits that are in exactly one of the two.
    pub fn symmetric_difference(self, other: Self) -> Self
        ensures { result ≡ modes_of_bits (bit_xor (bits_of self) (bits_of other)) }
    {
        Flags::symmetric_difference(self, other)
    }

    /// Returns the flags that aren't set.
    pub fn complement(self) -> Self
        ensures { result ≡ modes_of_bits (without all_bits (bits_of self)) }
    {
        Flags::complement(self)
    }

    /// Sets the bits of `other`.
    pub fn insert(&mut self, other: Self)
        ensures { self.new ≡ modes_of_bits (bit_or (bits_of self.old) (bits_of other)) }
    {
        Flags::insert(self, other);
    }

    /// Clears the bits of `other`.
    pub fn remove(&mut self, other: Self)
        ensures { self.new ≡ modes_of_bits (without (bits_of self.old) (bits_of other)) }
    {
        Flags::remove(self, other);
    }

    /// Flips the bits of `other`.
    pub fn toggle(&mut self, other: Self)
        ensures { self.new ≡ modes_of_bits (bit_xor (bits_of self.old) (bits_of other)) }
    {
        Flags::toggle(self, other);
    }

    /// Sets the bits of `other` if `value` is true, and clears them otherwise.
    pub fn set(&mut self, other: Self, value: bool)
        ensures { self.new
            ≡ modes_of_bits (if value then bit_or (bits_of self.old) (bits_of other)
            else without (bits_of self.old) (bits_of other)) }
    {
        Flags::set(self, other, value);
    }
}

/// How a set of modes is applied to the current one (the kitty keyboard protocol).
#[derive(Default, Clone, Copy, PartialEq, Eq)]
// cargo: #[repr(u8)]
// cargo: #[derive(Debug)]
pub enum KeyboardModesApplyBehavior {
    /// Replace the current set.
    #[default]
    Replace,
    /// Add it to the current set.
    Union,
    /// Remove it from the current set.
    Difference,
}

/// Which keys are reported with their modifiers (xterm, modifyOtherKeys).
#[derive(Debug, Clone, Copy, PartialEq, Eq, Hash)]
// cargo: #[repr(u8)]
pub enum ModifyOtherKeys {
    /// None.
    Reset,
    /// All except those with a well-known meaning.
    EnableExceptWellDefined,
    /// All.
    EnableAll,
}
