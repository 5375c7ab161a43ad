//! Readers and writers.
ghost use Rattle.std.specs.Io.KnownBytes.{Appends, Consumes, IsAtEnd, Keeps};
ghost use Rattle.std.specs.Prelude.{Bool, false, IfOk, is_err, is_some, IsTrue, length, List, Ok, OnErr, OnOk, Option, take, ℕ, ◌<◌, ◌≡◌, ◌≤◌};
ghost use Rattle.event_log.specs.Device.{device_failed, device_inner, KeepsWhereKnown, known_if_working};

use std::io::{self, Read, Write};

/// A source of bytes.
///
/// A source that has failed stays failed.
pub trait Source {
    /// The bytes still to come, if they are known.
    ghost remaining: { Self → Option (List ℕ) };

    /// Whether a read has failed.
    ghost has_failed: { Self → Bool };

    /// Reads the next bytes into the front of `buffer`, and returns how many. Reads 0 bytes only at
    /// the end or into an empty buffer.
    ///
    /// # Errors
    ///
    /// Fails if the source has failed. Then no byte is consumed.
    fn read(&mut self, buffer: &mut [u8]) -> Result<usize, ()>
        ensures fails { is_err result ≡ has_failed self.new }
        ensures stays_failed { IsTrue (has_failed self.old) → IsTrue (has_failed self.new) }
        ensures bound { IfOk result (λ count. count ≤ length buffer.new) }
        ensures moves { IfOk result (λ count.
            Consumes (remaining self.old) (remaining self.new) (take count buffer.new)) }
        ensures end { IfOk result (λ count. count ≡ 0 → 0 < length buffer.new
            → IsAtEnd (remaining self.new)) }
        ensures none_taken { OnErr result (KeepsWhereKnown (remaining self.old)
            (remaining self.new)) };
}

/// A destination for bytes.
///
/// A sink that has failed stays failed.
pub trait Sink {
    /// The bytes taken, if they are known.
    ghost contents: { Self → Option (List ℕ) };

    /// Whether a write or a flush has failed.
    ghost has_failed: { Self → Bool };

    /// Takes all of the bytes.
    ///
    /// # Errors
    ///
    /// Fails if the sink has failed. Some of the bytes may have been written.
    fn write_all(&mut self, bytes: &[u8]) -> Result<(), ()>
        ensures fails { is_err result ≡ has_failed self.new }
        ensures stays_failed { IsTrue (has_failed self.old) → IsTrue (has_failed self.new) }
        ensures appends { OnOk result (Appends (contents self.old) (contents self.new) bytes.now) };

    /// Passes on everything it has taken.
    ///
    /// # Errors
    ///
    /// Fails if the sink has failed.
    fn flush(&mut self) -> Result<(), ()>
        ensures fails { is_err result ≡ has_failed self.new }
        ensures stays_failed { IsTrue (has_failed self.old) → IsTrue (has_failed self.new) }
        ensures keeps { OnOk result (Keeps (contents self.old) (contents self.new)) }
        ensures adds_none { OnErr result (KeepsWhereKnown (contents self.old)
            (contents self.new)) };
}

/// A [`Read`] or [`Write`] of std as a [`Source`] or [`Sink`].
///
/// After the first error of the reader or writer inside, it has failed: every further call is an
/// error, and nothing is known of its bytes.
#[derive(Drop)]
pub struct Device<D> {
    inner: D,
    error: Option<io::Error>,
}

impl<D> Device<D> {
    /// Wraps a reader or writer.
    pub fn new(inner: D) -> Self
        ensures inner_is { device_inner result ≡ inner }
        ensures not_failed { device_failed result ≡ false }
    {
        Device { inner, error: None }
    }

    /// Returns the error by which it has failed.
    pub fn error(&self) -> Option<&io::Error>
        ensures fails { is_some result ≡ device_failed self.now }
    {
        self.error.as_ref()
    }

    /// Keeps the error of a call of the reader or writer inside, and returns what else it gave.
    fn keep_error<T>(&mut self, given: io::Result<T>) -> Result<T, ()>
        requires not_failed { device_failed self.old ≡ false }
        ensures same_inner { device_inner self.new ≡ device_inner self.old }
        ensures fails { is_err result ≡ device_failed self.new }
        ensures given { IfOk result (λ value. given ≡ Ok value) }
    {
        match given {
            Ok(value) => Ok(value),
            Err(error) => {
                self.error = Some(error);
                Err(())
            }
        }
    }
}

impl<D: Read> Source for Device<D> {
    ghost remaining = { λ device.
        known_if_working (device_failed device) (D.remaining device.inner) };

    ghost has_failed = { λ device. device_failed device };

    fn read(&mut self, buffer: &mut [u8]) -> Result<usize, ()> {
        if self.error.is_some() {
            return Err(());
        }
        let given = self.inner.read(buffer);
        self.keep_error(given)
    }
}

impl<D: Write> Sink for Device<D> {
    ghost contents = { λ device.
        known_if_working (device_failed device) (D.contents device.inner) };

    ghost has_failed = { λ device. device_failed device };

    fn write_all(&mut self, bytes: &[u8]) -> Result<(), ()> {
        if self.error.is_some() {
            return Err(());
        }
        let given = self.inner.write_all(bytes);
        self.keep_error(given)
    }

    fn flush(&mut self) -> Result<(), ()> {
        if self.error.is_some() {
            return Err(());
        }
        let given = self.inner.flush();
        self.keep_error(given)
    }
}
