//! The devices from which a job is read and to which its answers are written.
ghost use Rattle.std.specs.Prelude.{◌≡◌, ◌||◌, ℕ, List, Option, Bool, length, false, true, is_err};
ghost use Rattle.std.specs.Io.KnownBytes.{ReadConsumes, WriteAppends};
ghost use Rattle.text_devices.specs.Devices.{has_failed_once, inner_of, is_read_fault, is_write_fault};

use std::io;

/// The failure of a call of a device.
#[derive(Clone, Copy, PartialEq, Eq)]
pub struct DeviceFault;

/// A device from which bytes are read.
pub trait Source {
    /// The bytes that the device has left, if they are known.
    ghost remaining: { Self → Option (List ℕ) };

    /// Whether a call of the device has failed.
    ghost has_failed: { Self → Bool };

    /// Reads bytes into the front of `buf`, and returns the number of these bytes: 0 at the end of the input.
    ///
    /// A call that returns a number above the length of `buf` counts as failed.
    fn read(&mut self, buf: &mut [u8]) -> Result<usize, DeviceFault>
        ensures bytes { ReadConsumes (remaining self.old) (remaining self.new) result buf.new }
        ensures fails { has_failed self.new ≡ is_read_fault result (length buf.new) || has_failed self.old };
}

/// A device to which bytes are written.
pub trait Sink {
    /// The bytes that the device has accepted, if they are known.
    ghost written: { Self → Option (List ℕ) };

    /// Whether a call of the device has failed.
    ghost has_failed: { Self → Bool };

    /// Writes bytes from the front of `bytes`, and returns the number of bytes that the device accepted.
    ///
    /// A call counts as failed if it returns 0 although `bytes` isn't empty, or a number above the length of `bytes`.
    fn write(&mut self, bytes: &[u8]) -> Result<usize, DeviceFault>
        ensures bytes { WriteAppends (written self.old) (written self.new) result bytes.now }
        ensures fails { has_failed self.new ≡ is_write_fault result (length bytes.now) || has_failed self.old };
}

/// A reader or a writer that stays failed: after a call has failed, each later call fails without calling the reader or
/// the writer.
#[derive(Drop)]
pub struct Device<D> {
    inner: D,
    failed: bool,
}

/// A reader as a source. A reader is, for example, a file or bytes in memory.
pub type Input<R> = Device<R>;

/// A writer as a sink. A writer is, for example, standard output, a file or bytes in memory.
pub type Output<W> = Device<W>;

impl<D> Device<D> {
    /// Returns the device of a reader or a writer. No call of the device has failed yet.
    pub fn new(inner: D) -> Self
        ensures inner { inner_of result ≡ inner }
        ensures fresh { has_failed_once result ≡ false }
    {
        Device {
            inner,
            failed: false,
        }
    }

    /// Returns the reader or the writer of the device. A writer contains the bytes that it accepted.
    pub fn into_inner(self) -> D
        ensures { result ≡ inner_of self }
    {
        self.inner
    }
}

impl<R: io::Read> Source for Device<R> {
    ghost remaining = { λ device. R.remaining (inner_of device) };

    ghost has_failed = { has_failed_once };

    fn read(&mut self, buf: &mut [u8]) -> Result<usize, DeviceFault>
        ensures bytes { ReadConsumes (R.remaining (inner_of self.old))
            (R.remaining (inner_of self.new)) result buf.new }
        ensures fails { has_failed_once self.new ≡ is_read_fault result (length buf.new) || has_failed_once self.old }
        ensures again { has_failed_once self.old ≡ true → (is_err result ≡ true) × (self.new ≡ self.old) }
    {
        if self.failed {
            return Err(DeviceFault);
        }
        match self.inner.read(buf) {
            Ok(count) => Ok(count),
            Err(_) => {
                self.failed = true;
                Err(DeviceFault)
            }
        }
    }
}

impl<W: io::Write> Sink for Device<W> {
    ghost written = { λ device. W.contents (inner_of device) };

    ghost has_failed = { has_failed_once };

    fn write(&mut self, bytes: &[u8]) -> Result<usize, DeviceFault>
        ensures bytes { WriteAppends (W.contents (inner_of self.old))
            (W.contents (inner_of self.new)) result bytes.now }
        ensures fails { has_failed_once self.new
            ≡ is_write_fault result (length bytes.now) || has_failed_once self.old }
        ensures again { has_failed_once self.old ≡ true → (is_err result ≡ true) × (self.new ≡ self.old) }
    {
        if self.failed {
            return Err(DeviceFault);
        }
        match self.inner.write(bytes) {
            Ok(0) => {
                self.failed = !bytes.is_empty();
                Ok(0)
            }
            Ok(count) => Ok(count),
            Err(_) => {
                self.failed = true;
                Err(DeviceFault)
            }
        }
    }
}
