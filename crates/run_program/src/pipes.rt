//! Standard output whose reader may have gone, and standard error that then says nothing.
ghost use Rattle.std.specs.Prelude.{◌≡◌, None};

use std::cell::Cell;
use std::io;
use text_devices::{DeviceFault, Sink};

/// A writer that notes whether one of its calls failed because the pipe is closed.
pub struct Piped<'a, W: io::Write + Drop> {
    inner: W,
    /// Whether the pipe is closed.
    is_closed: &'a Cell<bool>,
}

/// A sink for messages that drops them once the pipe is closed.
pub struct Hushed<'a, E: Sink + Drop> {
    inner: E,
    /// Whether the pipe is closed.
    is_closed: &'a Cell<bool>,
}

#[rattlefmt::skip]
impl<'a, W: io::Write + Drop> Drop for Piped<'a, W> {
    fn drop(self) { let Piped { inner: _, is_closed: _ } = self; }
}

#[rattlefmt::skip]
impl<'a, E: Sink + Drop> Drop for Hushed<'a, E> {
    fn drop(self) { let Hushed { inner: _, is_closed: _ } = self; }
}

impl<'a, W: io::Write + Drop> Piped<'a, W> {
    /// Returns the writer. It sets `is_closed` once the pipe is closed.
    pub fn new(inner: W, is_closed: &'a Cell<bool>) -> Piped<'a, W> {
        Piped { inner, is_closed }
    }
}

impl<'a, E: Sink + Drop> Hushed<'a, E> {
    /// Returns the sink. It drops what is written to it while `is_closed` is set.
    pub fn new(inner: E, is_closed: &'a Cell<bool>) -> Hushed<'a, E> {
        Hushed { inner, is_closed }
    }
}

impl<'a, W: io::Write + Drop> io::Write for Piped<'a, W> {
    ghost contents = { λ piped. W.contents piped.inner };

    fn write(&mut self, bytes: &[u8]) -> io::Result<usize> {
        match self.inner.write(bytes) {
            Ok(count) => Ok(count),
            Err(error) => {
                if error.kind() == io::ErrorKind::BrokenPipe {
                    self.is_closed.set(true);
                }
                Err(error)
            }
        }
    }

    fn flush(&mut self) -> io::Result<()> {
        self.inner.flush()
    }
}

impl<'a, E: Sink + Drop> Sink for Hushed<'a, E> {
    ghost written = { λ _. None };

    ghost has_failed = { λ hushed. E.has_failed hushed.inner };

    fn write(&mut self, bytes: &[u8]) -> Result<usize, DeviceFault> {
        if self.is_closed.get() {
            return Ok(bytes.len());
        }
        self.inner.write(bytes)
    }
}
