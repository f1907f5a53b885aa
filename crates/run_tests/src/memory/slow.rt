//! `SlowSource`: a source that returns one byte per call, from its remaining `Bytes`.
ghost use Rattle.std.specs.Prelude.{◌≡◌, ◌≤◌, None, false, length};
ghost use Rattle.run_tests.specs.Slow.{slow_has_failed};

use run_program::{DeviceFault, Source};

/// Bytes that are read one at a time.
#[derive(Drop)]
pub struct Bytes<'a> {
    left: &'a [u8],
}

impl<'a> Bytes<'a> {
    /// Returns these bytes, to be read in order.
    pub fn new(left: &'a [u8]) -> Bytes<'a> {
        Bytes { left }
    }

    /// Writes the next byte into `buf`, if a byte is left and `buf` isn't empty. Returns the number of bytes written.
    pub fn give(&mut self, buf: &mut [u8]) -> usize
        ensures { result ≤ length buf.new }
    {
        if buf.is_empty() {
            return 0;
        }
        let Some((first, rest)) = self.left.split_first() else {
            return 0;
        };
        buf[0] = *first;
        self.left = rest;
        1
    }
}

/// A source that returns one byte per call, and fails once its calls are used up.
#[derive(Drop)]
pub struct SlowSource<'a> {
    bytes: Bytes<'a>,
    calls: usize,
    failed: bool,
}

impl<'a> SlowSource<'a> {
    /// Returns a source of these bytes that fails after `calls` calls.
    pub fn new(bytes: &'a [u8], calls: usize) -> SlowSource<'a>
        ensures { slow_has_failed result ≡ false }
    {
        SlowSource {
            bytes: Bytes::new(bytes),
            calls,
            failed: false,
        }
    }
}

impl Source for SlowSource<'_> {
    ghost remaining = { λ _. None };

    ghost has_failed = { slow_has_failed };

    fn read(&mut self, buf: &mut [u8]) -> Result<usize, DeviceFault> {
        if self.calls == 0 {
            self.failed = true;
            return Err(DeviceFault);
        }
        self.calls -= 1;
        Ok(self.bytes.give(buf))
    }
}
