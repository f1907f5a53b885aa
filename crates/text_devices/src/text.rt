//! A text in memory, read as a device.
ghost use Rattle.std.specs.Prelude.{◌≡◌, ◌||◌, Some, false, length};
ghost use Rattle.std.specs.Io.KnownBytes.{ReadConsumes};
ghost use Rattle.text_devices.specs.Devices.{is_read_fault};

use crate::{DeviceFault, Source};
use std::io::Read;

/// A text in memory as a device. No read of it fails.
pub struct TextSource<'a> {
    /// The part of the text that wasn't read yet.
    pub rest: &'a [u8],
}

#[rattlefmt::skip]
impl<'a> Drop for TextSource<'a> {
    fn drop(self) { let TextSource { rest: _ } = self; }
}

impl<'a> Source for TextSource<'a> {
    ghost remaining = { λ source. Some source.rest.now };

    ghost has_failed = { λ _. false };

    fn read(&mut self, buf: &mut [u8]) -> Result<usize, DeviceFault>
        ensures bytes { ReadConsumes (Some self.old.rest.now) (Some self.new.rest.now) result buf.new }
        ensures fails { false ≡ is_read_fault result (length buf.new) || false }
    {
        match self.rest.read(buf) {
            Ok(count) => Ok(count),
            Err(_) => Err(DeviceFault),
        }
    }
}
