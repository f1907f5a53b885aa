//! `Kept`, a source that keeps what is read from it.
ghost use Rattle.std.specs.Prelude.{◌≡◌, Some, None, [], ◌++◌, IfSome, option_map};
ghost use Rattle.run_program.specs.Kept.{IsKept, kept_of};

use std::alloc::Global;
use text_devices::{DeviceFault, Source};

/// The greatest number of bytes that are kept: one more than a job file may have.
const MOST_KEPT: usize = 1_048_577;

/// A source, and the text that was read from it so far. A text of more than 1,048,577 bytes isn't kept, nor is one for
/// which an allocation fails.
#[derive(Drop)]
pub struct Kept<I: Drop> {
    inner: I,
    /// The bytes that were read, unless `is_whole` is false.
    text: Vec<u8>,
    is_whole: bool,
}

impl<I: Source + Drop> Kept<I> {
    /// Returns a source of which nothing was read. The call allocates nothing.
    pub fn new(alloc: Global, inner: I) -> Kept<I>
        ensures inner { result.inner ≡ inner }
        ensures empty { kept_of result.is_whole result.text.items ≡ Some [] }
    {
        Kept {
            inner,
            text: Vec::new(alloc),
            is_whole: true,
        }
    }

    /// Returns the text that was read so far. Returns `None` if it wasn't kept.
    pub fn text(&self) -> Option<&[u8]>
        ensures { option_map (λ text. text.now) result ≡ kept_of self.now.is_whole self.now.text.items }
    {
        if self.is_whole {
            Some(self.text.as_slice())
        } else {
            None
        }
    }

    /// Keeps bytes that were read.
    fn keep(&mut self, bytes: &[u8])
        ensures inner { self.new.inner ≡ self.old.inner }
        ensures kept { IsKept (kept_of self.old.is_whole self.old.text.items)
            (kept_of self.new.is_whole self.new.text.items) bytes.now }
    {
        if self.text.len() > MOST_KEPT || bytes.len() > MOST_KEPT - self.text.len() {
            self.is_whole = false;
            return;
        }
        if self.text.extend_from_slice(bytes).is_err() {
            self.is_whole = false;
        }
    }
}

impl<I: Source + Drop> Source for Kept<I> {
    ghost remaining = { λ source. I.remaining source.inner };

    ghost has_failed = { λ source. I.has_failed source.inner };

    fn read(&mut self, buf: &mut [u8]) -> Result<usize, DeviceFault> {
        let count = self.inner.read(buf)?;
        if count <= buf.len() {
            self.keep(&buf[..count]);
        }
        Ok(count)
    }
}
