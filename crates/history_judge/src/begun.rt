//! `Begun`, a source whose first bytes can be inspected before they are read.
ghost use Rattle.std.specs.Prelude.{◌≡◌, [], IfErr, IfOk, OnOk, false, is_err, length, true};
ghost use Rattle.std.specs.Io.KnownBytes.{Keeps, prepend_known};
ghost use Rattle.text_devices.specs.Devices.{is_read_fault};
ghost use Rattle.history_judge.specs.Beginnings.{StartsOtherwise, StartsWith};
ghost use Rattle.text_devices.specs.declared.faults.ReplayError.{ReplayError};

use arrayvec::ArrayVec;
use text_devices::{DeviceFault, ReplayError, Source, read_some};

/// The number of bytes that are inspected: the length of the line `history 2` with its line end.
const LOOKED_AT: usize = 10;

/// A source, with the bytes that have been inspected but not yet read.
#[derive(Drop)]
pub struct Begun<I: Drop> {
    inner: I,
    begun: ArrayVec<u8, 10>,
}

impl<I: Source + Drop> Begun<I> {
    /// Returns a source of which no byte has been inspected.
    pub fn new(inner: I) -> Begun<I>
        ensures inner { result.inner ≡ inner }
        ensures unread { result.begun.items ≡ [] }
    {
        Begun {
            inner,
            begun: ArrayVec::new(),
        }
    }

    /// Returns the source, from which the bytes that were inspected but not read are lost.
    pub fn into_inner(self) -> I
        ensures { result ≡ self.inner }
    {
        self.inner
    }

    /// Whether the text begins with `bytes`, which should have ten bytes. If `bytes` has another length, the result may
    /// be `false` although the text begins with `bytes`. The call consumes nothing of the text.
    ///
    /// The only error is `Read`: the source failed.
    pub fn begins_with(&mut self, bytes: &[u8]) -> Result<bool, ReplayError>
        requires { I.has_failed self.old.inner ≡ false }
        ensures same { OnOk result
            (Keeps (prepend_known self.old.begun.items (I.remaining self.old.inner))
            (prepend_known self.new.begun.items (I.remaining self.new.inner))) }
        ensures begins { IfOk result
            (λ begins. begins ≡ true
            → StartsWith bytes.now (prepend_known self.old.begun.items (I.remaining self.old.inner))) }
        ensures other { IfOk result
            (λ begins. begins ≡ false → length bytes.now ≡ 10
            → StartsOtherwise bytes.now (prepend_known self.old.begun.items (I.remaining self.old.inner))) }
        ensures fault { IfErr result (λ error. error ≡ ReplayError.Read) }
        ensures fails { I.has_failed self.new.inner ≡ is_err result }
    {
        while self.begun.len() < LOOKED_AT {
            let mut next = [0; 1];
            if read_some(&mut self.inner, &mut next)? == 0 {
                break;
            }
            self.begun.push(next[0]);
        }
        Ok(self.begun.as_slice() == bytes)
    }
}

impl<I: Source + Drop> Source for Begun<I> {
    ghost remaining = { λ source. prepend_known source.begun.items (I.remaining source.inner) };

    ghost has_failed = { λ source. I.has_failed source.inner };

    fn read(&mut self, buf: &mut [u8]) -> Result<usize, DeviceFault> {
        if buf.is_empty() {
            return self.inner.read(buf);
        }
        match self.begun.pop_at(0) {
            Some(byte) => {
                buf[0] = byte;
                Ok(1)
            }
            None => self.inner.read(buf),
        }
    }
}
