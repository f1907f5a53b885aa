//! Reads the lines of a history from a device.
ghost use Rattle.std.specs.Prelude.{◌≡◌, ◌+◌, ◌-◌, ◌<◌, ◌≤◌, ◌∷◌, ◌++◌, ℕ, List, Option, None, Some, Err, [], false, true, length, IfErr, IfOk, OnOk, IsTrue};
ghost use Rattle.model_jobs.specs.JobFiles.{fault_at};
ghost use Rattle.text_devices.specs.declared.faults.ReplayError.{ReplayError};
ghost use Rattle.text_fields.specs.KeptLines.{IsUnended};
ghost use Rattle.text_devices.specs.Ends.{end_fault, long_line, too_long};
ghost use Rattle.text_devices.specs.LineInputs.{HasCome, HasEnded, HasStopped, IsFresh, line_of, lines_of, unread_of};
ghost use Rattle.text_devices.specs.LineSteps.{EndsWithFault, IsFaulty, IsNext, IsNotKept, IsUsedUp};

use crate::{BegunLine, Pending, ReplayError, Source};
use model_words::{FaultKind, TextFault};
use std::alloc::{AllocError, Global};
use text_fields::lines::{MAX_RECORDED_BYTES, cut, rest_fault};

/// The lines of a history that is read from a device, after a beginning of the text was read.
#[derive(Drop)]
pub struct LineInput {
    /// The number of lines read so far.
    lines: u32,
    /// The line that was read last. During a read, this field has the beginning of the next line.
    line: BegunLine,
    /// The bytes after this line that were already read from the device.
    pending: Pending,
}

impl LineInput {
    /// Creates an input of which nothing was read, and allocates the buffer for one read of the device.
    pub fn new(alloc: Global) -> Result<LineInput, AllocError>
        ensures { IfOk result IsFresh }
    {
        Ok(LineInput {
            lines: 0,
            line: BegunLine::new(alloc),
            pending: Pending::new(alloc)?,
        })
    }

    /// Returns the number of lines read so far. It is the number of the line that was read last, counted from 1.
    pub fn lines(&self) -> u32
        ensures { result ≡ lines_of self.now }
    {
        self.lines
    }

    /// Returns the line that was read last, without its line end. The line has at most 16,384 bytes.
    pub fn line(&self) -> &[u8]
        ensures is { result.now ≡ line_of self.now }
        ensures short { length result.now ≤ 16384 }
        ensures unended { IsUnended result.now }
    {
        self.line.as_slice()
    }

    /// Reads the next line, and returns `true`. Returns `false` at the end of the text.
    ///
    /// Errors:
    ///
    /// - `Text` with LONG_LINE, as soon as more than 16,384 bytes of the next line have been read.
    /// - `Text` with TOO_LONG and line 0, if 4,294,967,295 lines were read and there are more bytes.
    /// - `Text` with CUT, if the text ends within a line, or has no line.
    /// - `Read`, if and only if the input failed.
    /// - `Memory`, if an allocation failed.
    ///
    /// `Write` is never returned. After an error, the input must not be used.
    pub fn read_line<I: Source>(&mut self, input: &mut I) -> Result<bool, ReplayError>
        requires { I.has_failed input.old ≡ false }
        ensures ok { OnOk result (I.has_failed input.new ≡ false) }
        ensures line { (left : Option (List ℕ)) (lines : List (List ℕ))
            → HasCome self.old left (I.remaining input.old) lines
            → IfOk result
            (λ some. some ≡ true → HasCome self.new left (I.remaining input.new) (lines ++ line_of self.new ∷ [])) }
        ensures counted { IfOk result (λ some. some ≡ true → lines_of self.new ≡ lines_of self.old + 1) }
        ensures ended { (left : Option (List ℕ)) (lines : List (List ℕ))
            → HasCome self.old left (I.remaining input.old) lines
            → IfOk result (λ some. some ≡ false → HasEnded left (I.remaining input.new) lines) }
        ensures no_more { IfOk result (λ some. some ≡ false → lines_of self.new ≡ lines_of self.old) }
        ensures stopped { (left : Option (List ℕ)) (lines : List (List ℕ))
            → HasCome self.old left (I.remaining input.old) lines
            → IfErr result (HasStopped left (I.remaining input.new) lines) }
        ensures read { result ≡ Err ReplayError.Read → I.has_failed input.new ≡ true }
        ensures failed { I.has_failed input.new ≡ true → result ≡ Err ReplayError.Read }
        ensures unwritten { result ≡ Err ReplayError.Write → ⊥ }
    {
        self.line.clear();
        loop {
            if self.take_line()? {
                return Ok(true);
            }
            if !self.pending.read(input)? {
                self.finish()?;
                return Ok(false);
            }
        }
    }

    /// Moves the pending bytes of the line to `line`, and returns whether the end of the line was among the pending
    /// bytes. The errors are LONG_LINE, TOO_LONG and `Memory`, as in `read_line`.
    fn take_line(&mut self) -> Result<bool, ReplayError>
        ensures next { IfOk result (λ some. some ≡ true → IsNext self.old self.new) }
        ensures used_up { IfOk result (λ some. some ≡ false → IsUsedUp self.old self.new) }
        ensures fault { IfErr result (IsFaulty self.old) }
    {
        let bytes = self.pending.as_slice();
        if self.lines == u32::MAX && !bytes.is_empty() {
            return Err(ReplayError::Text(fault_at(0, FaultKind::TooLong)));
        }
        let Some((last, rest)) = cut(bytes, b'\n') else {
            keep(&mut self.line, self.lines, bytes)?;
            self.pending.keep_last(0);
            return Ok(false);
        };
        keep(&mut self.line, self.lines, last)?;
        let left = rest.len();
        self.pending.keep_last(left);
        self.lines += 1;
        Ok(true)
    }

    /// Checks that the text may end here. The error is the fault of a text that ends here.
    fn finish(&self) -> Result<(), ReplayError>
        ensures ok { OnOk result (end_fault (lines_of self.now) (line_of self.now) ≡ None) }
        ensures fault { IfErr result (EndsWithFault self.now) }
    {
        match end_fault(self.lines, self.line.as_slice()) {
            None => Ok(()),
            Some(fault) => Err(ReplayError::Text(fault)),
        }
    }
}

/// Adds bytes to the line that follows `lines` lines. The error is `Text` if the line gets too long, and `Memory` if an
/// allocation fails.
fn keep(line: &mut BegunLine, lines: u32, bytes: &[u8]) -> Result<(), ReplayError>
    requires { IsUnended bytes.now }
    ensures ok { OnOk result (line.new.bytes.items ≡ line.old.bytes.items ++ bytes.now) }
    ensures fault { IfErr result (IsNotKept lines (line.old.bytes.items ++ bytes.now)) }
{
    if bytes.len() > line.room() {
        return Err(ReplayError::Text(long_line(lines)));
    }
    line.add(bytes)?;
    Ok(())
}

/// Returns the fault of a text that ends after `lines` lines and the further bytes `rest`. Returns `None` if the text
/// may end there.
pub fn end_fault(lines: u32, rest: &[u8]) -> Option<TextFault>
    ensures { result ≡ end_fault lines rest.now }
{
    if rest.is_empty() {
        return if lines == 0 {
            Some(fault_at(1, FaultKind::Cut))
        } else {
            None
        };
    }
    if lines == u32::MAX {
        return Some(fault_at(0, FaultKind::TooLong));
    }
    Some(fault_at(lines + 1, rest_fault(rest, MAX_RECORDED_BYTES)))
}

/// Returns the fault for a line that has too many bytes. `lines` is the number of lines before it. The fault is
/// LONG_LINE, or TOO_LONG if there are already 4,294,967,295 lines, the greatest number.
pub fn long_line(lines: u32) -> TextFault
    ensures { result ≡ long_line lines }
{
    if lines == u32::MAX {
        return fault_at(0, FaultKind::TooLong);
    }
    fault_at(lines + 1, FaultKind::LongLine)
}

/// Returns the fault of this kind in the line with this number.
pub fn fault_at(line: u32, kind: FaultKind) -> TextFault
    ensures { result ≡ fault_at line kind }
{
    TextFault { line, kind }
}
