//! The entries of a history that is read from a device.
ghost use Rattle.std.specs.Prelude.{◌≡◌, ◌<◌, ◌≤◌, ◌∷◌, ◌++◌, ℕ, List, Option, Err, [], false, true, IfErr, IfOk, IfSome, IsNone, OnOk};
ghost use Rattle.model_memory.specs.Plain.{Entry};
ghost use Rattle.text_devices.specs.declared.faults.ReplayError.{ReplayError};
ghost use Rattle.text_fields.specs.Commands.{IsRecordable, plain_command};
ghost use Rattle.history_reading.specs.EntryInputs.{EndsWithFault, HasCome, HasEnded, HasStopped, IsFault, IsFresh, IsNext, IsUsedUp, MayEnd, lines_before};
ghost use Rattle.text_words.specs.RecordedWords.{IsNarrow, IsSized, plain_entry};

use crate::{EntryReader, RecordedEntry};
use std::alloc::{AllocError, Global};
use text_devices::{Pending, ReplayError, Source};
use text_fields::faults::ReadFault;

/// A recorded history that is being read from a device.
#[derive(Drop)]
pub struct HistoryInput {
    /// The state of the reader after the bytes so far.
    reader: EntryReader,
    /// The bytes that were read from the device, and that the reader hasn't consumed yet.
    pending: Pending,
}

impl HistoryInput {
    /// Returns a history of which nothing was read, and allocates the buffer for one read.
    pub fn new(alloc: Global) -> Result<HistoryInput, AllocError>
        ensures { IfOk result IsFresh }
    {
        Ok(HistoryInput {
            reader: EntryReader::new(alloc),
            pending: Pending::new(alloc)?,
        })
    }

    /// Returns the number of lines read so far. It is the line number of the last entry, counted from 1.
    pub fn lines(&self) -> u32
        ensures { result ≡ lines_before self.now }
    {
        self.reader.lines()
    }

    /// Returns the next entry of the history that is read from `input`, or `None` at the end of the history.
    ///
    /// Errors:
    ///
    /// - `Text`, if a line has a fault, if the text ends within a line, or if the text has no line.
    /// - `Read`, if and only if the input failed.
    /// - `Memory`, if an allocation failed.
    ///
    /// `Write` is never returned. After an error, the history must not be used.
    pub fn next<I: Source>(&mut self, input: &mut I) -> Result<Option<RecordedEntry>, ReplayError>
        requires { I.has_failed input.old ≡ false }
        ensures ok { OnOk result (I.has_failed input.new ≡ false) }
        ensures entry { (left : Option (List ℕ)) (entries : List Entry)
            → HasCome self.old left (I.remaining input.old) entries
            → IfOk result
            (λ next. IfSome next (λ entry.
            HasCome self.new left (I.remaining input.new) (entries ++ plain_entry entry ∷ []))) }
        ensures later { IfOk result (λ next. IfSome next (λ _. lines_before self.old < lines_before self.new)) }
        ensures in_range { IfOk result (λ next. IfSome next (λ entry. IsRecordable (plain_command entry.command))) }
        ensures sized { IfOk result (λ next. IfSome next (λ entry. IsSized (plain_command entry.command))) }
        ensures narrow { IfOk result (λ next. IfSome next (λ entry. IsNarrow entry.reply)) }
        ensures ended { (left : Option (List ℕ)) (entries : List Entry)
            → HasCome self.old left (I.remaining input.old) entries
            → IfOk result (λ next. IsNone next → HasEnded self.new left (I.remaining input.new) entries) }
        ensures fault { (left : Option (List ℕ)) (entries : List Entry)
            → HasCome self.old left (I.remaining input.old) entries
            → IfErr result (HasStopped left (I.remaining input.new) entries) }
        ensures read { result ≡ Err ReplayError.Read → I.has_failed input.new ≡ true }
        ensures failed { I.has_failed input.new ≡ true → result ≡ Err ReplayError.Read }
    {
        loop {
            if let Some(entry) = self.take()? {
                return Ok(Some(entry));
            }
            if !self.pending.read(input)? {
                self.finish()?;
                return Ok(None);
            }
        }
    }

    /// Returns the next entry of the pending bytes, or `None` if all pending bytes are consumed. The errors are those
    /// of `EntryReader::next`.
    fn take(&mut self) -> Result<Option<RecordedEntry>, ReadFault>
        ensures entry { IfOk result (λ next. IfSome next (IsNext self.old self.new)) }
        ensures used_up { IfOk result (λ next. IsNone next → IsUsedUp self.old self.new) }
        ensures fault { IfErr result (IsFault self.old) }
    {
        let Some((entry, rest)) = self.reader.next(self.pending.as_slice())? else {
            self.pending.keep_last(0);
            return Ok(None);
        };
        let left = rest.len();
        self.pending.keep_last(left);
        Ok(Some(entry))
    }

    /// Checks that the history may end here. The error is the fault of a text that ends here.
    fn finish(&self) -> Result<(), ReplayError>
        requires { self.now.pending ≡ [] }
        ensures ok { OnOk result (MayEnd self.now) }
        ensures fault { IfErr result (EndsWithFault self.now) }
    {
        match self.reader.finish() {
            Ok(()) => Ok(()),
            Err(fault) => Err(ReplayError::Text(fault)),
        }
    }
}
