//! The reader of job files.
ghost use Rattle.std.specs.Prelude.{◌≡◌, ◌+◌, ◌-◌, ◌<◌, ◌≤◌, ◌↔◌, List, ℕ, Ok, [], ◌++◌, None, drop, is_some, length, take, true, IfOk, IfErr, IfSome, OnOk};
ghost use Rattle.model_jobs.specs.JobFiles.{read_text};
ghost use Rattle.text_job.specs.Draft.{IsDraft, draft_of};
ghost use Rattle.text_job.specs.Faults.{IsReadFault};
ghost use Rattle.text_job.specs.Taken.{HasTaken, IsLeft, IsReadTo, IsReading, bytes_taken, is_over};

use crate::draft::Draft;
use crate::{Job, LineError};
use model_words::{FaultKind, TextFault};
use std::alloc::{AllocError, Global};
use text_fields::faults::ReadFault;

/// The greatest number of bytes of a job file.
pub const MAX_FILE_BYTES: usize = 1_048_576;

/// Reads a job file.
///
/// If the file has more than 1,048,576 bytes, the error is TOO_LONG with line 0. Otherwise the lines are read in order,
/// and the error is the first fault of the first line with a fault. The error has the line's number, from 1, and the
/// first kind of `FaultKind` that applies to the line. The error is `Memory` if a memory allocation for the job failed.
///
/// The format of the file is this project's own choice.
pub fn read_file(alloc: Global, bytes: &[u8]) -> Result<Job, ReadFault>
    ensures ok { IfOk result (λ job. read_text bytes.now ≡ Ok job) }
    ensures fault { IfErr result (IsReadFault bytes.now) }
    ensures too_long { (result ≡ Err (ReadFault.Text (record { line = 0; kind = FaultKind.TooLong })))
        ↔ (1048576 < length bytes.now) }
{
    Reading::new(alloc).finish(bytes)
}

/// A job file that is being read in pieces. After an allocation failure, reading can't go on.
pub struct Reading {
    /// The part of the job that was already read.
    draft: Draft,
    /// The number of the next line.
    number: u32,
    /// The number of bytes that were taken.
    taken: usize,
    /// The first fault of the file, if a fault was found.
    fault: Option<TextFault>,
}

#[rattlefmt::skip]
impl Drop for Reading {
    fn drop(self) { let Reading { draft: _, number: _, taken: _, fault: _ } = self; }
}

impl Reading {
    /// Returns a reading that has taken no byte of its file.
    pub fn new(alloc: Global) -> Self
        ensures { HasTaken result [] }
    {
        Reading {
            draft: Draft::new(alloc),
            number: 1,
            taken: 0,
            fault: None,
        }
    }

    /// Takes the whole lines at the start of the file's next bytes, and returns the number of bytes of these lines. At
    /// most 1,024 bytes are left, which begin a line. Pass them to the next call again, followed by the file's next
    /// bytes. If the file has a fault or its line `end` was taken, all bytes are taken.
    pub fn take(&mut self, bytes: &[u8]) -> Result<usize, AllocError>
        requires sound { IsReading self.old }
        requires most { bytes_taken self.old + length bytes.now ≤ 1048577 }
        ensures sound { OnOk result (IsReading self.new) }
        ensures taken { IfOk result
            (λ count. (text : List ℕ) → HasTaken self.old text → HasTaken self.new (text ++ take count bytes.now)) }
        ensures within { IfOk result (λ count. count ≤ length bytes.now) }
        ensures left { IfOk result (λ count. IsLeft self.new (drop count bytes.now)) }
        ensures all { IfOk result (λ count. is_over self.new ≡ true → count ≡ length bytes.now) }
    {
        let left = match self.fault {
            Some(_) => &[],
            None => self.take_lines(bytes)?,
        };
        let count = bytes.len() - left.len();
        self.taken += count;
        Ok(count)
    }

    /// Takes the whole lines at the start of some bytes, as `take` does, and returns the bytes that are left.
    fn take_lines<'a>(&mut self, bytes: &'a [u8]) -> Result<&'a [u8], AllocError>
        requires sound { IsReading self.old }
        requires going { self.old.fault ≡ None }
        requires most { bytes_taken self.old + length bytes.now ≤ 1048577 }
        ensures read { IfOk result (λ left. IsReadTo self.old bytes.now self.new left.now) }
        ensures left { IfOk result (λ left. IsLeft self.new left.now) }
        ensures all { IfOk result (λ left. is_over self.new ≡ true → left.now ≡ []) }
        ensures draft { OnOk result (self.new.fault ≡ None → IsDraft self.new.draft) }
        ensures fault { OnOk result (IfSome self.new.fault (λ fault. 1 ≤ fault.line)) }
        ensures numbered { OnOk result (1 ≤ self.new.number) }
        ensures counted { IfOk result (λ left. self.new.number + length left.now ≤ self.old.number + length bytes.now) }
        ensures taken { OnOk result (bytes_taken self.new ≡ bytes_taken self.old) }
    {
        let mut rest = bytes;
        while !self.draft.has_ended() {
            match self.draft.take_line(rest) {
                Ok(Some(behind)) => rest = behind,
                Ok(None) => return Ok(rest),
                Err(LineError::Kind(kind)) => {
                    self.fault = Some(self.fault_of_line(kind));
                    return Ok(&[]);
                }
                Err(LineError::Memory) => return Err(AllocError),
            }
            self.number += 1;
        }
        if !rest.is_empty() {
            self.fault = Some(self.fault_of_line(FaultKind::Trailing));
        }
        Ok(&[])
    }

    /// Returns a fault of this kind in the next line.
    fn fault_of_line(&self, kind: FaultKind) -> TextFault
        ensures { result ≡ record { line = self.now.number; kind = kind } }
    {
        TextFault {
            line: self.number,
            kind,
        }
    }

    /// Takes the last bytes of the file, and returns the file's job.
    ///
    /// The error is TOO_LONG, with line 0, if and only if the file has more than 1,048,576 bytes. Otherwise it is the
    /// first fault of the file's lines, or `Memory` if a memory allocation for the job failed.
    pub fn finish(mut self, rest: &[u8]) -> Result<Job, ReadFault>
        requires { IsReading self }
        ensures ok { IfOk result (λ job. (text : List ℕ) → HasTaken self text → read_text (text ++ rest.now) ≡ Ok job) }
        ensures fault { IfErr result
            (λ fault. (text : List ℕ) → HasTaken self text → IsReadFault (text ++ rest.now) fault) }
        ensures too_long { (result ≡ Err (ReadFault.Text (record { line = 0; kind = FaultKind.TooLong })))
            ↔ (1048576 < bytes_taken self + length rest.now) }
    {
        if self.taken.saturating_add(rest.len()) > MAX_FILE_BYTES {
            return Err(ReadFault::Text(TextFault {
                line: 0,
                kind: FaultKind::TooLong,
            }));
        }
        self.take(rest)?;
        if let Some(fault) = self.fault {
            return Err(ReadFault::Text(fault));
        }
        if !self.draft.has_ended() {
            return Err(ReadFault::Text(self.fault_of_line(FaultKind::Cut)));
        }
        let Reading {
            draft,
            number: _,
            taken: _,
            fault: _,
        } = self;
        Ok(draft.finish())
    }
}
