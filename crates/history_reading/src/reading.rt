//! The entries of a text that is passed in pieces.
ghost use Rattle.std.specs.Prelude.{◌≡◌, ◌∷◌, ◌++◌, ◌≤◌, ℕ, List, Ok, Err, Some, None, [], false, length, IfErr, IfOk, IfSome, IsNone, OnOk};
ghost use Rattle.model_jobs.specs.JobFiles.{fault_at};
ghost use Rattle.text_fields.specs.Commands.{IsRecordable, plain_command};
ghost use Rattle.text_fields.specs.KeptLines.{IsUnended};
ghost use Rattle.history_reading.specs.Readers.{HasFault, HasRead, HasTaken, IfRead, IsFaultOf, begun_of, lines_of, reading_behind};
ghost use Rattle.history_reading.specs.Readings.{Head, OfEntry, ends_with, next_in, reading_of};
ghost use Rattle.text_devices.specs.Ends.{end_fault, is_full, long_line};
ghost use Rattle.text_words.specs.RecordedWords.{IsNarrow, IsSized, plain_entry};

use crate::{RecordedEntry, quick_entry, read_entry, read_head};
use model_words::{FaultKind, TextFault};
use std::alloc::Global;
use text_devices::{BegunLine, end_fault, fault_at, long_line};
use text_fields::faults::{LineFault, ReadFault};
use text_fields::lines::cut;

/// A reader of a recorded history, after it has read a beginning of the text.
#[derive(Drop)]
pub struct EntryReader {
    /// The number of lines read so far.
    lines: u32,
    /// The beginning of the line whose end hasn't been read yet.
    begun: BegunLine,
    alloc: Global,
}

impl EntryReader {
    /// Returns a reader that has read nothing. The call allocates nothing.
    pub fn new(alloc: Global) -> EntryReader
        ensures lines { lines_of result ≡ 0 }
        ensures reads { (text : List ℕ) → reading_behind result text ≡ reading_of text }
    {
        EntryReader {
            lines: 0,
            begun: BegunLine::new(alloc),
            alloc,
        }
    }

    /// Returns the number of lines read so far. It is the line number of the last entry, counted from 1.
    pub fn lines(&self) -> u32
        ensures { result ≡ lines_of self.now }
    {
        self.lines
    }

    /// Reads `piece`, the next bytes of the text, up to the end of the next entry's line. Returns the entry, and the
    /// bytes of the piece after this line. Returns `None` if the piece ends before the line does. The reader then keeps
    /// the bytes of the unfinished line.
    ///
    /// Errors:
    ///
    /// - `Text`, if a line has a fault. Its kind is LONG_LINE as soon as more than 16,384 bytes of a line have been
    ///   read, and TOO_LONG if there are more than 4,294,967,295 lines.
    /// - `Memory`, if the allocation for an unfinished line or for more than 32 bytes failed.
    ///
    /// After an error, the reader must not be used.
    pub fn next<'a>(
        &mut self,
        piece: &'a [u8],
    ) -> Result<Option<(RecordedEntry, &'a [u8])>, ReadFault>
        ensures entry { IfRead result (HasRead self.old self.new piece.now) }
        ensures used_up { IfOk result (λ next. IsNone next → HasTaken self.old self.new piece.now) }
        ensures fault { IfErr result (HasFault self.old piece.now) }
    {
        if self.lines > 0 {
            return self.next_entry(piece);
        }
        let Some((last, rest)) = cut(piece, b'\n') else {
            self.keep(piece)?;
            return Ok(None);
        };
        self.end_head(last)?;
        self.next_entry(rest)
    }

    /// Does what `next` does, once the first line was read.
    fn next_entry<'a>(
        &mut self,
        piece: &'a [u8],
    ) -> Result<Option<(RecordedEntry, &'a [u8])>, ReadFault>
        requires later { 1 ≤ lines_of self.old }
        ensures entry { IfRead result (HasRead self.old self.new piece.now) }
        ensures used_up { IfOk result (λ next. IsNone next → HasTaken self.old self.new piece.now) }
        ensures fault { IfErr result (HasFault self.old piece.now) }
    {
        if let Some(read) = self.quick(piece) {
            return Ok(Some(read));
        }
        let Some((last, rest)) = cut(piece, b'\n') else {
            self.keep(piece)?;
            return Ok(None);
        };
        let entry = self.end_entry(last)?;
        Ok(Some((entry, rest)))
    }

    /// Returns the next entry and the bytes after its line, if `quick_entry` reads the entry from the piece. Returns
    /// `None`, and changes nothing, if `quick_entry` returns `None`, if the line begins before the piece, or if
    /// 4,294,967,295 lines were read already.
    fn quick<'a>(&mut self, piece: &'a [u8]) -> Option<(RecordedEntry, &'a [u8])>
        requires later { 1 ≤ lines_of self.old }
        ensures entry { IfSome result (λ read. HasRead self.old self.new piece.now read.0 read.1.now) }
        ensures none { IsNone result → self.new ≡ self.old }
    {
        if !self.begun.is_empty() || self.lines == u32::MAX {
            return None;
        }
        let (entry, rest) = quick_entry(piece)?;
        self.lines += 1;
        Some((entry, rest))
    }

    /// Reads the last bytes of the first line, and its line end.
    fn end_head(&mut self, last: &[u8]) -> Result<(), ReadFault>
        requires first { lines_of self.old ≡ 0 }
        requires unended { IsUnended last.now }
        ensures lines { OnOk result (lines_of self.new ≡ 1) }
        ensures taken { OnOk result (HasTaken self.old self.new (last.now ++ 10 ∷ [])) }
        ensures fault { IfErr result (HasFault self.old (last.now ++ 10 ∷ [])) }
    {
        if self.begun.is_empty() {
            head_at(last)?;
            self.lines = 1;
            return Ok(());
        }
        self.keep(last)?;
        head_at(self.begun.as_slice())?;
        self.begun.clear();
        self.lines = 1;
        Ok(())
    }

    /// Reads the last bytes of an entry's line, and its line end.
    fn end_entry(&mut self, last: &[u8]) -> Result<RecordedEntry, ReadFault>
        requires later { 1 ≤ lines_of self.old }
        requires unended { IsUnended last.now }
        ensures entry { IfOk result (λ entry. HasRead self.old self.new (last.now ++ 10 ∷ []) entry []) }
        ensures fault { IfErr result (HasFault self.old (last.now ++ 10 ∷ [])) }
    {
        if self.begun.is_empty() {
            let entry = entry_at(self.alloc, self.lines, last)?;
            self.lines += 1;
            return Ok(entry);
        }
        self.keep(last)?;
        let entry = entry_at(self.alloc, self.lines, self.begun.as_slice())?;
        self.begun.clear();
        self.lines += 1;
        Ok(entry)
    }

    /// Keeps bytes of a line whose end hasn't been read yet. The error is `Text` if the line gets too long, and
    /// `Memory` if an allocation fails.
    fn keep(&mut self, bytes: &[u8]) -> Result<(), ReadFault>
        requires unended { IsUnended bytes.now }
        ensures begun { OnOk result (begun_of self.new ≡ begun_of self.old ++ bytes.now) }
        ensures lines { OnOk result (lines_of self.new ≡ lines_of self.old) }
        ensures fault { IfErr result (HasFault self.old bytes.now) }
    {
        if bytes.len() > self.begun.room() {
            return Err(ReadFault::Text(long_line(self.lines)));
        }
        self.begun.add(bytes)?;
        Ok(())
    }

    /// Checks that the text may end here. The error is CUT if the text has no line, or ends within a line. If the text
    /// ends within the line after 4,294,967,295 lines, the error is TOO_LONG instead.
    pub fn finish(&self) -> Result<(), TextFault>
        ensures ok { OnOk result (reading_behind self.now [] ≡ ends_with None) }
        ensures some { OnOk result (1 ≤ lines_of self.now) }
        ensures fault { IfErr result (λ fault. reading_behind self.now [] ≡ ends_with (Some fault)) }
    {
        match end_fault(self.lines, self.begun.as_slice()) {
            None => Ok(()),
            Some(fault) => Err(fault),
        }
    }
}

/// Reads the first line.
fn head_at(line: &[u8]) -> Result<(), ReadFault>
    ensures ok { OnOk result (next_in 0 line.now ≡ Ok Head) }
    ensures fault { IfErr result (IsFaultOf (next_in 0 line.now)) }
{
    match read_head(line) {
        Ok(()) => Ok(()),
        Err(kind) => Err(ReadFault::Text(fault_at(1, kind))),
    }
}

/// Reads the line of an entry, after `lines` earlier lines.
fn entry_at(alloc: Global, lines: u32, line: &[u8]) -> Result<RecordedEntry, ReadFault>
    requires { 1 ≤ lines }
    ensures few { OnOk result (is_full lines ≡ false) }
    ensures ok { IfOk result (λ entry. next_in lines line.now ≡ Ok (OfEntry (plain_entry entry))) }
    ensures fault { IfErr result (IsFaultOf (next_in lines line.now)) }
    ensures in_range { IfOk result (λ entry. IsRecordable (plain_command entry.command)) }
    ensures sized { IfOk result (λ entry. IsSized (plain_command entry.command)) }
    ensures narrow { IfOk result (λ entry. IsNarrow entry.reply) }
{
    if lines == u32::MAX {
        return Err(ReadFault::Text(fault_at(0, FaultKind::TooLong)));
    }
    match read_entry(alloc, line) {
        Ok(entry) => Ok(entry),
        Err(LineFault::Kind(kind)) => Err(ReadFault::Text(fault_at(lines + 1, kind))),
        Err(LineFault::Memory) => Err(ReadFault::Memory),
    }
}
