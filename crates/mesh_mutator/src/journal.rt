//! `Journal`: all answered commands, in their order of effect.
ghost use Rattle.std.specs.Prelude.{◌≡◌, ◌<◌, ◌≤◌, ◌↔◌, ◌∷◌, [], ◌++◌, IfOk, IsTrue, false, length, slice_index_or, true};
ghost use Rattle.model_memory.specs.Plain.{Entry as PlainEntry};

use crate::packed_entry::PackedEntry;
use crate::{Command, Entry, Reply};
use mesh_packed::{MAX_BYTES, pack_command, pack_reply, unpack_command, unpack_reply};
use std::alloc::{AllocError, Global};
use std::marker::Model;

/// Answered commands with their replies, in their order of effect.
///
/// An entry takes 32 bytes. The bytes that commands store and replies load are in a separate list, in the order of the
/// entries. The room for entries and bytes is allocated once, when the journal is made.
pub struct Journal {
    entries: Vec<PackedEntry>,
    bytes: Vec<u8>,
    // The capacity in entries.
    room: usize,
}

impl Model for Journal {
    ghost use Rattle.std.specs.Prelude.{◌*◌, ◌≤◌, length, vec_capacity};
    ghost use Rattle.std.specs.List.{All};
    ghost use Rattle.mesh_mutator.specs.Journal.{Journal as State, journal_code};
    ghost use Rattle.mesh_mutator.specs.PackedEntries.{IsWithin, entries_in};

    ghost Value = { State };

    ghost coded = { journal_code };

    ghost view = { λ j. record { entries = entries_in j.bytes.items j.entries.items; room = j.room } };

    ghost invariant = { λ j. All (IsWithin (length j.bytes.items)) j.entries.items
        × (j.room ≤ vec_capacity j.entries) × (64 * j.room ≤ vec_capacity j.bytes)
        × (length j.bytes.items ≤ 64 * length j.entries.items) × (length j.entries.items ≤ j.room) × (j.room ≤ 65536) };
}

#[rattlefmt::skip]
impl Drop for Journal {
    fn drop(self) { let Journal { entries: _, bytes: _, room: _ } = self; }
}

impl Journal {
    /// Makes a journal without entries. It has room for `room` entries, at most 65,536. Returns an error if an
    /// allocation fails.
    pub(crate) fn with_capacity(alloc: Global, room: usize) -> Result<Journal, AllocError>
        requires { room ≤ 65536 }
        ensures entries { IfOk result (λ journal. journal.entries ≡ []) }
        ensures room { IfOk result (λ journal. journal.room ≡ room) }
    {
        Ok(Journal {
            entries: Vec::with_capacity(alloc, room)?,
            bytes: Vec::with_capacity(alloc, 2 * MAX_BYTES * room)?,
            room,
        })
    }

    /// The number of entries.
    pub fn len(&self) -> usize
        ensures value { result ≡ length self.now.entries }
        ensures fits { result ≤ self.now.room }
    {
        self.entries.len()
    }

    /// Whether the journal has no entries.
    pub fn is_empty(&self) -> bool
        ensures { IsTrue result ↔ (self.now.entries ≡ []) }
    {
        self.entries.is_empty()
    }

    /// Whether the journal has no room for a further entry.
    pub(crate) fn is_full(&self) -> bool
        ensures full { result ≡ true → self.now.room ≤ length self.now.entries }
        ensures free { result ≡ false → length self.now.entries < self.now.room }
    {
        self.entries.len() == self.room
    }

    /// Returns the worker of the entry at index `place`, counted from 0.
    pub fn worker(&self, place: usize) -> u32
        requires { place < length self.now.entries }
        ensures { (other : PlainEntry) → result ≡ (slice_index_or self.now.entries place other).worker }
    {
        self.entries[place].worker
    }

    /// Returns the entry at index `place`, counted from 0, without an allocation.
    pub fn entry(&self, place: usize) -> Entry
        requires { place < length self.now.entries }
        ensures { (other : PlainEntry) → result ≡ slice_index_or self.now.entries place other }
    {
        let entry = &self.entries[place];
        Entry {
            worker: entry.worker,
            command: unpack_command(self.bytes.as_slice(), &entry.command),
            reply: unpack_reply(self.bytes.as_slice(), &entry.reply),
        }
    }

    /// Adds the entry of a worker's command and its reply, without an allocation.
    pub(crate) fn push(&mut self, worker: u32, command: &Command, reply: &Reply)
        requires { length self.old.entries < self.old.room }
        ensures { self.new
            ≡ record {
              entries = self.old.entries
                  ++ record { worker = worker; command = command.now; reply = reply.now } ∷ [];
              room = self.old.room;
            } }
    {
        let command = pack_command(&mut self.bytes, command);
        let reply = pack_reply(&mut self.bytes, reply);
        self.entries.push_reserved(PackedEntry {
            command,
            reply,
            worker,
        });
    }
}
