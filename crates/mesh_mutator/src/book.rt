//! `Book`: a heap with its roots, driven by commands, and the journal of the answers.
ghost use Rattle.std.specs.Prelude.{◌≡◌, ◌≤◌, ◌↔◌, [], IfOk, length};
ghost use Rattle.model_words.specs.Commands.{IsInRange};
ghost use Rattle.model_memory.specs.Memory.{empty_memory};
ghost use Rattle.model_memory.specs.Plain.{IsLegal};
ghost use Rattle.model_heap.specs.Sound.{IsSound, IsTied};
ghost use Rattle.model_heap.specs.Table.{empty_table};
ghost use Rattle.mesh_mutator.specs.Attempts.{IsLook};
ghost use Rattle.mesh_mutator.specs.Book.{AddsEntry, IsAttempt, IsLooked, memory_in, memory_of_book, table_of_book};
ghost use Rattle.mesh_mutator.specs.Headline.{CouldBeAdded, EndsInMeaning, HasBytesApart, HasObjectsAtAddresses, IsHistory};
ghost use Rattle.mesh_mutator.specs.declared.attempts.Attempt.{Attempt};
ghost use Rattle.mesh_steps.specs.Always.{HasHeldPagesTaken, HasObjectsApart, HasPlacesApart, HasReadOnlyOfMeshes, LiesAsMeshesHaveIt};
ghost use Rattle.mesh_steps.specs.Heap.{arena_of};

mod mesher;

use crate::attempts::{address, get, peek, perform};
use crate::journal::Journal;
use crate::roots::Roots;
use crate::{Attempt, Command, Reply};
use mesh_steps::Heap;
use model_jobs::job_laws::answered_is_step;
use model_memory::address_laws::histories_keep_addresses;
use model_memory::history_laws::legal_histories;
use std::alloc::{AllocError, Global};
use std::marker::Model;

/// A heap, its root cells and the journal of all answered commands, in their order of effect.
pub struct Book {
    heap: Heap,
    roots: Roots,
    journal: Journal,
}

impl Model for Book {
    ghost use Rattle.mesh_mutator.specs.Book.{Book as State, IsBook, book_code};

    ghost Value = { State };

    ghost coded = { book_code };

    ghost view = { λ b. record { heap = b.heap; cells = b.roots; entries = b.journal.entries; room = b.journal.room } };

    ghost invariant = { λ b. IsBook
        (record { heap = b.heap; cells = b.roots; entries = b.journal.entries; room = b.journal.room }) };
}

#[rattlefmt::skip]
impl Drop for Book {
    fn drop(self) { let Book { heap: _, roots: _, journal: _ } = self; }
}

impl Book {
    /// Opens a book without objects over `pages` physical pages, 1 to 4,096. Its journal has room for `history`
    /// entries, 0 to 65,536. Returns an error if an allocation fails.
    pub fn open(alloc: Global, pages: u32, history: u32) -> Result<Book, AllocError>
        requires some { 1 ≤ pages }
        requires most { pages ≤ 4096 }
        requires limit { history ≤ 65536 }
        ensures memory { IfOk result (λ book. memory_of_book book ≡ empty_memory) }
        ensures table { IfOk result (λ book. table_of_book book ≡ empty_table pages) }
        ensures entries { IfOk result (λ book. book.entries ≡ []) }
        ensures room { IfOk result (λ book. book.room ≡ history) }
        ensures pages { IfOk result (λ book. length (arena_of book.heap) ≡ pages) }
    {
        let journal = Journal::with_capacity(alloc, history as usize)?;
        let heap = Heap::open(alloc, pages)?;
        Ok(Book {
            heap,
            roots: Roots::new(),
            journal,
        })
    }

    /// Returns the journal. Its entries are a legal history of the reference memory, and this history ends in the
    /// memory that heap and roots represent.
    pub fn journal(&self) -> &Journal
        ensures entries { result.now.entries ≡ self.now.entries }
        ensures room { result.now.room ≡ self.now.room }
        ensures legal { IsLegal result.now.entries (memory_of_book self.now) }
    {
        &self.journal
    }

    /// A shared reference to the heap, for queries.
    pub fn heap(&self) -> &Heap
        ensures { result.now ≡ self.now.heap }
    {
        &self.heap
    }

    /// Returns heap, root cells and journal by value.
    pub fn into_parts(self) -> (Heap, Roots, Journal)
        ensures heap { result.0 ≡ self.heap }
        ensures roots { result.1 ≡ self.cells }
        ensures entries { result.2.entries ≡ self.entries }
        ensures legal { IsLegal result.2.entries (memory_in result.0 result.1) }
        ensures short { length result.2.entries ≤ 65536 }
    {
        let Book {
            heap,
            roots,
            journal,
        } = self;
        (heap, roots, journal)
    }

    /// What holds of a book at any moment, after any calls of mutators and mesher in any order:
    ///
    /// - The journal is a legal history of the reference memory. It ends in the memory that heap and cells represent.
    /// - Each object that the journal says was made is live at the address of its `new`, or a later entry has freed it.
    /// - Two different bytes of live objects never share a place in physical memory, and no free page holds a live
    ///   object.
    /// - The read-only virtual pages are exactly those that the running meshes have protected.
    /// - The table is sound, and its records are those of the live objects.
    ///
    /// It follows that `step` is refused only if no mesh of the class runs. `cancel` is refused only in this case, or
    /// if a page was already remapped (`model_heap::mesh_laws`). `docs/PROOF.md` lists what to read to be sure of the
    /// headline.
    pub fn headline(&self)
        ensures legal { IsHistory self.now.entries }
        ensures ends { EndsInMeaning self.now }
        ensures addresses { HasObjectsAtAddresses self.now }
        ensures apart { HasBytesApart self.now.heap }
        ensures held { HasHeldPagesTaken self.now.heap }
        ensures read_only { HasReadOnlyOfMeshes self.now.heap }
        ensures sound { IsSound (table_of_book self.now) }
        ensures tied { IsTied (memory_of_book self.now) (table_of_book self.now) }
    {
        legal_histories();
        histories_keep_addresses();
        self.heap.always();
        self.heap.sound();
    }

    /// Invariants of the book's heap:
    ///
    /// - No two live objects share an address.
    /// - No two bytes of live objects share a place in physical memory.
    /// - No free page holds a live object.
    /// - The read-only virtual pages are exactly those that the running meshes have protected.
    /// - Groups, page map and arena agree with the progress of the running meshes.
    pub fn always(&self)
        ensures objects { HasObjectsApart self.now.heap }
        ensures places { HasPlacesApart self.now.heap }
        ensures held { HasHeldPagesTaken self.now.heap }
        ensures read_only { HasReadOnlyOfMeshes self.now.heap }
        ensures laid_out { LiesAsMeshesHaveIt self.now.heap }
    {
        self.heap.always();
    }

    /// Makes one attempt of a worker at a command. The result is the first of these that applies:
    ///
    /// - `HistoryFull`, if the journal has no room for a further entry.
    /// - `Done` with a refusal, if the command is refused.
    /// - `Blocked`, if a `Put`, `Poke` or `Copy` would write to a read-only page.
    /// - `OutOfMemory`, if a `New` needs a new span and an allocation for the span fails.
    /// - `Done` with the answer to the command.
    ///
    /// A `Done` attempt adds its entry to the journal. Any other attempt leaves the book unchanged.
    pub fn act(&mut self, worker: u32, command: &Command) -> Attempt
        requires { IsInRange command.now }
        ensures attempt { IsAttempt self.old self.new worker command.now result }
        ensures entry { AddsEntry self.old self.new worker command.now result }
        ensures full { (result ≡ Attempt.HistoryFull) ↔ (self.old.room ≤ length self.old.entries) }
    {
        if self.journal.is_full() {
            return Attempt::HistoryFull;
        }
        self.heap.sound();
        answered_is_step();
        legal_histories();
        let attempt = perform(&mut self.heap, &mut self.roots, command);
        if let Attempt::Done(reply) = &attempt {
            self.journal.push(worker, command, reply);
        }
        attempt
    }

    /// Returns the answer that a `Get`, a `Peek` or an `Addr` gets now. The command isn't recorded, but the journal
    /// would be legal with it.
    pub fn look(&self, command: &Command) -> Reply
        requires { IsLook command.now }
        ensures looked { IsLooked self.now.heap self.now.cells command.now result }
        ensures entry { CouldBeAdded self.now command.now result }
    {
        legal_histories();
        match command {
            Command::Get(cell, off, len) => get(&self.heap, &self.roots, *cell, *off, *len),
            Command::Addr(cell) => address(&self.heap, &self.roots, *cell),
            Command::Peek(addr) => peek(&self.heap, &self.roots, *addr),
            _ => unreachable!(),
        }
    }
}
