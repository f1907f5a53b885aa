//! Loads and stores of ranges of addresses, in one run of bytes for each page that a range touches.
ghost use Rattle.std.specs.Prelude.{◌≡◌, ℕ, ◌+◌, ◌<◌, ◌≤◌, ◌/◌, ◌%◌, ◌↔◌, false, length, replicate, slice_index, IfOk, IsTrue, None};
ghost use Rattle.std.specs.Bool.{OnFalse};
ghost use Rattle.std.specs.FinMap as map;
ghost use Rattle.mesh_arena.specs.Pages.{is_taken, free_count, run_of};
ghost use Rattle.mesh_pagemap.specs.Entries.{is_mapped, IsMapped, page_of, is_read_only, reads_only};
ghost use Rattle.mesh_store.specs.Places.{byte_of, AreBacked, IsBlocked, IsOpen, Saves};

use mesh_arena::{Arena, PAGE_BYTES, Page};
use mesh_pagemap::{PageMap, Prot};
use std::alloc::{AllocError, Global};

/// Physical memory and the page map over it.
#[derive(Drop)]
pub struct Store {
    /// The physical pages.
    pub arena: Arena,
    /// The page map: the physical page and the protection of each mapped virtual page.
    pub map: PageMap,
}

/// The virtual page of an address.
fn vpage_of(addr: u32) -> u32
    ensures { result ≡ addr / 4096 }
{
    addr / PAGE_BYTES as u32
}

/// An address's offset in its virtual page.
fn offset_of(addr: u32) -> u32
    ensures { result ≡ addr % 4096 }
{
    addr % PAGE_BYTES as u32
}

/// Returns how many of the `len` bytes from address `addr` on are in the virtual page of `addr`.
fn len_in_page(addr: u32, len: usize) -> usize
    ensures short { result ≤ len }
    ensures inside { addr % 4096 + result ≤ 4096 }
    ensures whole { result < len → addr % 4096 + result ≡ 4096 }
    ensures some { 0 < len → 0 < result }
{
    len.min(PAGE_BYTES - offset_of(addr) as usize)
}

/// The physical page and the protection of a mapped virtual page.
fn entry_of(map: &PageMap, vpage: u32) -> (Page, Prot)
    requires first { 1 ≤ vpage }
    requires last { vpage ≤ 65535 }
    requires mapped { IsMapped map.now vpage }
    ensures page { result.0 ≡ page_of map.now vpage }
    ensures read_only { reads_only result.1 ≡ is_read_only map.now vpage }
{
    map.lookup(vpage).unwrap()
}

/// Whether a mapped virtual page is read-only.
fn is_page_read_only(map: &PageMap, vpage: u32) -> bool
    requires first { 1 ≤ vpage }
    requires last { vpage ≤ 65535 }
    requires mapped { IsMapped map.now vpage }
    ensures { result ≡ is_read_only map.now vpage }
{
    let (_, prot) = entry_of(map, vpage);
    prot == Prot::ReadOnly
}

/// Reads bytes that are all in one page.
fn load_run(arena: &Arena, map: &PageMap, addr: u32, out: &mut [u8])
    requires some { 0 < length out.old }
    requires inside { addr % 4096 + length out.old ≤ 4096 }
    requires backed { AreBacked arena.now map.now addr (length out.old) }
    ensures { (k : ℕ) → k < length out.old
        → slice_index out.new k ≡ byte_of arena.now map.now (addr + k) }
{
    let (page, _) = entry_of(map, vpage_of(addr));
    arena.read(page, offset_of(addr), out);
}

/// Writes bytes that are all in one page.
fn save_run(arena: &mut Arena, map: &PageMap, addr: u32, bytes: &[u8])
    requires some { 0 < length bytes.now }
    requires inside { addr % 4096 + length bytes.now ≤ 4096 }
    requires backed { AreBacked arena.old map.now addr (length bytes.now) }
    ensures { Saves arena.old arena.new map.now addr bytes.now }
{
    let (page, _) = entry_of(map, vpage_of(addr));
    arena.write(page, offset_of(addr), bytes);
}

impl Store {
    /// Creates a store of `pages` free physical pages, from 1 to 4,096, with no virtual page mapped.
    ///
    /// `open` allocates all memory that the store will ever use. Returns an error if an allocation fails.
    pub fn open(alloc: Global, pages: u32) -> Result<Store, AllocError>
        requires some { 1 ≤ pages }
        requires few { pages ≤ 4096 }
        ensures arena { IfOk result (λ store. store.arena ≡ replicate pages None) }
        ensures pages { IfOk result (λ store. length store.arena ≡ pages) }
        ensures free { IfOk result (λ store. free_count store.arena ≡ pages) }
        ensures untaken { IfOk result (λ store. (p : ℕ) → is_taken store.arena p ≡ false) }
        ensures map { IfOk result (λ store. store.map ≡ map.empty) }
        ensures unmapped { IfOk result (λ store. (v : ℕ) → is_mapped store.map v ≡ false) }
    {
        let arena = Arena::new(alloc, pages)?;
        let map = PageMap::new(alloc)?;
        Ok(Store { arena, map })
    }

    /// Fills `out`, a slice of 1 to 2,048 bytes, with the bytes from address `addr` on.
    pub fn load(&self, addr: u32, out: &mut [u8])
        requires some { 1 ≤ length out.old }
        requires few { length out.old ≤ 2048 }
        requires backed { AreBacked self.now.arena self.now.map addr (length out.old) }
        ensures each { (k : ℕ) → k < length out.old
            → slice_index out.new k ≡ byte_of self.now.arena self.now.map (addr + k) }
        ensures run { out.new ≡ run_of (byte_of self.now.arena self.now.map) addr (length out.old) }
    {
        let first = len_in_page(addr, out.len());
        let (head, tail) = out.split_at_mut(first);
        load_run(&self.arena, &self.map, addr, head);
        if !tail.is_empty() {
            load_run(&self.arena, &self.map, addr + first as u32, tail);
        }
    }

    /// Whether a store to the `len` bytes from address `addr` on is blocked: a virtual page of this range is read-only.
    pub fn blocked(&self, addr: u32, len: u32) -> bool
        requires some { 1 ≤ len }
        requires few { len ≤ 2048 }
        requires backed { AreBacked self.now.arena self.now.map addr len }
        ensures blocked { IsTrue result ↔ IsBlocked self.now.map addr len }
        ensures open { OnFalse result (IsOpen self.now.map addr len) }
    {
        let last = addr + (len - 1);
        is_page_read_only(&self.map, vpage_of(addr)) || is_page_read_only(&self.map, vpage_of(last))
    }

    /// Writes `bytes`, a slice of 1 to 2,048 bytes, from address `addr` on. No page of this range may be read-only.
    pub fn save(&mut self, addr: u32, bytes: &[u8])
        requires some { 1 ≤ length bytes.now }
        requires few { length bytes.now ≤ 2048 }
        requires backed { AreBacked self.old.arena self.old.map addr (length bytes.now) }
        requires open { IsOpen self.old.map addr (length bytes.now) }
        ensures map { self.new.map ≡ self.old.map }
        ensures saves { Saves self.old.arena self.new.arena self.old.map addr bytes.now }
    {
        let first = len_in_page(addr, bytes.len());
        let (head, tail) = bytes.split_at(first);
        save_run(&mut self.arena, &self.map, addr, head);
        if !tail.is_empty() {
            save_run(&mut self.arena, &self.map, addr + first as u32, tail);
        }
    }
}
