//! `mesh_bits`, `mesh_arena`, `mesh_pagemap`, `mesh_store` and `mesh_bins`.
ghost use Rattle.std.specs.Prelude.{◌≡◌, ◌≢◌, ◌+◌, ◌<◌, ◌≤◌, false, length};
ghost use Rattle.mesh_arena.specs.Pages.{IsTaken};
ghost use Rattle.mesh_pagemap.specs.Entries.{IsMapped, is_mapped};
ghost use Rattle.mesh_store.specs.Places.{AreBacked, IsOpen};

use mesh_arena::{Arena, Page};
use mesh_bins::Bin;
use mesh_bits::Bits;
use mesh_pagemap::{PageMap, Prot};
use mesh_store::Store;
use std::alloc::{AllocError, Global};

pub fn bits(width: u32, i: u32) -> (Bits, u32, bool, bool)
    requires some { 1 ≤ width }
    requires most { width ≤ 256 }
    requires below { i < width }
{
    let mut set: Bits = Bits::new(width);
    let other: Bits = Bits::new(set.width());
    set.set(i);
    let has: bool = set.get(i);
    let apart: bool = set.disjoint(&other);
    let both: Bits = set.union(&other);
    set.clear(i);
    let count: u32 = set.count();
    (both, count, has, apart)
}

pub fn arena(alloc: Global, pages: u32) -> Result<u32, AllocError>
    requires some { 1 ≤ pages }
    requires few { pages ≤ 4096 }
{
    let mut arena: Arena = Arena::new(alloc, pages)?;
    let page: Option<Page> = arena.take();
    if let Some(page) = page {
        arena.give(page);
    }
    let free: u32 = arena.free_pages();
    Ok(free)
}

pub fn bytes_of_a_page(arena: &mut Arena, page: Page, off: u32, out: &mut [u8], bytes: &[u8])
    requires taken { IsTaken arena.old page }
    requires read { off + length out.old ≤ 4096 }
    requires written { off + length bytes.now ≤ 4096 }
{
    arena.read(page, off, out);
    arena.write(page, off, bytes);
}

pub fn bytes_of_two_pages(
    arena: &mut Arena,
    from: Page,
    from_off: u32,
    to: Page,
    to_off: u32,
    len: u32,
)
    requires from_taken { IsTaken arena.old from }
    requires to_taken { IsTaken arena.old to }
    requires apart { from ≢ to }
    requires from_fits { from_off + len ≤ 4096 }
    requires to_fits { to_off + len ≤ 4096 }
{
    arena.copy(from, from_off, to, to_off, len);
}

pub fn page_map(alloc: Global) -> Result<PageMap, AllocError> {
    PageMap::new(alloc)
}

pub fn map(map: &mut PageMap, vpage: u32, page: Page)
    requires first { 1 ≤ vpage }
    requires last { vpage ≤ 65535 }
    requires unmapped { is_mapped map.old vpage ≡ false }
{
    map.map(vpage, page, Prot::ReadWrite);
}

pub fn remap(map: &mut PageMap, vpage: u32, page: Page)
    requires first { 1 ≤ vpage }
    requires last { vpage ≤ 65535 }
    requires mapped { IsMapped map.old vpage }
{
    map.remap(vpage, page);
}

pub fn protect(map: &mut PageMap, vpage: u32)
    requires first { 1 ≤ vpage }
    requires last { vpage ≤ 65535 }
    requires mapped { IsMapped map.old vpage }
{
    map.protect(vpage, Prot::ReadOnly);
}

pub fn unmap(map: &mut PageMap, vpage: u32)
    requires first { 1 ≤ vpage }
    requires last { vpage ≤ 65535 }
    requires mapped { IsMapped map.old vpage }
{
    map.unmap(vpage);
}

pub fn lookup(map: &PageMap, vpage: u32) -> bool
    requires first { 1 ≤ vpage }
    requires last { vpage ≤ 65535 }
{
    let found: Option<(Page, Prot)> = map.lookup(vpage);
    match found {
        Some((_, Prot::ReadOnly)) => true,
        Some((_, Prot::ReadWrite)) | None => false,
    }
}

pub fn store(alloc: Global, pages: u32) -> Result<(Arena, PageMap), AllocError>
    requires some { 1 ≤ pages }
    requires few { pages ≤ 4096 }
{
    let Store { arena, map } = Store::open(alloc, pages)?;
    Ok((arena, map))
}

pub fn load(store: &Store, addr: u32, out: &mut [u8])
    requires some { 1 ≤ length out.old }
    requires few { length out.old ≤ 2048 }
    requires backed { AreBacked store.now.arena store.now.map addr (length out.old) }
{
    store.load(addr, out);
}

pub fn is_blocked(store: &Store, addr: u32, len: u32) -> bool
    requires some { 1 ≤ len }
    requires few { len ≤ 2048 }
    requires backed { AreBacked store.now.arena store.now.map addr len }
{
    store.blocked(addr, len)
}

pub fn save(store: &mut Store, addr: u32, bytes: &[u8])
    requires some { 1 ≤ length bytes.now }
    requires few { length bytes.now ≤ 2048 }
    requires backed { AreBacked store.old.arena store.old.map addr (length bytes.now) }
    requires open { IsOpen store.old.map addr (length bytes.now) }
{
    store.save(addr, bytes);
}

pub fn bin(alloc: Global, n: u32, from: u32) -> Result<(bool, Option<u32>), AllocError>
    requires { n < 65536 }
{
    let mut bin: Bin = Bin::new(alloc)?;
    bin.insert(n);
    let has: bool = bin.has(n);
    bin.remove(n);
    let least: Option<u32> = bin.least(from);
    Ok((has, least))
}
