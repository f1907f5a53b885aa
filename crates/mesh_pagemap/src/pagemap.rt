//! The page map: a table with an entry for each virtual page.
ghost use Rattle.std.specs.Prelude.{◌≡◌, ℕ, ◌<◌, ◌≤◌, None, false, IfOk, IfSome, is_some, length, slice_index_or, vec_capacity, vec_len};
ghost use Rattle.std.specs.FinMap as map;
ghost use Rattle.mesh_pagemap.specs.Entries.{is_mapped, IsMapped, AreInRange, page_of, is_read_only, reads_only, page_in, prot_in, Maps, Unmaps, Remaps, Protects};

use crate::prot::Prot;
use mesh_arena::Page;
use std::alloc::{AllocError, Global};
use std::marker::Model;

/// The last virtual page that can be mapped. The first one is page 1, so no address is 0.
///
/// Both limits are this project's own choice.
pub const LAST_VIRTUAL_PAGE: u32 = 65535;

/// The contracts write 65535, so `LAST_VIRTUAL_PAGE` must be 65535.
const _: () = prove!(LAST_VIRTUAL_PAGE == 65535);

/// The number of entries that the table has room for. The entry of virtual page 0 is never used.
const TABLE_PLACES: usize = 65536;

/// The physical page and the protection of each mapped virtual page.
#[derive(Drop)]
pub struct PageMap {
    /// The entries, each at the index that is its virtual page's number. The entry at index 0 stays empty. The table
    /// ends with the highest page that was ever mapped, so memory above that page's entry isn't touched.
    table: Vec<Option<(Page, Prot)>>,
}

impl Model for PageMap {
    ghost use Rattle.std.specs.Prelude.{ℕ, ◌≤◌, vec_capacity};
    ghost use Rattle.std.specs.Ordering.{nat_cmp};
    ghost use Rattle.std.specs.FinMap as map;
    ghost use Rattle.std.specs.Coded.{coded_ℕ};
    ghost use Rattle.mesh_pagemap.specs.declared.prot.Prot.{Prot};
    ghost use Rattle.mesh_pagemap.specs.Entries.{entry_code};

    ghost Value = { map.FinMap nat_cmp (ℕ × Prot) };

    ghost coded = { map.code coded_ℕ entry_code };

    ghost use Rattle.mesh_pagemap.specs.Table.{mapping, IsTable};

    ghost view = { λ a. mapping a.table.items };

    ghost invariant = { λ a. IsTable a.table.items × (65536 ≤ vec_capacity a.table) };
}

#[tactic(auto, using(crate::proofs::Changes::entry_changes))]
impl PageMap {
    /// Creates an empty map. Allocates all the memory that the map will ever use. The only error is an allocation
    /// failure.
    pub fn new(alloc: Global) -> Result<PageMap, AllocError>
        ensures empty { IfOk result (λ m. m ≡ map.empty) }
        ensures unmapped { IfOk result (λ m. (v : ℕ) → is_mapped m v ≡ false) }
    {
        let table = Vec::with_capacity(alloc, TABLE_PLACES)?;
        Ok(PageMap { table })
    }

    /// Maps the unmapped virtual page `vpage` to a physical page, with this protection.
    pub fn map(&mut self, vpage: u32, page: Page, prot: Prot)
        requires first { 1 ≤ vpage }
        requires last { vpage ≤ 65535 }
        requires unmapped { is_mapped self.old vpage ≡ false }
        ensures entry { self.new ≡ map.insert self.old vpage (page, prot) }
        ensures maps { Maps self.old self.new vpage page prot }
    {
        reach(&mut self.table, vpage as usize);
        self.table[vpage as usize] = Some((page, prot));
    }

    /// Removes the entry of a mapped virtual page.
    pub fn unmap(&mut self, vpage: u32)
        requires first { 1 ≤ vpage }
        requires last { vpage ≤ 65535 }
        requires mapped { IsMapped self.old vpage }
        ensures entry { self.new ≡ map.remove self.old vpage }
        ensures unmaps { Unmaps self.old self.new vpage }
    {
        self.table[vpage as usize] = None;
    }

    /// Maps a mapped virtual page to another physical page. The protection stays the same.
    pub fn remap(&mut self, vpage: u32, page: Page)
        requires first { 1 ≤ vpage }
        requires last { vpage ≤ 65535 }
        requires mapped { IsMapped self.old vpage }
        ensures entry { self.new
            ≡ map.insert self.old vpage (page, prot_in (map.get self.old vpage)) }
        ensures remaps { Remaps self.old self.new vpage page }
    {
        let place = &mut self.table[vpage as usize];
        if let Some((_, prot)) = *place {
            *place = Some((page, prot));
        }
    }

    /// Changes the protection of a mapped virtual page. Its physical page stays the same.
    pub fn protect(&mut self, vpage: u32, prot: Prot)
        requires first { 1 ≤ vpage }
        requires last { vpage ≤ 65535 }
        requires mapped { IsMapped self.old vpage }
        ensures entry { self.new
            ≡ map.insert self.old vpage (page_in (map.get self.old vpage), prot) }
        ensures protects { Protects self.old self.new vpage prot }
    {
        let place = &mut self.table[vpage as usize];
        if let Some((page, _)) = *place {
            *place = Some((page, prot));
        }
    }

    /// Returns the physical page and the protection of a virtual page. Returns `None` if the virtual page is not
    /// mapped.
    pub fn lookup(&self, vpage: u32) -> Option<(Page, Prot)>
        requires first { 1 ≤ vpage }
        requires last { vpage ≤ 65535 }
        ensures entry { result ≡ map.get self.now vpage }
        ensures mapped { is_some result ≡ is_mapped self.now vpage }
        ensures page { IfSome result (λ entry. entry.0 ≡ page_of self.now vpage) }
        ensures read_only { IfSome result (λ entry.
            reads_only entry.1 ≡ is_read_only self.now vpage) }
        ensures range { AreInRange self.now }
    {
        entry_at(self.table.as_slice(), vpage as usize)
    }
}

/// Appends empty entries to a table until it has an entry at index `place`.
fn reach(table: &mut Vec<Option<(Page, Prot)>>, place: usize)
    requires within { place < 65536 }
    requires short { vec_len table.old ≤ 65536 }
    requires room { 65536 ≤ vec_capacity table.old }
    ensures reached { place < length table.new.items }
    ensures short { vec_len table.new ≤ 65536 }
    ensures room { vec_capacity table.new ≡ vec_capacity table.old }
    ensures same { (v : ℕ) → slice_index_or table.new.items v None ≡ slice_index_or table.old.items v None }
{
    while table.len() <= place {
        table.push_reserved(None);
    }
}

/// Returns the entry at an index of a table. Returns `None` if the entry is empty or the table ends before the index.
fn entry_at(table: &[Option<(Page, Prot)>], place: usize) -> Option<(Page, Prot)>
    ensures { result ≡ slice_index_or table.now place None }
{
    table.get(place).copied().flatten()
}
