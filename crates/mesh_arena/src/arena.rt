//! The arena: its frames, and the number of free frames.
ghost use Rattle.std.specs.Prelude.{◌≡◌, ◌≢◌, ℕ, ◌+◌, ◌<◌, ◌≤◌, length, replicate, IfOk, IfSome, IfNone, IsSome, false, slice_set, slice_range, unwrap_or, []};
ghost use Rattle.mesh_arena.specs.Pages.{IsTaken, is_taken, byte_at, free_count, lowest_free, content, bytes_of, blank_page, with_run, with_copy, run_of, Takes, Gives, Writes};

use crate::frames::Frames;
use crate::page::Page;
use std::alloc::{AllocError, Global};
use std::marker::Model;

/// The greatest number of pages of an arena: 4,096 pages are 16 MiB. This project's own choice.
pub const MAX_PAGES: u32 = 4096;

/// The contracts write 4,096, so `MAX_PAGES` must be 4,096.
const _: () = prove!(MAX_PAGES == 4096);

/// An arena of physical pages, each free or taken.
#[derive(Drop)]
pub struct Arena {
    /// The frames of the pages, in the order of the page numbers.
    frames: Frames,
    /// The number of free frames.
    free: u32,
}

impl Model for Arena {
    ghost use Rattle.std.specs.Prelude.{ℕ, List, Option};

    ghost Value = { List (Option (List ℕ)) };

    ghost use Rattle.mesh_arena.specs.Tied.{IsTied};

    ghost view = { λ arena. arena.frames };

    ghost invariant = { λ arena. IsTied arena.frames arena.free };
}

impl Arena {
    /// Creates an arena of `pages` free pages, from 1 to 4,096.
    ///
    /// Allocates all the memory that the arena will ever use. The only error is an allocation failure.
    pub fn new(alloc: Global, pages: u32) -> Result<Arena, AllocError>
        requires some { 1 ≤ pages }
        requires few { pages ≤ 4096 }
        ensures pages { IfOk result (λ arena. arena ≡ replicate pages None) }
        ensures length { IfOk result (λ arena. length arena ≡ pages) }
        ensures free { IfOk result (λ arena. free_count arena ≡ pages) }
        ensures untaken { IfOk result (λ arena. (p : ℕ) → is_taken arena p ≡ false) }
    {
        Ok(Arena {
            frames: Frames::new(alloc, pages as usize)?,
            free: pages,
        })
    }

    /// Takes the free page with the lowest number, and fills it with zeros.
    ///
    /// Returns `None` if and only if no page is free. The arena is then unchanged.
    pub fn take(&mut self) -> Option<Page>
        ensures page { result ≡ lowest_free self.old }
        ensures taken { IfSome result (λ page.
            self.new ≡ slice_set self.old page (Some blank_page)) }
        ensures takes { IfSome result (Takes self.old self.new) }
        ensures none { IfNone result (self.new ≡ self.old) }
        ensures full { IfNone result (free_count self.old ≡ 0) }
        ensures some { 0 < free_count self.old → IsSome result }
    {
        if self.free == 0 {
            return None;
        }
        let place = self.frames.first_free();
        self.frames.take(place);
        self.free -= 1;
        Some(Page::numbered(place as u16))
    }

    /// Frees a taken page.
    pub fn give(&mut self, page: Page)
        requires { IsTaken self.old page }
        ensures free { self.new ≡ slice_set self.old page None }
        ensures gives { Gives self.old self.new page }
    {
        self.frames.give(page.index());
        self.free += 1;
    }

    /// Fills `out` with the bytes of a taken page that begin at offset `off`.
    pub fn read(&self, page: Page, off: u32, out: &mut [u8])
        requires taken { IsTaken self.now page }
        requires fits { off + length out.old ≤ 4096 }
        ensures bytes { out.new
            ≡ slice_range (bytes_of self.now page) off (off + length out.old) }
        ensures run { out.new ≡ run_of (byte_at self.now page) off (length out.old) }
        ensures sized { length (bytes_of self.now page) ≡ 4096 }
    {
        let start = off as usize;
        let bytes = self.frames.bytes(page.index());
        out.copy_from_slice(&bytes[start..start + out.len()]);
    }

    /// Writes bytes into a taken page, starting at offset `off`.
    pub fn write(&mut self, page: Page, off: u32, bytes: &[u8])
        requires taken { IsTaken self.old page }
        requires fits { off + length bytes.now ≤ 4096 }
        ensures bytes { self.new ≡ slice_set self.old page (Some
            (with_run (bytes_of self.old page) off bytes.now)) }
        ensures writes { Writes self.old self.new page off bytes.now }
    {
        let place = page.index();
        self.frames.write(place, off as usize, bytes);
    }

    /// Copies `len` bytes from one taken page to another taken page.
    pub fn copy(&mut self, from: Page, from_off: u32, to: Page, to_off: u32, len: u32)
        requires from_taken { IsTaken self.old from }
        requires to_taken { IsTaken self.old to }
        requires apart { from ≢ to }
        requires from_fits { from_off + len ≤ 4096 }
        requires to_fits { to_off + len ≤ 4096 }
        ensures bytes { self.new ≡ slice_set self.old to (Some
            (with_copy (bytes_of self.old to) to_off (bytes_of self.old from) from_off len)) }
        ensures writes { Writes self.old self.new to to_off
            (run_of (byte_at self.old from) from_off len) }
    {
        self.frames.copy(
            from.index(),
            from_off as usize,
            to.index(),
            to_off as usize,
            len as usize,
        );
    }

    /// Whether the page with this number is taken. `false` if the number isn't below the arena's number of pages.
    pub fn is_taken(&self, number: u32) -> bool
        ensures { result ≡ is_taken self.now number }
    {
        self.frames.is_taken(number as usize)
    }

    /// Returns the number of taken pages.
    pub fn taken_pages(&self) -> u32
        ensures { result + free_count self.now ≡ length self.now }
    {
        self.frames.count() as u32 - self.free
    }

    /// Returns the number of free pages.
    pub fn free_pages(&self) -> u32
        ensures { result ≡ free_count self.now }
    {
        self.free
    }
}
