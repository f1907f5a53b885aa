//! `Tracked`: the reference memory of a history, kept in trees.
ghost use Rattle.std.specs.Prelude.{◌≡◌, true, ◌^◌, ◌+◌, ◌-◌, ◌≤◌, ◌<◌, Ok, Err, Some, None, IfOk, IfErr, OnOk, OnErr, IfSome, IsNone, IsTrue, [], ◌∷◌, ◌++◌, length, slice_range};
ghost use Rattle.std.specs.Ordering.{nat_cmp};
ghost use Rattle.std.specs.BTreeMap.{get};
ghost use Rattle.model_words.specs.declared.commands.Command.{Command};
ghost use Rattle.model_words.specs.declared.commands.Reply.{Reply};
ghost use Rattle.model_words.specs.declared.refusals.Refusal.{Refusal};
ghost use Rattle.model_memory.specs.Memory.{has_address, root_of};
ghost use Rattle.model_memory.specs.Plain.{IsVacantRange, holding, made, named_by, plain};
ghost use Rattle.model_history.specs.Recorded.{Recorded, any_allocator, nothing_recorded};
ghost use Rattle.history_number_set.specs.Ranges.{Has};
ghost use Rattle.history_in_order.specs.Cells.{IsHeld, number_at};
ghost use Rattle.history_in_order.specs.Lines.{IsOfLive, MakesAtMost, MakesNone};
ghost use Rattle.history_in_order.specs.declared.cells.Held.{Held};
ghost use Rattle.history_in_order.specs.Stands.{IsCopied, IsDone, IsGone, IsOverlapped, IsPossible, IsRefused, Stands};

use crate::cells::{Cells, Held};
use crate::faults::CommandError;
use crate::maps::{nearest, set, set_start, store};
use crate::reasons::{AddressRange, Overlap};
use crate::sparse::SparseBytes;
use crate::stored::Stored;
use history_bytes::RecordedBytes;
use history_number_set::NumberSet;
use model_words::Refusal;
use std::alloc::{AllocError, Global};
use std::collections::BTreeMap;

/// The reference memory after the entries so far.
///
/// Objects are numbered in the order in which they were made. A cell holds the number of an object. Live objects don't
/// overlap.
///
/// The memory that a `Tracked` takes depends on the live objects, on the cells, and on the number of ranges of used
/// serials. It doesn't depend on the number of objects made.
pub struct Tracked {
    /// The live objects by number.
    pub(crate) objects: BTreeMap<u32, Stored>,
    /// The number of each live object, by its address.
    pub(crate) starts: BTreeMap<u64, u32>,
    /// The contents of each cell.
    pub(crate) cells: Cells,
    /// The serials that were used.
    pub(crate) serials: NumberSet,
    /// The number of objects made so far.
    pub(crate) made: u32,
    alloc: Global,
}

#[rattlefmt::skip]
impl Drop for Tracked {
    fn drop(self) { let Tracked { objects: _, starts: _, cells: _, serials: _, made: _, alloc: _ } = self; }
}

impl Tracked {
    /// Returns the memory before any entry. Nothing is allocated.
    pub fn new(alloc: Global) -> Tracked
        ensures stands { Stands result (nothing_recorded any_allocator) }
        ensures none { result.made ≡ 0 }
    {
        Tracked {
            objects: BTreeMap::new(alloc),
            starts: BTreeMap::new(alloc),
            cells: Cells::new(alloc),
            serials: NumberSet::new(alloc),
            made: 0,
            alloc,
        }
    }

    /// The content of a cell. The error is EMPTY if no number was stored in it.
    fn root(&self, cell: u32) -> Result<Held, Refusal>
        ensures held { IfOk result (λ held. IsHeld self.now.cells cell (Some held)) }
        ensures none { OnErr result (IsHeld self.now.cells cell None) }
        ensures refusal { IfErr result (λ refusal. refusal ≡ Refusal.Empty) }
    {
        match self.cells.held(cell) {
            Some(held) => Ok(held),
            None => Err(Refusal::Empty),
        }
    }

    /// Returns the live object whose number a cell holds, with the number. The error is FREED if the object is no
    /// longer live.
    fn object(&self, held: Held) -> Result<(u32, &Stored), Refusal>
        ensures live { IfOk result (λ found. get nat_cmp self.now.objects found.0 ≡ Some found.1.now) }
        ensures number { IfOk result (λ found. held ≡ Held.Number found.0) }
        ensures none { OnErr result (IsGone self.now held) }
        ensures refusal { IfErr result (λ refusal. refusal ≡ Refusal.Freed) }
    {
        let Held::Number(number) = held else {
            return Err(Refusal::Freed);
        };
        match self.objects.get(&number) {
            Some(object) => Ok((number, object)),
            None => Err(Refusal::Freed),
        }
    }

    /// The live object that a cell names, with its number. The error is the first that applies, in this order: EMPTY,
    /// FREED.
    pub(crate) fn named(&self, cell: u32) -> Result<(u32, &Stored), Refusal>
        ensures named { IfOk result
            (λ found. (r : Recorded) → Stands self.now r
            → named_by r.memory cell ≡ Ok (record { serial = found.0; object = found.1.now.object })) }
        ensures live { IfOk result (λ found. get nat_cmp self.now.objects found.0 ≡ Some found.1.now) }
        ensures number { IfOk result (λ found. number_at self.now.cells cell ≡ Some found.0) }
        ensures refusal { IfErr result
            (λ refusal. (r : Recorded) → Stands self.now r → named_by r.memory cell ≡ Err refusal) }
    {
        let held = self.root(cell)?;
        let (number, object) = self.object(held)?;
        Ok((number, object))
    }

    /// The live object that contains an address, with its number. The error is STRAY if no object contains it.
    pub(crate) fn holding(&self, address: u64) -> Result<(u32, &Stored), Refusal>
        ensures held { IfOk result
            (λ found. (r : Recorded) → Stands self.now r
            → holding r.memory address ≡ Ok (record { serial = found.0; object = found.1.now.object })) }
        ensures live { IfOk result (λ found. get nat_cmp self.now.objects found.0 ≡ Some found.1.now) }
        ensures within { IfOk result (λ found. has_address found.1.now.object address ≡ true) }
        ensures refusal { IfErr result
            (λ refusal. (r : Recorded) → Stands self.now r → holding r.memory address ≡ Err refusal) }
    {
        let Some(number) = nearest(&self.starts, address) else {
            return Err(Refusal::Stray);
        };
        let Some(object) = self.objects.get(&number) else {
            return Err(Refusal::Stray);
        };
        if !object.has_address(address) {
            return Err(Refusal::Stray);
        }
        Ok((number, object))
    }

    /// Loads `len` bytes from offset `off` of the object that `cell` names. The error is the first that applies, in
    /// this order: EMPTY, FREED, OUTSIDE, Memory.
    pub fn get(&self, cell: u32, off: u64, len: u32) -> Result<RecordedBytes, CommandError>
        requires { len ≤ 4096 }
        ensures bytes { IfOk result
            (λ bytes. (r : Recorded) → Stands self.now r
            → plain r.memory 0 (Command.Get cell off len) ≡ Ok (Reply.Bytes bytes, r.memory)) }
        ensures refused { IfErr result (IsRefused self.now self.now (Command.Get cell off len)) }
        ensures memory { result ≡ Err CommandError.Memory → IsPossible self.now (Command.Get cell off len) }
    {
        let (_, object) = self.named(cell)?;
        if object.ends_outside(off, len) {
            return Err(CommandError::Refused(Refusal::Outside));
        }
        Ok(object.bytes.load(self.alloc, off, len)?)
    }

    /// Whether `get` returns these bytes. Nothing is allocated. The contract states only what `true` means.
    pub fn has_bytes(&self, cell: u32, off: u64, len: u32, bytes: &RecordedBytes) -> bool
        ensures { IsTrue result
            → (r : Recorded) → Stands self.now r
            → plain r.memory 0 (Command.Get cell off len) ≡ Ok (Reply.Bytes bytes.now, r.memory) }
    {
        let Ok((_, object)) = self.named(cell) else {
            return false;
        };
        bytes.len() == len as usize
            && !object.ends_outside(off, len)
            && object.bytes.has(off, bytes.as_slice())
    }

    /// The address of the object that `cell` names. The error is the first that applies, in this order: EMPTY, FREED.
    pub fn addr(&self, cell: u32) -> Result<u64, Refusal>
        ensures address { IfOk result
            (λ address. (r : Recorded) → Stands self.now r
            → plain r.memory 0 (Command.Addr cell) ≡ Ok (Reply.At address, r.memory)) }
        ensures refusal { IfErr result
            (λ refusal. (r : Recorded) → Stands self.now r → plain r.memory 0 (Command.Addr cell) ≡ Err refusal) }
    {
        let (_, object) = self.named(cell)?;
        Ok(object.address)
    }

    /// Loads the byte at an address. The error is STRAY if no live object contains it.
    pub fn peek(&self, address: u64) -> Result<u8, Refusal>
        ensures byte { IfOk result
            (λ byte. (r : Recorded) → Stands self.now r
            → plain r.memory 0 (Command.Peek address) ≡ Ok (Reply.Byte byte, r.memory)) }
        ensures refusal { IfErr result
            (λ refusal. (r : Recorded) → Stands self.now r → plain r.memory 0 (Command.Peek address) ≡ Err refusal) }
    {
        let (_, object) = self.holding(address)?;
        Ok(object.byte(object.offset_of(address)))
    }

    /// Stores bytes in the object that `cell` names, from offset `off` on, for the entry on a line. The error is the
    /// first that applies, in this order: EMPTY, FREED, OUTSIDE, Memory.
    pub fn put(
        &mut self,
        line: u32,
        cell: u32,
        off: u64,
        bytes: &RecordedBytes,
    ) -> Result<(), CommandError>
        ensures done { OnOk result (IsDone self.old self.new (Command.Put cell off bytes.now)) }
        ensures refused { IfErr result (IsRefused self.old self.new (Command.Put cell off bytes.now)) }
        ensures memory { result ≡ Err CommandError.Memory → IsPossible self.old (Command.Put cell off bytes.now) }
        ensures made { self.new.made ≡ self.old.made }
        ensures lined { OnOk result (MakesNone self.old self.new) }
    {
        let (number, object) = self.named(cell)?;
        if object.ends_outside(off, bytes.len() as u32) {
            return Err(CommandError::Refused(Refusal::Outside));
        }
        store(&mut self.objects, number, off, bytes.as_slice(), line)?;
        Ok(())
    }

    /// Frees the object that `cell` names. The cell keeps its number. The error is the first that applies, in this
    /// order: EMPTY, FREED, Memory.
    pub fn free(&mut self, cell: u32) -> Result<(), CommandError>
        ensures done { OnOk result (IsDone self.old self.new (Command.Free cell)) }
        ensures refused { IfErr result (IsRefused self.old self.new (Command.Free cell)) }
        ensures memory { result ≡ Err CommandError.Memory → IsPossible self.old (Command.Free cell) }
        ensures made { self.new.made ≡ self.old.made }
        ensures lined { OnOk result (MakesNone self.old self.new) }
    {
        let (number, object) = self.named(cell)?;
        let address = object.address;
        self.cells.free(cell)?;
        self.objects.remove(&number);
        self.starts.remove(&address);
        Ok(())
    }

    /// Stores in `to` the number that `from` holds. The error is the first that applies, in this order: EMPTY (the cell
    /// `from`), FREED (the object of `from`), Memory.
    pub fn alias(&mut self, to: u32, from: u32) -> Result<(), CommandError>
        ensures done { OnOk result (IsDone self.old self.new (Command.Alias to from)) }
        ensures refused { IfErr result (IsRefused self.old self.new (Command.Alias to from)) }
        ensures memory { result ≡ Err CommandError.Memory → IsPossible self.old (Command.Alias to from) }
        ensures made { self.new.made ≡ self.old.made }
        ensures lined { OnOk result (MakesNone self.old self.new) }
    {
        let (number, _) = self.named(from)?;
        self.cells.point(to, number)?;
        Ok(())
    }

    /// Stores a byte at an address, for the entry on a line. The error is STRAY if no live object contains the address,
    /// or else Memory.
    pub fn poke(&mut self, line: u32, address: u64, byte: u8) -> Result<(), CommandError>
        ensures done { OnOk result (IsDone self.old self.new (Command.Poke address byte)) }
        ensures refused { IfErr result (IsRefused self.old self.new (Command.Poke address byte)) }
        ensures memory { result ≡ Err CommandError.Memory → IsPossible self.old (Command.Poke address byte) }
        ensures made { self.new.made ≡ self.old.made }
        ensures lined { OnOk result (MakesNone self.old self.new) }
    {
        let (number, object) = self.holding(address)?;
        let off = object.offset_of(address);
        store(&mut self.objects, number, off, &[byte], line)?;
        Ok(())
    }

    /// Copies `len` bytes from offset `from_off` of the object that `from` names to offset `to_off` of the object that
    /// `to` names, for the entry on a line. If the two ranges overlap, the copied bytes are those that the source range
    /// had before the copy.
    ///
    /// The error is the first that applies, in this order: EMPTY (either cell), FREED (either object), OUTSIDE (either
    /// range), Memory.
    pub fn copy(
        &mut self,
        line: u32,
        to: u32,
        to_off: u64,
        from: u32,
        from_off: u64,
        len: u32,
    ) -> Result<(), CommandError>
        requires { len ≤ 4096 }
        ensures done { OnOk result (IsDone self.old self.new (Command.Copy to to_off from from_off len)) }
        ensures refused { IfErr result (IsRefused self.old self.new (Command.Copy to to_off from from_off len)) }
        ensures memory { result ≡ Err CommandError.Memory
            → IsPossible self.old (Command.Copy to to_off from from_off len) }
        ensures made { self.new.made ≡ self.old.made }
        ensures lined { OnOk result (MakesNone self.old self.new) }
    {
        let (number, source) = self.copied((to, to_off), (from, from_off), len)?;
        let bytes = source.bytes.load(self.alloc, from_off, len)?;
        store(&mut self.objects, number, to_off, bytes.as_slice(), line)?;
        Ok(())
    }

    /// Returns the number of the object that a copy changes, and the object that has the copied bytes. `to` and `from`
    /// are each a cell and an offset. The error is the first that applies, in this order: EMPTY, FREED, OUTSIDE.
    fn copied(&self, to: (u32, u64), from: (u32, u64), len: u32) -> Result<(u32, &Stored), Refusal>
        ensures copied { IfOk result
            (λ found. IsCopied self.now (Command.Copy to.0 to.1 from.0 from.1 len) found.0 to.1
            (slice_range found.1.now.object.bytes from.1 (from.1 + len))) }
        ensures fits { IfOk result (λ found. from.1 + len ≤ length found.1.now.object.bytes) }
        ensures refusal { IfErr result
            (λ refusal. (r : Recorded) → Stands self.now r
            → plain r.memory 0 (Command.Copy to.0 to.1 from.0 from.1 len) ≡ Err refusal) }
    {
        let target = self.root(to.0)?;
        let source = self.root(from.0)?;
        let (number, into) = self.object(target)?;
        let (_, out_of) = self.object(source)?;
        if into.ends_outside(to.1, len) || out_of.ends_outside(from.1, len) {
            return Err(Refusal::Outside);
        }
        Ok((number, out_of))
    }

    /// Returns the live object that overlaps the range of `len` bytes from `address`. If there are several, it is the
    /// one with the greatest start. `None` if no live object overlaps the range.
    pub fn overlapped(&self, address: u64, len: u64) -> Option<Overlap>
        requires some { 1 ≤ len }
        requires narrow { address < 2 ^ 48 }
        requires long { len ≤ 2 ^ 47 }
        ensures none { IsNone result → (r : Recorded) → Stands self.now r → IsVacantRange r.memory address len }
        ensures some { IfSome result
            (λ overlap. (r : Recorded) → Stands self.now r → IsVacantRange r.memory address len → ⊥) }
        ensures told { IfSome result
            (λ overlap. (r : Recorded) → Stands self.now r → IsOverlapped r address len overlap) }
        ensures live { IfSome result (IsOfLive self.now) }
    {
        let last = address + (len - 1);
        let number = nearest(&self.starts, last)?;
        let object = self.objects.get(&number)?;
        if !object.ends_behind(address) {
            return None;
        }
        let to = address + len;
        Some(Overlap {
            serial: object.serial,
            made_at: object.made_at,
            range: AddressRange { from: address, to },
            other: object.range(),
        })
    }

    /// Makes an object of `len` zeros at `address`, for the `new` on a line, and stores the object's number in `cell`.
    /// The contract states the new memory only if the object's range is vacant.
    pub fn make(
        &mut self,
        line: u32,
        cell: u32,
        len: u64,
        serial: u32,
        address: u64,
    ) -> Result<(), AllocError>
        requires few { self.old.made < 2 ^ 32 - 1 }
        requires some { 1 ≤ len }
        requires narrow { address < 2 ^ 48 }
        requires long { len ≤ 2 ^ 47 }
        requires new { Has self.old.serials serial → ⊥ }
        ensures made { OnOk result ((r : Recorded) → Stands self.old r → IsVacantRange r.memory address len
            → Stands self.new
            (record { memory = made r.memory cell len address; serials = r.serials ++ serial ∷ [] })) }
        ensures made_one { self.new.made ≤ self.old.made + 1 }
        ensures lined { OnOk result (MakesAtMost self.old self.new line (Reply.Object serial address)) }
    {
        let number = self.made;
        let bytes = SparseBytes::new(self.alloc, len);
        let object = Stored {
            serial,
            made_at: line,
            address,
            bytes,
        };
        set(&mut self.objects, number, object)?;
        set_start(&mut self.starts, address, number)?;
        self.cells.point(cell, number)?;
        self.serials.add(serial)?;
        self.made = number + 1;
        Ok(())
    }
}
