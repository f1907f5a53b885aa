//! The rows of a frame.
ghost use Rattle.std.specs.Prelude.{◌≡◌, ◌++◌, ◌<◌, IfOk, OnOk, nat_eq};
ghost use Rattle.std.specs.List.{list_any};
ghost use Rattle.model_heap.specs.Table.{slot_address};
ghost use Rattle.model_words.specs.Classes.{slots_of};
ghost use Rattle.otherwise_frames.specs.Frames.{hidden_at, home_at, is_held, is_hidden, is_lost, lead_at, listed, object_at};

use draw_picture::{Home, Mapping, Object};
use explore_pages::Group;
use mesh_class::Class;
use mesh_plain::Plain;
use model_otherwise::{Entry, Protection};
use std::alloc::AllocError;

/// The number of bytes of a page.
const PAGE_BYTES: u32 = 4096;

/// Adds a row, if there is one.
pub(crate) fn add<T: Drop>(rows: &mut Vec<T>, row: Option<T>) -> Result<(), AllocError>
    ensures { OnOk result (rows.new.items ≡ rows.old.items ++ listed row) }
{
    if let Some(row) = row {
        rows.push(row)?;
    }
    Ok(())
}

/// Returns the mapping of a virtual page, if the page is mapped. Also returns an error if the page's number needs more
/// than 32 bits.
pub(crate) fn lead_at(entries: &[Option<Entry>], page: usize) -> Result<Option<Mapping>, AllocError>
    ensures { IfOk result (λ row. row ≡ lead_at entries.now page) }
{
    let Some(Some(entry)) = entries.get(page) else {
        return Ok(None);
    };
    let Ok(virtual_page) = u32::try_from(page) else {
        return Err(AllocError);
    };
    Ok(Some(Mapping {
        virtual_page,
        physical_page: u32::from(entry.page),
        read_only: is_held(entry.protection),
    }))
}

/// Whether stores are blocked.
fn is_held(protection: Protection) -> bool
    ensures { result ≡ is_held protection }
{
    match protection {
        Protection::ReadWrite => false,
        Protection::ReadOnly | Protection::Hidden => true,
    }
}

/// Returns the virtual page, if it is mapped and its loads are blocked. Also returns an error if the page's number
/// needs more than 32 bits.
pub(crate) fn hidden_at(entries: &[Option<Entry>], page: usize) -> Result<Option<u32>, AllocError>
    ensures { IfOk result (λ row. row ≡ hidden_at entries.now page) }
{
    let Some(Some(entry)) = entries.get(page) else {
        return Ok(None);
    };
    if !is_hidden(entry.protection) {
        return Ok(None);
    }
    let Ok(page) = u32::try_from(page) else {
        return Err(AllocError);
    };
    Ok(Some(page))
}

/// Whether loads are blocked.
fn is_hidden(protection: Protection) -> bool
    ensures { result ≡ is_hidden protection }
{
    match protection {
        Protection::ReadWrite | Protection::ReadOnly => false,
        Protection::Hidden => true,
    }
}

/// Returns the object of a serial, if it is live and in this slot of a member. Also returns an error if its length
/// needs more than 32 bits.
pub(crate) fn object_at(
    memory: &Plain,
    class: Class,
    member: u16,
    slot: u32,
    serial: u32,
) -> Result<Option<Object>, AllocError>
    requires few { slot < slots_of class }
    ensures { IfOk result (λ row. row ≡ object_at memory.now class member slot serial) }
{
    let Some((address, bytes)) = memory.live(serial) else {
        return Ok(None);
    };
    if address != slot_address(class, member, slot) {
        return Ok(None);
    }
    let Ok(len) = u32::try_from(bytes.len()) else {
        return Err(AllocError);
    };
    Ok(Some(Object {
        member: u32::from(member),
        slot,
        serial,
        len,
    }))
}

/// Returns the address of a slot of a member.
pub(crate) fn slot_address(class: Class, member: u16, slot: u32) -> u32
    requires few { slot < slots_of class }
    ensures { result ≡ slot_address member class slot }
{
    PAGE_BYTES * u32::from(member) + slot * class.size()
}

/// Returns the physical page at a place of a group, if there is one. Also returns an error if the place needs more than
/// 32 bits.
pub(crate) fn home_at(
    taken: &[u16],
    group: &Group,
    place: usize,
) -> Result<Option<Home>, AllocError>
    ensures { IfOk result (λ row. row ≡ home_at taken.now group.now place) }
{
    let Some(page) = group.pages.get(place) else {
        return Ok(None);
    };
    let Ok(place) = u32::try_from(place) else {
        return Err(AllocError);
    };
    Ok(Some(Home {
        group: group.number,
        place,
        page: u32::from(*page),
        taken: has_page(taken, *page),
    }))
}

/// Whether a page is one of these.
fn has_page(pages: &[u16], page: u16) -> bool
    ensures { result ≡ list_any (nat_eq page) pages.now }
{
    pages.iter().any(|other| page == *other)
}

/// Whether the physical page is no group's.
pub(crate) fn is_lost(groups: &[Group], page: u16) -> bool
    ensures { result ≡ is_lost groups.now page }
{
    for group in groups {
        if has_page(group.pages.as_slice(), page) {
            return false;
        }
    }
    true
}
