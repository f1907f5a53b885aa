//! The parts of objects in a page, and what a frame says of a page.
ghost use Rattle.std.specs.Prelude.{◌≡◌, find};
ghost use Rattle.draw_picture.specs.Parts.{groups_colour, has_page, is_read_only, lead_of, part_of, state_in};

use crate::frame::{Frame, Mapping, Member, Object};
use crate::numbers::{plus, times};
use mesh_class::Class;

/// The number of bytes in a page.
pub const PAGE_BYTES: u32 = 4_096;

/// The number of colours of groups.
pub const GROUP_COLOURS: u32 = 8;

/// The state of an object's bytes in a physical page.
#[derive(Clone, Copy, PartialEq, Eq)]
pub enum State {
    /// The object is mapped to these bytes: loads and stores use them.
    Live,
    /// A mesh has copied the object to these bytes, but the object is not mapped to them yet.
    Copied,
    /// The object is no longer mapped to these bytes.
    Old,
}

/// The part of an object's slot that is in one page.
#[derive(Clone, Copy)]
pub struct Part {
    /// The object's serial.
    pub serial: u32,
    /// The size of the slot in bytes.
    pub size: u32,
    /// The offset in the page at which the part begins.
    pub from: u32,
    /// The offset in the page at which the object's bytes end.
    pub filled: u32,
    /// The offset in the page at which the slot ends.
    pub to: u32,
    /// The state of the bytes.
    pub state: State,
}

/// Returns the part of an object's slot that is in one page of the object's span. `place` is the page's index in the
/// span. Returns `None` if the page contains no byte of the slot.
pub fn part_of(object: &Object, class: Class, place: u32, state: State) -> Option<Part>
    ensures { result ≡ part_of object.now class place state }
{
    let from = times(object.slot, class.size());
    let to = plus(from, class.size());
    let filled = plus(from, object.len).min(to);
    let low = times(place, PAGE_BYTES);
    let high = plus(low, PAGE_BYTES);
    if to <= low || high <= from {
        return None;
    }
    Some(Part {
        serial: object.serial,
        size: class.size(),
        from: from.saturating_sub(low),
        filled: filled.min(high).saturating_sub(low),
        to: to.min(high).saturating_sub(low),
        state,
    })
}

/// Returns the mapping of a virtual page, or `None` if the page isn't mapped.
pub fn lead_of(frame: &Frame, page: u32) -> Option<Mapping>
    ensures { result ≡ lead_of frame.now page }
{
    let mut rest = frame.leads.as_slice();
    while let [lead, behind @ ..] = rest {
        if lead.virtual_page == page {
            return Some(*lead);
        }
        rest = behind;
    }
    None
}

/// Whether a virtual page is mapped and read-only.
pub fn is_read_only(frame: &Frame, page: u32) -> bool
    ensures { result ≡ is_read_only frame.now page }
{
    match lead_of(frame, page) {
        Some(lead) => lead.read_only,
        None => false,
    }
}

/// Returns the state of a member's bytes in the physical page `page` at the index `place` of its group: `Live` if the
/// member is mapped to the page, and otherwise `unmapped`.
pub fn state_in(frame: &Frame, member: &Member, place: u32, page: u32, unmapped: State) -> State
    ensures { result ≡ state_in frame.now member.now place page unmapped }
{
    match lead_of(frame, plus(member.first, place)) {
        Some(lead) => if lead.physical_page == page {
            State::Live
        } else {
            unmapped
        },
        None => unmapped,
    }
}

/// Whether a virtual page belongs to a member.
pub fn has_page(member: &Member, page: u32) -> bool
    ensures { result ≡ has_page page member.now }
{
    member.first <= page && page - member.first < member.class.pages()
}

/// Returns the colour of the group that a virtual page belongs to, or 0 if the page belongs to no member.
pub fn groups_colour(frame: &Frame, page: u32) -> u32
    ensures { result ≡ groups_colour frame.now page }
{
    let mut rest = frame.members.as_slice();
    while let [member, behind @ ..] = rest {
        if has_page(member, page) {
            return member.group % GROUP_COLOURS;
        }
        rest = behind;
    }
    0
}
