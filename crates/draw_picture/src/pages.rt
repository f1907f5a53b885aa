//! Drawing the virtual and the physical pages of a frame.
ghost use Rattle.std.specs.Prelude.{◌≡◌, ◌++◌, IfOk, OnOk};
ghost use Rattle.std.specs.List.{flat_map};
ghost use Rattle.draw_picture.specs.Objects.{below, listing, part_text};
ghost use Rattle.draw_picture.specs.Pages.{all_mapped_text, all_unmapped_text, bottom_text, bracket_text, change_text, contents_text, copies_text, counts_text, empty_text, free_text, heading_text, held_by, held_object_text, held_text, home_of, is_hidden, is_mapped, labels_text, lower_text, mapped_text, mark_text, marks_physical, marks_virtual, member_at, member_objects_text, member_text, object_text, objects_text, page_area, page_style, pages_name, pages_text, physical_text, protection_text, protection_words, span_text, spans_text, taken_text, unmapped_of_text, unmapped_text, upper_text, virtual_text};
ghost use Rattle.draw_svg.specs.Shapes.{style_of};
ghost use Rattle.model_words.specs.Classes.{pages_of};

use crate::alike::copied_slots;
use crate::arrows::write_arrows;
use crate::frame::{Counts, Frame, Home, Mapping, Mark, Member, Object, RunningMesh};
use crate::layout::{Layout, PAD, PAGE_HEIGHT, Span};
use crate::lettering::{Face, Label};
use crate::numbers::plus;
use crate::objects::{add_point, write_grid, write_part};
use crate::parts::{GROUP_COLOURS, Part, State, is_read_only, lead_of, part_of, state_in};
use draw_svg::{Area, Look, Way, end_group, write_group, write_path, write_rect};
use std::alloc::{AllocError, Global};

/// The upper side of virtual pages, and that of physical pages.
pub(crate) const VIRTUAL: u32 = 540;

pub(crate) const PHYSICAL: u32 = 1_820;

/// A frame, the frame before it, and the places of pages. If there is no frame before it, `before` is the frame itself.
#[derive(Clone, Copy)]
pub(crate) struct Scene<'a> {
    /// The positions and sizes of all parts of a card.
    pub layout: &'a Layout,
    /// The frame that is drawn.
    pub now: &'a Frame,
    /// The frame that was drawn before.
    pub before: &'a Frame,
}

/// Appends the pages of a frame: spans, virtual pages and physical pages, the arrows between them, and the counts.
#[tactic(auto, unfolding(crate::specs::Pages::pages_text))]
pub(crate) fn write_pages(text: &mut Vec<u8>, scene: Scene<'_>) -> Result<(), AllocError>
    ensures { OnOk result
        (text.new.items ≡ text.old.items ++ pages_text scene.entry.layout.now scene.entry.now.now scene.entry.before.now) }
{
    write_upper(text, scene)?;
    write_lower(text, scene)
}

/// Appends the virtual pages with their name and the headings of spans.
#[tactic(auto, unfolding(crate::specs::Pages::upper_text))]
fn write_upper(text: &mut Vec<u8>, scene: Scene<'_>) -> Result<(), AllocError>
    ensures { OnOk result
        (text.new.items ≡ text.old.items
        ++ upper_text scene.entry.layout.now scene.entry.now.now scene.entry.before.now) }
{
    write_pages_name(text, "virtual pages", 110)?;
    write_spans(text, scene)?;
    write_all_mapped(text, scene)?;
    write_all_unmapped(text, scene)
}

/// Appends the physical pages, what is below them, and the arrows to them.
#[tactic(auto, unfolding(crate::specs::Pages::lower_text))]
fn write_lower(text: &mut Vec<u8>, scene: Scene<'_>) -> Result<(), AllocError>
    ensures { OnOk result
        (text.new.items ≡ text.old.items
        ++ lower_text scene.entry.layout.now scene.entry.now.now scene.entry.before.now) }
{
    write_all_physical(text, scene)?;
    write_bottom(text, scene)?;
    write_arrows(text, scene)
}

/// Appends what is below the physical pages: their name, and the counts of pages.
#[tactic(auto, unfolding(crate::specs::Pages::bottom_text))]
fn write_bottom(text: &mut Vec<u8>, scene: Scene<'_>) -> Result<(), AllocError>
    ensures { OnOk result
        (text.new.items ≡ text.old.items ++ bottom_text scene.entry.layout.now scene.entry.now.now) }
{
    write_pages_name(text, "physical pages", 2_600)?;
    write_counts(text, &scene.now.counts, scene.layout.card, 2_600)
}

/// Appends the headings of spans.
#[tactic(auto, unfolding(crate::specs::Pages::spans_text))]
fn write_spans(text: &mut Vec<u8>, scene: Scene<'_>) -> Result<(), AllocError>
    ensures { OnOk result
        (text.new.items ≡ text.old.items ++ spans_text scene.entry.layout.now scene.entry.now.now) }
{
    for span in scene.layout.spans.as_slice() {
        write_span(text, scene, span)?;
    }
    Ok(())
}

/// Appends the mapped virtual pages.
#[tactic(auto, unfolding(crate::specs::Pages::all_mapped_text))]
fn write_all_mapped(text: &mut Vec<u8>, scene: Scene<'_>) -> Result<(), AllocError>
    ensures { OnOk result
        (text.new.items ≡ text.old.items
        ++ all_mapped_text scene.entry.layout.now scene.entry.now.now scene.entry.before.now) }
{
    for lead in scene.now.leads.as_slice() {
        write_mapped(text, scene, lead)?;
    }
    Ok(())
}

/// Appends the places of the virtual pages that aren't mapped.
fn write_all_unmapped(text: &mut Vec<u8>, scene: Scene<'_>) -> Result<(), AllocError>
    ensures { OnOk result
        (text.new.items ≡ text.old.items
        ++ all_unmapped_text scene.entry.layout.now scene.entry.now.now scene.entry.before.now) }
{
    for span in scene.layout.spans.as_slice() {
        write_unmapped_of(text, scene, span)?;
    }
    Ok(())
}

/// Appends the physical pages.
fn write_all_physical(text: &mut Vec<u8>, scene: Scene<'_>) -> Result<(), AllocError>
    ensures { OnOk result
        (text.new.items ≡ text.old.items
        ++ below scene.entry.layout.now.physical (physical_text scene.entry.layout.now scene.entry.now.now scene.entry.before.now)) }
{
    for page in 0..scene.layout.physical {
        write_physical(text, scene, page)?;
    }
    Ok(())
}

/// Appends the name of a row of pages.
#[tactic(auto, unfolding(crate::specs::Pages::pages_name))]
fn write_pages_name(text: &mut Vec<u8>, name: &str, y: u32) -> Result<(), AllocError>
    ensures { OnOk result (text.new.items ≡ text.old.items ++ pages_name name.now y) }
{
    Label::start(Face::Plain, "soft", PAD, y).write(text, name.as_bytes())
}

/// Appends the counts of pages at the right side of a card.
#[tactic(auto, unfolding(crate::specs::Pages::counts_text))]
pub(crate) fn write_counts(
    text: &mut Vec<u8>,
    counts: &Counts,
    card: u32,
    y: u32,
) -> Result<(), AllocError>
    ensures { OnOk result (text.new.items ≡ text.old.items ++ counts_text counts.now card y) }
{
    let right = card.saturating_sub(PAD);
    let label = if counts.saved == 0 {
        Label::end(Face::Plain, "soft", right, y)
    } else {
        Label::end(Face::Strong, "green", right, y)
    };
    label.say(
        text,
        "# mapped - # taken = # saved",
        &[counts.mapped, counts.taken, counts.saved],
    )
}

/// Appends a span's heading, or an empty place if the frame doesn't have the span.
#[tactic(auto, unfolding(crate::specs::Pages::span_text))]
fn write_span(text: &mut Vec<u8>, scene: Scene<'_>, span: &Span) -> Result<(), AllocError>
    ensures { OnOk result
        (text.new.items ≡ text.old.items ++ span_text scene.entry.layout.now scene.entry.now.now span.now) }
{
    match member_at(scene.now, span.first) {
        None => write_empty(text, scene.layout, span),
        Some(member) => write_heading(text, scene.layout, span, &member),
    }
}

/// Returns the member that begins at a virtual page, or `None` if none does.
fn member_at(frame: &Frame, first: u32) -> Option<Member>
    ensures { result ≡ member_at frame.now first }
{
    let mut rest = frame.members.as_slice();
    while let [member, behind @ ..] = rest {
        if member.first == first {
            return Some(*member);
        }
        rest = behind;
    }
    None
}

/// Appends the empty place of a span.
#[tactic(auto, unfolding(crate::specs::Pages::empty_text))]
fn write_empty(text: &mut Vec<u8>, layout: &Layout, span: &Span) -> Result<(), AllocError>
    ensures { OnOk result (text.new.items ≡ text.old.items ++ empty_text layout.now span.now) }
{
    let area = Area {
        x: span.x,
        y: VIRTUAL,
        w: layout.span_width(span.class),
        h: PAGE_HEIGHT,
    };
    write_rect(text, &Look::of("no"), &area, 30)
}

/// Appends a bracket above a member's pages, with the member's group and class.
#[tactic(auto, unfolding(crate::specs::Pages::heading_text))]
fn write_heading(
    text: &mut Vec<u8>,
    layout: &Layout,
    span: &Span,
    member: &Member,
) -> Result<(), AllocError>
    ensures { OnOk result (text.new.items ≡ text.old.items ++ heading_text layout.now span.now member.now) }
{
    let width = layout.span_width(span.class);
    let colour = member.group % GROUP_COLOURS;
    write_bracket(text, span.x, plus(span.x, width), colour)?;
    Label::start(Face::Strong, "", span.x, 290)
        .inked("k", colour)
        .within(width)
        .say(text, "group #", &[member.group])?;
    Label::start(Face::Plain, "soft", span.x, 430)
        .within(width)
        .say(text, "# B", &[member.class.size()])
}

/// Appends the bracket above a member's pages.
#[tactic(auto, unfolding(crate::specs::Pages::bracket_text))]
fn write_bracket(text: &mut Vec<u8>, left: u32, right: u32, colour: u32) -> Result<(), AllocError>
    ensures { OnOk result (text.new.items ≡ text.old.items ++ bracket_text left right colour) }
{
    let mut points = Vec::new(*text.allocator());
    add_point(&mut points, Way::Move, left, 510)?;
    add_point(&mut points, Way::Line, left, 470)?;
    add_point(&mut points, Way::Line, right, 470)?;
    add_point(&mut points, Way::Line, right, 510)?;
    write_path(text, &Look::nth("a", colour), points.as_slice())
}

/// Appends a mapped virtual page, if the page belongs to a span that has a place.
#[tactic(auto, unfolding(crate::specs::Pages::mapped_text))]
fn write_mapped(text: &mut Vec<u8>, scene: Scene<'_>, lead: &Mapping) -> Result<(), AllocError>
    ensures { OnOk result
        (text.new.items ≡ text.old.items ++ mapped_text scene.entry.layout.now scene.entry.now.now scene.entry.before.now lead.now) }
{
    match scene.layout.span_of(lead.virtual_page) {
        None => Ok(()),
        Some(span) => write_virtual(text, scene, &span, lead.virtual_page),
    }
}

/// Appends a virtual page of a span.
#[tactic(auto, unfolding(crate::specs::Pages::virtual_text))]
fn write_virtual(
    text: &mut Vec<u8>,
    scene: Scene<'_>,
    span: &Span,
    page: u32,
) -> Result<(), AllocError>
    ensures { OnOk result
        (text.new.items ≡ text.old.items ++ virtual_text scene.entry.layout.now scene.entry.now.now scene.entry.before.now span.now page) }
{
    let place = page.saturating_sub(span.first);
    let read_only = is_read_only(scene.now, page);
    write_group(text, scene.layout.page_left(span, place), VIRTUAL)?;
    write_rect(
        text,
        &page_look(read_only),
        &page_area(scene.layout.page),
        30,
    )?;
    write_grid(text, span.class, place, scene.layout.page)?;
    write_objects(text, scene.now, span, place, scene.layout.page)?;
    write_labels(
        text,
        page,
        protection_words(scene.now, page),
        scene.layout.page,
    )?;
    write_change(
        text,
        read_only != is_read_only(scene.before, page),
        scene.layout.page,
    )?;
    write_mark(text, marks_virtual(scene.now, page), scene.layout.page)?;
    end_group(text)
}

/// Appends the places of a span's pages that aren't mapped, if the frame has the span.
#[tactic(auto, unfolding(crate::specs::Pages::unmapped_of_text))]
fn write_unmapped_of(text: &mut Vec<u8>, scene: Scene<'_>, span: &Span) -> Result<(), AllocError>
    ensures { OnOk result
        (text.new.items ≡ text.old.items ++ unmapped_of_text scene.entry.layout.now scene.entry.now.now scene.entry.before.now span.now) }
{
    match member_at(scene.now, span.first) {
        None => Ok(()),
        Some(_) => write_unmapped_pages(text, scene, span),
    }
}

/// Appends the places of a span's pages that aren't mapped.
fn write_unmapped_pages(text: &mut Vec<u8>, scene: Scene<'_>, span: &Span) -> Result<(), AllocError>
    ensures { OnOk result
        (text.new.items ≡ text.old.items
        ++ below (pages_of span.now.class) (unmapped_text scene.entry.layout.now scene.entry.now.now scene.entry.before.now span.now)) }
{
    for place in 0..span.class.pages() {
        write_unmapped(text, scene, span, place)?;
    }
    Ok(())
}

/// Appends the place of the page at the index `place` of a span, if the page isn't mapped.
#[tactic(auto, unfolding(crate::specs::Pages::unmapped_text))]
fn write_unmapped(
    text: &mut Vec<u8>,
    scene: Scene<'_>,
    span: &Span,
    place: u32,
) -> Result<(), AllocError>
    ensures { OnOk result
        (text.new.items ≡ text.old.items ++ unmapped_text scene.entry.layout.now scene.entry.now.now scene.entry.before.now span.now place) }
{
    let page = plus(span.first, place);
    if is_mapped(scene.now, page) {
        return Ok(());
    }
    let width = scene.layout.page;
    write_group(text, scene.layout.page_left(span, place), VIRTUAL)?;
    write_rect(text, &Look::of("no"), &page_area(width), 30)?;
    write_labels(text, page, "not mapped", width)?;
    write_change(text, is_mapped(scene.before, page), width)?;
    write_mark(text, marks_virtual(scene.now, page), width)?;
    end_group(text)
}

/// Whether a virtual page is mapped.
fn is_mapped(frame: &Frame, page: u32) -> bool
    ensures { result ≡ is_mapped frame.now page }
{
    lead_of(frame, page).is_some()
}

/// Returns the words for the protection of a virtual page, or none if the page has none.
fn protection_words(frame: &Frame, page: u32) -> &'static str
    ensures { result.now ≡ protection_words frame.now page }
{
    if !is_read_only(frame, page) {
        ""
    } else if is_hidden(frame, page) {
        "hidden"
    } else {
        "read-only"
    }
}

/// Whether loads of a virtual page are blocked.
fn is_hidden(frame: &Frame, page: u32) -> bool
    ensures { result ≡ is_hidden frame.now page }
{
    frame.hidden.iter().any(|hidden| *hidden == page)
}

/// Whether something is wrong on a virtual page.
fn marks_virtual(frame: &Frame, page: u32) -> bool
    ensures { result ≡ marks_virtual frame.now.mark page }
{
    match frame.mark {
        Some(Mark::Virtual(marked)) => marked == page,
        _ => false,
    }
}

/// Whether something is wrong on a physical page.
fn marks_physical(frame: &Frame, page: u32) -> bool
    ensures { result ≡ marks_physical frame.now.mark page }
{
    match frame.mark {
        Some(Mark::Physical(marked)) => marked == page,
        _ => false,
    }
}

/// Appends the mark of a page on which something is wrong, if this is one.
#[tactic(auto, unfolding(crate::specs::Pages::mark_text))]
fn write_mark(text: &mut Vec<u8>, marked: bool, width: u32) -> Result<(), AllocError>
    ensures { OnOk result (text.new.items ≡ text.old.items ++ mark_text marked width) }
{
    if !marked {
        return Ok(());
    }
    write_rect(text, &Look::of("pr"), &Area::at(0, 420, width, 60), 0)?;
    Label::end(Face::Strong, "red", width.saturating_sub(20), 620).say(text, "wrong", &[])
}

/// Returns the style of a virtual page.
fn page_look(read_only: bool) -> Look
    ensures { style_of result ≡ page_style read_only }
{
    Look::of(if read_only { "ro" } else { "pg" })
}

/// Returns the area of a page whose upper left corner is at 0, 0.
fn page_area(page: u32) -> Area
    ensures { result ≡ page_area page }
{
    Area {
        x: 0,
        y: 0,
        w: page,
        h: PAGE_HEIGHT,
    }
}

/// Appends the parts of a span's objects that are in the page at the index `place` of the span.
#[tactic(auto, unfolding(crate::specs::Pages::objects_text))]
fn write_objects(
    text: &mut Vec<u8>,
    frame: &Frame,
    span: &Span,
    place: u32,
    page: u32,
) -> Result<(), AllocError>
    ensures { OnOk result (text.new.items ≡ text.old.items ++ objects_text frame.now span.now place page) }
{
    for object in frame.objects.as_slice() {
        write_object(text, span, place, page, object)?;
    }
    Ok(())
}

/// Appends the part of an object that is in the page at the index `place` of a span, if the object is in the span.
#[tactic(auto, unfolding(crate::specs::Pages::object_text))]
fn write_object(
    text: &mut Vec<u8>,
    span: &Span,
    place: u32,
    page: u32,
    object: &Object,
) -> Result<(), AllocError>
    ensures { OnOk result (text.new.items ≡ text.old.items ++ object_text span.now place page object.now) }
{
    if object.member == span.first {
        write_if(text, part_of(object, span.class, place, State::Live), page)
    } else {
        Ok(())
    }
}

/// Appends the part of an object in a page, if there is one.
fn write_if(text: &mut Vec<u8>, part: Option<Part>, page: u32) -> Result<(), AllocError>
    ensures { OnOk result (text.new.items ≡ text.old.items ++ listing part (part_text page)) }
{
    match part {
        None => Ok(()),
        Some(part) => write_part(text, &part, page),
    }
}

/// Appends the number of a page below it, and the words for its protection if it has one.
#[tactic(auto, unfolding(crate::specs::Pages::labels_text))]
fn write_labels(text: &mut Vec<u8>, page: u32, words: &str, width: u32) -> Result<(), AllocError>
    ensures { OnOk result (text.new.items ≡ text.old.items ++ labels_text page words.now width) }
{
    Label::start(Face::Plain, "soft", 20, 620)
        .within(width)
        .say(text, "#", &[page])?;
    write_protection(text, words, width)
}

/// Appends the words for the protection of a page, if it has one.
#[tactic(auto, unfolding(crate::specs::Pages::protection_text))]
fn write_protection(text: &mut Vec<u8>, words: &str, width: u32) -> Result<(), AllocError>
    ensures { OnOk result (text.new.items ≡ text.old.items ++ protection_text words.now width) }
{
    if words.len() == 0 {
        return Ok(());
    }
    Label::start(Face::Strong, "amber", 20, 760)
        .within(width)
        .write(text, words.as_bytes())
}

/// Appends the mark of a page that has changed, if it has.
#[tactic(auto, unfolding(crate::specs::Pages::change_text))]
fn write_change(text: &mut Vec<u8>, changed: bool, width: u32) -> Result<(), AllocError>
    ensures { OnOk result (text.new.items ≡ text.old.items ++ change_text changed width) }
{
    if !changed {
        return Ok(());
    }
    write_rect(text, &Look::of("new"), &page_area(width), 30)
}

/// Appends a physical page, with a mark if it isn't drawn as in the frame before.
#[tactic(auto, unfolding(crate::specs::Pages::physical_text))]
fn write_physical(text: &mut Vec<u8>, scene: Scene<'_>, page: u32) -> Result<(), AllocError>
    ensures { OnOk result
        (text.new.items ≡ text.old.items ++ physical_text scene.entry.layout.now scene.entry.now.now scene.entry.before.now page) }
{
    let width = scene.layout.page;
    let now = contents(*text.allocator(), scene.now, page, width)?;
    let before = contents(*text.allocator(), scene.before, page, width)?;
    write_group(text, scene.layout.physical_left(page), PHYSICAL)?;
    text.extend_from_slice(now.as_slice())?;
    write_labels(text, page, "", width)?;
    write_change(text, now.as_slice() != before.as_slice(), width)?;
    write_mark(text, marks_physical(scene.now, page), width)?;
    end_group(text)
}

/// Returns the drawing of a physical page's contents.
fn contents(alloc: Global, frame: &Frame, page: u32, width: u32) -> Result<Vec<u8>, AllocError>
    ensures { IfOk result (λ text. text.items ≡ contents_text frame.now width page) }
{
    let mut text = Vec::new(alloc);
    write_contents(&mut text, frame, page, width)?;
    Ok(text)
}

/// Appends the contents of a physical page.
#[tactic(auto, unfolding(crate::specs::Pages::contents_text))]
fn write_contents(
    text: &mut Vec<u8>,
    frame: &Frame,
    page: u32,
    width: u32,
) -> Result<(), AllocError>
    ensures { OnOk result (text.new.items ≡ text.old.items ++ contents_text frame.now width page) }
{
    match home_of(frame, page) {
        None => write_free(text, width),
        Some(home) => write_taken(text, frame, &home, width),
    }
}

/// Returns the home of a physical page, or `None` if the page isn't taken.
fn home_of(frame: &Frame, page: u32) -> Option<Home>
    ensures { result ≡ home_of frame.now page }
{
    let mut rest = frame.homes.as_slice();
    while let [home, behind @ ..] = rest {
        if home.page == page && home.taken {
            return Some(*home);
        }
        rest = behind;
    }
    None
}

/// Appends a free physical page.
#[tactic(auto, unfolding(crate::specs::Pages::free_text))]
fn write_free(text: &mut Vec<u8>, width: u32) -> Result<(), AllocError>
    ensures { OnOk result (text.new.items ≡ text.old.items ++ free_text width) }
{
    write_rect(text, &Look::of("no"), &page_area(width), 30)?;
    Label::middle(Face::Plain, "soft", width / 2, 275).write(text, b"free")
}

/// The objects of a group that are in a physical page, and how they are drawn.
#[derive(Clone, Copy)]
struct Held {
    /// The physical page, and its index among the pages of its group.
    page: u32,
    place: u32,
    /// The group whose objects these are. The objects in slots with numbers below `below` are in the page.
    group: u32,
    below: u32,
    /// The state of objects whose virtual pages aren't mapped to the page.
    unmapped: State,
    /// The width of a page.
    width: u32,
}

/// Appends the contents of a taken physical page: the objects of its group, and those that a mesh has copied to it.
#[tactic(auto, unfolding(crate::specs::Pages::taken_text))]
fn write_taken(text: &mut Vec<u8>, frame: &Frame, home: &Home, width: u32) -> Result<(), AllocError>
    ensures { OnOk result (text.new.items ≡ text.old.items ++ taken_text frame.now width home.now) }
{
    write_rect(text, &Look::of("pg"), &page_area(width), 30)?;
    write_held(text, frame, held_by(home, width))?;
    write_all_copies(text, frame, home, width)
}

/// Appends the objects that meshes have copied to a physical page.
fn write_all_copies(
    text: &mut Vec<u8>,
    frame: &Frame,
    home: &Home,
    width: u32,
) -> Result<(), AllocError>
    ensures { OnOk result
        (text.new.items ≡ text.old.items ++ flat_map (copies_text frame.now width home.now) frame.now.meshes.items) }
{
    for mesh in frame.meshes.as_slice() {
        write_copies(text, frame, home, width, mesh)?;
    }
    Ok(())
}

/// Returns the objects of a physical page's own group.
fn held_by(home: &Home, width: u32) -> Held
    ensures { result ≡ held_by width home.now }
{
    Held {
        page: home.page,
        place: home.place,
        group: home.group,
        below: u32::MAX,
        unmapped: State::Old,
        width,
    }
}

/// Appends the objects that a mesh has copied to a physical page, if the page is one of its destination.
#[tactic(auto, unfolding(crate::specs::Pages::copies_text))]
fn write_copies(
    text: &mut Vec<u8>,
    frame: &Frame,
    home: &Home,
    width: u32,
    mesh: &RunningMesh,
) -> Result<(), AllocError>
    ensures { OnOk result (text.new.items ≡ text.old.items ++ copies_text frame.now width home.now mesh.now) }
{
    if mesh.destination != home.group {
        return Ok(());
    }
    let held = Held {
        page: home.page,
        place: home.place,
        group: mesh.source,
        below: copied_slots(frame, mesh),
        unmapped: State::Copied,
        width,
    };
    write_held(text, frame, held)
}

/// Appends the objects of a group that are in a physical page.
#[tactic(auto, unfolding(crate::specs::Pages::held_text))]
fn write_held(text: &mut Vec<u8>, frame: &Frame, held: Held) -> Result<(), AllocError>
    ensures { OnOk result (text.new.items ≡ text.old.items ++ held_text frame.now held) }
{
    for member in frame.members.as_slice() {
        write_member(text, frame, held, member)?;
    }
    Ok(())
}

/// Appends the objects of a member that are in a physical page, if the member is one of the group.
#[tactic(auto, unfolding(crate::specs::Pages::member_text))]
fn write_member(
    text: &mut Vec<u8>,
    frame: &Frame,
    held: Held,
    member: &Member,
) -> Result<(), AllocError>
    ensures { OnOk result (text.new.items ≡ text.old.items ++ member_text frame.now held member.now) }
{
    if member.group != held.group {
        return Ok(());
    }
    let state = state_in(frame, member, held.place, held.page, held.unmapped);
    write_member_objects(text, frame, held, member, state)
}

/// Appends the objects of a member that are in a physical page.
#[tactic(auto, unfolding(crate::specs::Pages::member_objects_text))]
fn write_member_objects(
    text: &mut Vec<u8>,
    frame: &Frame,
    held: Held,
    member: &Member,
    state: State,
) -> Result<(), AllocError>
    ensures { OnOk result
        (text.new.items ≡ text.old.items ++ member_objects_text frame.now held member.now state) }
{
    for object in frame.objects.as_slice() {
        write_held_object(text, held, member, state, object)?;
    }
    Ok(())
}

/// Appends the part of an object that is in a physical page, if it is one of the member's objects.
#[tactic(auto, unfolding(crate::specs::Pages::held_object_text))]
fn write_held_object(
    text: &mut Vec<u8>,
    held: Held,
    member: &Member,
    state: State,
    object: &Object,
) -> Result<(), AllocError>
    ensures { OnOk result
        (text.new.items ≡ text.old.items ++ held_object_text held member.now state object.now) }
{
    if object.member != member.first || held.below <= object.slot {
        return Ok(());
    }
    write_if(
        text,
        part_of(object, member.class, held.place, state),
        held.width,
    )
}
