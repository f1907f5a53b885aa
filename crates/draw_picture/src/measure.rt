//! The measurements that must be known before the first element of a picture is written.
ghost use Rattle.std.specs.Prelude.{◌≡◌, ◌+◌, OnOk};

use crate::frame::Frame;
use crate::gathering::{Gathering, Line};
use crate::layout::{Extent, Layout, Span, pages_of};
use crate::numbers::narrow;
use crate::pills::caption_width;
use std::alloc::{AllocError, Global};
use std::marker::Model;

/// The measurements of a picture while points are added. A point is a line of the plan, and the heap after this line.
#[derive(Drop)]
pub struct Measure {
    gathering: Gathering,
    spans: Vec<Span>,
    physical: u32,
    widest: u32,
    extents: Vec<Extent>,
    // The number of the line that is expected next.
    next: usize,
}

impl Model for Measure {
    ghost use Rattle.std.specs.Prelude.{ℕ};

    ghost Value = { ℕ };

    ghost view = { λ measure. measure.next };
}

/// The final measurements that determine how a picture is drawn.
#[derive(Drop)]
pub struct Measured {
    /// The positions and sizes of all parts of a card.
    pub layout: Layout,
    /// The height of each row of cards.
    pub rows: Vec<u32>,
}

impl Measure {
    /// Returns a measure without points. The line that is expected next has the number `next`.
    pub fn new(alloc: Global, next: usize) -> Measure
        ensures { result ≡ next }
    {
        Measure {
            gathering: Gathering::new(alloc),
            spans: Vec::new(alloc),
            physical: 0,
            widest: 0,
            extents: Vec::new(alloc),
            next,
        }
    }

    /// Returns the number of the line that is expected next.
    pub fn next_line(&self) -> usize
        ensures { result ≡ self.now }
    {
        self.next
    }

    /// Adds a point: a line of the plan, and the heap after this line. The only error is an allocation failure.
    pub fn point(&mut self, line: &Line<'_>, frame: &Frame) -> Result<(), AllocError>
        ensures { OnOk result (self.new ≡ line.now.number + 1) }
    {
        self.next = line.number as usize + 1;
        self.gathering.add(line)?;
        if self.gathering.is_due(frame) {
            self.measure(frame)?;
            self.gathering.shown(frame)
        } else {
            self.gathering.keep_up(frame)
        }
    }

    /// Measures a frame that gets a card of its own. The only error is an allocation failure.
    fn measure(&mut self, frame: &Frame) -> Result<(), AllocError>
        ensures { self.new ≡ self.old }
    {
        self.extents.push(extent_of(&self.gathering, frame))?;
        self.widest = self.widest.max(widest_of(&self.gathering)?);
        self.physical = self.physical.max(physical_of(frame));
        add_spans(&mut self.spans, frame)
    }

    /// Returns the final measurements. `columns` is the number of cards in a row. If it is `None`, a row has the number
    /// of cards that fits. The only error is an allocation failure.
    pub fn finish(mut self, columns: Option<u32>) -> Result<Measured, AllocError> {
        if !self.gathering.captions.is_empty() {
            self.extents.push(last_extent(&self.gathering))?;
            self.widest = self.widest.max(widest_of(&self.gathering)?);
        }
        self.spans.sort_unstable_by_key(|s| s.first);
        let cards = narrow(self.extents.len());
        let layout = Layout::new(self.spans, self.physical, self.widest, cards, columns);
        let rows = row_heights(&layout, self.extents.as_slice(), *self.extents.allocator())?;
        Ok(Measured { layout, rows })
    }
}

/// Returns the extent of a frame with the gathered lines above it.
fn extent_of(gathering: &Gathering, frame: &Frame) -> Extent {
    Extent {
        lines: gathering.height(),
        meshes: narrow(frame.meshes.len()),
        members: narrow(frame.members.len()),
    }
}

/// Returns the extent of the last card. This card repeats the last frame below the lines that were gathered after it.
fn last_extent(gathering: &Gathering) -> Extent {
    extent_of(gathering, &gathering.last)
}

/// Returns the width of a card that the widest of the gathered captions needs. The only error is an allocation failure.
fn widest_of(gathering: &Gathering) -> Result<u32, AllocError> {
    let mut widest = 0u32;
    for caption in gathering.captions.as_slice() {
        widest = widest.max(caption_width(caption)?);
    }
    Ok(widest)
}

/// Returns the number of physical pages that must be drawn for a frame: all pages up to the last one that is taken, or
/// to which a virtual page is mapped.
fn physical_of(frame: &Frame) -> u32 {
    let mut count = 0u32;
    for home in frame.homes.as_slice() {
        if home.taken {
            count = count.max(home.page.saturating_add(1));
        }
    }
    for lead in frame.leads.as_slice() {
        count = count.max(lead.physical_page.saturating_add(1));
    }
    count
}

/// The greatest number of pages that are considered for a place: more don't fit into a card.
const MOST_PAGES: u32 = 40;

/// Adds the spans of a frame that `spans` doesn't contain yet. If `spans` has more than `MOST_PAGES` pages, adds no
/// span, because the picture is a map of occupancy in that case. The only error is an allocation failure.
fn add_spans(spans: &mut Vec<Span>, frame: &Frame) -> Result<(), AllocError> {
    for member in frame.members.as_slice() {
        let known = spans.iter().any(|s| s.first == member.first);
        if !known && pages_of(spans.as_slice()) <= MOST_PAGES {
            spans.push(Span {
                first: member.first,
                class: member.class,
                x: 0,
            })?;
        }
    }
    Ok(())
}

/// Returns for each row of cards the height of the row's highest card. The only error is an allocation failure.
fn row_heights(layout: &Layout, extents: &[Extent], alloc: Global) -> Result<Vec<u32>, AllocError> {
    let mut rows = Vec::new(alloc);
    let mut column = 0u32;
    let mut highest = 0u32;
    for extent in extents {
        highest = highest.max(layout.height(extent));
        column = column.saturating_add(1);
        if column >= layout.columns {
            rows.push(highest)?;
            column = 0;
            highest = 0;
        }
    }
    if column > 0 {
        rows.push(highest)?;
    }
    Ok(rows)
}
