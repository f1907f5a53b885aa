//! The positions and sizes of all parts of a picture. Lengths are in tenths of a pixel.
ghost use Rattle.std.specs.Prelude.{◌≡◌};
ghost use Rattle.draw_picture.specs.Cards.{above};
ghost use Rattle.draw_picture.specs.Layouts.{has, page_left, pages_width, physical_left, span_of, span_width};

use crate::numbers::{narrow, plus, times};
use crate::pills::LINE;
use mesh_class::Class;

/// The margin around the whole picture.
pub const MARGIN: u32 = 200;

/// The top of the first row of cards.
pub const HEAD: u32 = 1_000;

/// The gap between two cards.
pub const BETWEEN: u32 = 140;

/// The gap between the sides of a card and its contents.
pub const PAD: u32 = 120;

/// The gap between two pages of a span, and between two physical pages.
const GAP: u32 = 60;

/// The gap between two spans is that between two pages and this.
const MORE_GAP: u32 = 100;

/// The height of the drawing of pages.
const PAGES_HEIGHT: u32 = 2_700;

/// The height of a page.
pub const PAGE_HEIGHT: u32 = 480;

/// The least width of a page, that from which two cards may be side by side, and the greatest.
const NARROW_PAGE: u32 = 600;

const HANDY_PAGE: u32 = 700;

const WIDE_PAGE: u32 = 1_900;

/// The width of a card that is alone in its row, and of one of two cards in a row. A picture is then 840 pixels wide.
const WHOLE_CARD: u32 = 8_000;

const HALF_CARD: u32 = 3_930;

/// The greatest number of groups' members that a map of occupancy shows.
pub const MAX_ROWS: usize = 200;

/// The distance from one row of a map to the next.
pub const ROW: u32 = 170;

/// The distance from the bar of one mesh to the bar of the next.
pub const BAR: u32 = 380;

/// A span that is drawn in some frame.
#[derive(Clone, Copy)]
pub struct Span {
    /// The span's first virtual page.
    pub first: u32,
    /// The span's class.
    pub class: Class,
    /// The left side of the span, from the card's left side.
    pub x: u32,
}

impl Span {
    /// Whether a virtual page belongs to the span.
    fn has(&self, page: u32) -> bool
        ensures { result ≡ has page self.now }
    {
        self.first <= page && page - self.first < self.class.pages()
    }
}

/// The numbers of lines above a frame, of its running meshes and of its members, which need room.
#[derive(Clone, Copy)]
pub struct Extent {
    pub lines: u32,
    pub meshes: u32,
    pub members: u32,
}

/// The positions and sizes of all parts of a card.
#[derive(Drop)]
pub struct Layout {
    /// The spans, ascending by first page.
    pub spans: Vec<Span>,
    /// The number of physical pages that are shown.
    pub physical: u32,
    /// Whether pages are drawn one by one. If not, a map of occupancy is drawn.
    pub by_pages: bool,
    /// The width of a page.
    pub page: u32,
    /// The width of a card.
    pub card: u32,
    /// The number of cards in a row.
    pub columns: u32,
}

impl Layout {
    /// Returns the layout of `frames` frames with these spans and `physical` physical pages, and with captions at most
    /// `widest` wide. `columns` is the number of cards in a row. If it is `None`, a row has the number of cards that
    /// fits into 840 pixels.
    pub fn new(
        mut spans: Vec<Span>,
        physical: u32,
        widest: u32,
        frames: u32,
        columns: Option<u32>,
    ) -> Layout {
        let wants = Wants {
            spans: narrow(spans.len()),
            pages: pages_of(spans.as_slice()).max(physical),
            widest,
        };
        let by_pages = wants.fits(NARROW_PAGE, WHOLE_CARD);
        let columns = columns.unwrap_or(wants.columns()).min(frames).max(1);
        let card = wants.card(columns, by_pages);
        let page = wants.page(card);
        place(&mut spans, page);
        Layout {
            spans,
            physical,
            by_pages,
            page,
            card,
            columns,
        }
    }

    /// Returns the width of a row of cards.
    pub fn width(&self) -> u32 {
        times(self.columns, plus(self.card, BETWEEN)).saturating_sub(BETWEEN)
    }

    /// Returns the left side of a physical page, from the card's left side.
    pub fn physical_left(&self, page: u32) -> u32
        ensures { result ≡ physical_left self.now page }
    {
        plus(PAD, pages_width(page, self.page))
    }

    /// Returns the left side of the page at `place` in a span, from the card's left side.
    pub fn page_left(&self, span: &Span, place: u32) -> u32
        ensures { result ≡ page_left self.now span.now place }
    {
        plus(span.x, pages_width(place, self.page))
    }

    /// Returns the width of a span of a class.
    pub fn span_width(&self, class: Class) -> u32
        ensures { result ≡ span_width self.now class }
    {
        pages_width(class.pages(), self.page).saturating_sub(GAP)
    }

    /// Returns the span that has a virtual page, or `None` if no span that is drawn has it.
    pub fn span_of(&self, page: u32) -> Option<Span>
        ensures { result ≡ span_of self.now page }
    {
        let mut rest = self.spans.as_slice();
        while let [span, behind @ ..] = rest {
            if span.has(page) {
                return Some(*span);
            }
            rest = behind;
        }
        None
    }

    /// Returns the height of a card for a frame with these parts.
    pub fn height(&self, extent: &Extent) -> u32 {
        let drawn = if self.by_pages {
            PAGES_HEIGHT
        } else {
            plus(times(extent.members.min(MAX_ROWS as u32 + 1), ROW), 320)
        };
        plus(above(extent.lines, extent.meshes), drawn)
    }
}

/// What a picture needs room for: spans, their pages or the physical pages, whichever are more, and captions.
#[derive(Clone, Copy)]
struct Wants {
    spans: u32,
    pages: u32,
    widest: u32,
}

impl Wants {
    /// Returns the width of a card whose pages have the width `page`.
    fn width(self, page: u32) -> u32 {
        plus(
            2 * PAD,
            plus(times(self.spans, MORE_GAP), pages_width(self.pages, page)),
        )
    }

    /// Whether pages of this width fit into a card.
    fn fits(self, page: u32, card: u32) -> bool {
        self.width(page) <= card
    }

    /// Returns the number of cards that fit side by side into a picture of 840 pixels: two or one.
    fn columns(self) -> u32 {
        if self.widest <= HALF_CARD && self.fits(HANDY_PAGE, HALF_CARD) {
            2
        } else {
            1
        }
    }

    /// Returns the width of a card, if a row has this number of cards. A map of occupancy needs a whole row.
    fn card(self, columns: u32, by_pages: bool) -> u32 {
        if columns == 1 || !by_pages {
            return WHOLE_CARD;
        }
        HALF_CARD
            .max(self.widest)
            .max(self.width(NARROW_PAGE))
            .min(WHOLE_CARD)
    }

    /// Returns the width of pages that fill a card.
    fn page(self, card: u32) -> u32 {
        let gaps = plus(2 * PAD, times(self.spans, MORE_GAP));
        let each = card.saturating_sub(gaps) / self.pages.max(1);
        each.saturating_sub(GAP).clamp(NARROW_PAGE, WIDE_PAGE)
    }
}

/// Returns the height of the captions and the bars of meshes together.
pub fn above(lines: u32, meshes: u32) -> u32
    ensures { result ≡ above lines meshes }
{
    plus(plus(times(lines, LINE), times(meshes, BAR)), 120)
}

/// Returns the width of pages with the width `page`, and of a gap after each.
fn pages_width(pages: u32, page: u32) -> u32
    ensures { result ≡ pages_width pages page }
{
    times(pages, plus(page, GAP))
}

/// Returns how many pages the spans have together.
pub fn pages_of(spans: &[Span]) -> u32 {
    let mut pages = 0u32;
    for span in spans {
        pages = plus(pages, span.class.pages());
    }
    pages
}

/// Places spans side by side.
fn place(spans: &mut Vec<Span>, page: u32) {
    let mut x = PAD;
    for span in spans.iter_mut() {
        span.x = x;
        x = plus(x, plus(pages_width(span.class.pages(), page), MORE_GAP));
    }
}
