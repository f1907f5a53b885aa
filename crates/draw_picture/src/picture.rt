//! The picture: one card for each visible change of the heap.
ghost use Rattle.std.specs.Prelude.{◌≡◌, ◌+◌, ◌≤◌, ◌++◌, [], IfOk, IfSome, MatchBool, OnOk, Some, codes};
ghost use Rattle.draw_picture.specs.Cards.{AddsTop, DrawsCard, DrawsPoint, EndsFile, IsHead, Rests, titles_text, top_text};
ghost use Rattle.draw_picture.specs.Notes.{file_title, lines_between, note_text, shown_title};
ghost use Rattle.draw_svg.specs.Begins.{Begins};
ghost use Rattle.draw_svg.specs.Texts.{Adds};

use crate::card::write_card;
use crate::frame::Frame;
use crate::gathering::{Gathering, Line};
use crate::layout::{BETWEEN, HEAD, MARGIN};
use crate::legend::legend;
use crate::lettering::{Face, Label};
use crate::measure::{Measure, Measured};
use crate::notes::{lines_between, note_of, shown_name, title_of};
use crate::numbers::{plus, times};
use crate::pages::Scene;
use crate::style::add_rules;
use draw_svg::{Area, Look, Text, write_rect};
use std::alloc::{AllocError, Global};
use std::marker::Model;

/// The least width of a picture without its margin, which the legend needs.
const LEAST_WIDTH: u32 = 8_000;

/// The values in the header of a job file.
#[derive(Clone, Copy)]
pub struct Header {
    /// The version in the job file.
    pub version: u32,
    /// The number of physical pages in the job's arena.
    pub pages: u32,
    /// The number of workers in the job. If it is `None`, a client gives the commands.
    pub workers: Option<u32>,
}

/// A picture that is being drawn.
pub struct Picture {
    measured: Measured,
    // The title of the file, and the title that is drawn.
    title: Vec<u8>,
    name: Vec<u8>,
    // The note after the title that is drawn.
    note: Vec<u8>,
    gathering: Gathering,
    row: usize,
    column: u32,
    y: u32,
    // The number of the line that is expected next.
    next: usize,
}

impl Model for Picture {
    ghost use Rattle.draw_picture.specs.Pictures.{Shown};

    ghost Value = { Shown };

    ghost view = { λ picture. record {
      next = picture.next;
      title = picture.title.items;
      name = picture.name.items;
      note = picture.note.items;
      layout = picture.measured.layout;
      gathering = picture.gathering;
    } };
}

#[rattlefmt::skip]
impl Drop for Picture {
    fn drop(self) { let Picture { measured: _, title: _, name: _, note: _, gathering: _, row: _, column: _, y: _, next: _ } = self; }
}

/// The options of a picture.
#[derive(Clone, Copy)]
pub struct Drawn<'a> {
    /// The title above the picture.
    pub title: &'a str,
    /// The number of cards in a row. If it is `None`, a row has the number of cards that fits.
    pub columns: Option<u32>,
    /// The number of the first line of the picture.
    pub first: usize,
}

impl Picture {
    /// Returns a picture with these measurements, before its first frame. The note after its title has the numbers of
    /// the first and the last line that were measured. The only error is an allocation failure.
    pub fn new(
        alloc: Global,
        measure: Measure,
        header: Header,
        drawn: Drawn<'_>,
    ) -> Result<Picture, AllocError>
        requires { measure ≤ 4294967296 }
        ensures next { IfOk result (λ picture. picture.next ≡ drawn.entry.first) }
        ensures title { IfOk result (λ picture. picture.title ≡ file_title drawn.entry.title.now) }
        ensures name { IfOk result (λ picture. picture.name ≡ shown_title drawn.entry.title.now) }
        ensures note { IfOk result
            (λ picture. Begins
            (note_text header.version header.pages header.workers (lines_between drawn.entry.first measure)) picture.note) }
    {
        let lines = lines_between(drawn.first, measure.next_line());
        let note = note_of(alloc, header, lines)?;
        let title = title_of(alloc, drawn.title.as_bytes())?;
        let name = shown_name(alloc, drawn.title.as_bytes())?;
        Ok(Picture {
            measured: measure.finish(drawn.columns)?,
            title,
            name,
            note,
            gathering: Gathering::new(alloc),
            row: 0,
            column: 0,
            y: HEAD,
            next: drawn.first,
        })
    }

    /// Returns the number of the line that is expected next.
    pub fn next_line(&self) -> usize
        ensures { result ≡ self.now.next }
    {
        self.next
    }

    /// Appends the text before the first frame: the root element with the title of the file, the style, and the title
    /// that is drawn with its note. If `text` was empty, it begins with `<svg` afterwards, unless an allocation failed.
    pub fn head(&self, text: &mut Text)
        ensures begins { text.old ≡ Some [] → IfSome text.new (Begins (codes "<svg")) }
        ensures head { text.old ≡ Some [] → IfSome text.new (IsHead self.now) }
    {
        let all = self.area();
        text.add_root(self.title.as_slice(), all.w, all.h);
        add_rules(text);
        self.add_top(text, all);
    }

    /// Returns the area of the whole picture.
    fn area(&self) -> Area {
        let width = self.measured.layout.width().max(LEAST_WIDTH);
        let mut height = HEAD;
        for row in self.measured.rows.as_slice() {
            height = plus(plus(height, *row), BETWEEN);
        }
        Area::at(0, 0, plus(width, 2 * MARGIN), plus(height, 60))
    }

    /// Appends the shapes above the cards. If an allocation fails, the text records it.
    fn add_top(&self, text: &mut Text, all: Area)
        ensures { AddsTop self.now text.old text.new }
    {
        match legend(text.alloc(), self.measured.layout.by_pages) {
            Ok(legend) => self.add_titles(text, all, legend.as_slice()),
            Err(_) => text.refuse(),
        }
    }

    /// Appends the shapes above the cards, with this legend. If an allocation fails, the text records it.
    #[tactic(auto, using(crate::proofs::Heads::adds_if_failed))]
    fn add_titles(&self, text: &mut Text, all: Area, legend: &[u8])
        ensures { Adds text.old text.new (top_text self.now all legend.now) }
    {
        match self.top(text.alloc(), all, legend) {
            Ok(shapes) => text.add(shapes.as_slice()),
            Err(_) => text.refuse(),
        }
    }

    /// Returns the shapes above the cards: the background, the titles, and this legend.
    #[tactic(auto, unfolding(crate::specs::Cards::top_text))]
    fn top(&self, alloc: Global, all: Area, legend: &[u8]) -> Result<Vec<u8>, AllocError>
        ensures { IfOk result (λ shapes. shapes.items ≡ top_text self.now all legend.now) }
    {
        let mut shapes = Vec::new(alloc);
        write_rect(&mut shapes, &Look::of("bg"), &all, 0)?;
        self.write_titles(&mut shapes, all.w.saturating_sub(2 * MARGIN))?;
        shapes.extend_from_slice(legend)?;
        Ok(shapes)
    }

    /// Appends the title that is drawn, and the note below it.
    #[tactic(auto, unfolding(crate::specs::Cards::titles_text))]
    fn write_titles(&self, shapes: &mut Vec<u8>, room: u32) -> Result<(), AllocError>
        ensures { OnOk result (shapes.new.items ≡ shapes.old.items ++ titles_text self.now room) }
    {
        Label::start(Face::Title, "ink", MARGIN, 290)
            .within(room)
            .write(shapes, self.name.as_slice())?;
        Label::start(Face::Plain, "soft", MARGIN, 490)
            .within(room)
            .write(shapes, self.note.as_slice())
    }

    /// Adds a point: a line of the plan, and the heap after this line. Draws a card if the heap doesn't look as in the
    /// card before, and returns whether it has drawn one. The points must be those that were measured, in the same
    /// order. The only error is an allocation failure.
    pub fn point(
        &mut self,
        line: &Line<'_>,
        frame: &Frame,
        text: &mut Text,
    ) -> Result<bool, AllocError>
        ensures next { OnOk result (self.new.next ≡ line.now.number + 1) }
        ensures layout { self.new.layout ≡ self.old.layout }
        ensures drawn { IfOk result
            (λ drawn. MatchBool drawn (DrawsPoint self.old line.now frame.now text.old text.new) (text.new ≡ text.old)) }
    {
        self.next = line.number as usize + 1;
        self.gathering.add(line)?;
        if !self.gathering.is_due(frame) {
            self.gathering.keep_up(frame)?;
            return Ok(false);
        }
        self.draw(frame, text)?;
        self.gathering.shown(frame)?;
        self.step();
        Ok(true)
    }

    /// Draws a last card if there are lines after the last change, and appends the end of the file. The only error is
    /// an allocation failure.
    pub fn end(&self, text: &mut Text) -> Result<(), AllocError>
        ensures { OnOk result (EndsFile self.now text.old text.new) }
    {
        self.draw_rest(text)?;
        text.add(b"</svg>\n");
        Ok(())
    }

    /// Draws a last card if there are lines after the last change. The card repeats the last frame.
    fn draw_rest(&self, text: &mut Text) -> Result<(), AllocError>
        ensures { OnOk result (Rests self.now text.old text.new) }
    {
        if self.gathering.captions.is_empty() {
            return Ok(());
        }
        self.draw(&self.gathering.last, text)
    }

    /// Returns the height of the row that contains the next card.
    fn row_height(&self) -> u32 {
        self.measured.rows.get(self.row).copied().unwrap_or(0)
    }

    /// Moves to the place of the next card, which is in a new row if the current row is full.
    fn step(&mut self)
        ensures { self.new ≡ self.old }
    {
        self.column = plus(self.column, 1);
        if self.column >= self.measured.layout.columns {
            self.y = plus(plus(self.y, self.row_height()), BETWEEN);
            self.column = 0;
            self.row = self.row.saturating_add(1);
        }
    }

    /// Returns the area of the next card.
    fn place(&self) -> Area {
        let width = self.measured.layout.card;
        let beside = times(self.column, plus(width, BETWEEN));
        Area::at(plus(MARGIN, beside), self.y, width, self.row_height())
    }

    /// Draws a card with a frame.
    fn draw(&self, frame: &Frame, text: &mut Text) -> Result<(), AllocError>
        ensures { OnOk result (DrawsCard self.now frame.now text.old text.new) }
    {
        let scene = Scene {
            layout: &self.measured.layout,
            now: frame,
            before: if self.gathering.begun {
                &self.gathering.last
            } else {
                frame
            },
        };
        let mut card = Vec::new(text.alloc());
        write_card(&mut card, &self.gathering, scene, self.place())?;
        text.add(card.as_slice());
        Ok(())
    }
}
