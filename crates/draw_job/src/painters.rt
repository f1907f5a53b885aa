//! The two painters of a picture: one measures it, and the other draws it.
ghost use Rattle.std.specs.Prelude.{◌≡◌, ◌≤◌, [], IfOk, IfSome, Some, codes, false, length};
ghost use Rattle.draw_job.specs.Notes.{note_of_job, version_number};
ghost use Rattle.draw_job.specs.Painters.{next_drawn, next_measured};
ghost use Rattle.draw_picture.specs.Cards.{IsHead};
ghost use Rattle.draw_picture.specs.Notes.{file_title, lines_between, shown_title};
ghost use Rattle.draw_svg.specs.Begins.{Begins};

use crate::points::{Painter, Point};
use crate::run::DrawOptions;
use draw_picture::{Drawn, Header, Measure, Picture, Text};
use model_words::Version;
use std::alloc::{AllocError, Global};
use text_devices::{DeviceFault, Sink};
use text_job::Job;

/// The painter that measures the size of a picture. It draws nothing.
#[derive(Drop)]
pub(crate) struct Measuring {
    measure: Measure,
}

impl Measuring {
    /// Creates a painter whose next point is the one after line `from`.
    pub fn new(alloc: Global, from: usize) -> Measuring
        ensures { next_measured result ≡ from }
    {
        Measuring {
            measure: Measure::new(alloc, from),
        }
    }

    /// The number of the line whose point the painter takes next.
    pub fn next_line(&self) -> usize
        ensures { result ≡ next_measured self.now }
    {
        self.measure.next_line()
    }

    /// Returns the picture of the measured job, with no point drawn yet. Its first point is the one after line `first`.
    /// The note after its title has the numbers of the lines from `first` to the last line that was measured.
    pub fn picture(
        self,
        alloc: Global,
        job: &Job,
        options: &DrawOptions<'_>,
        first: usize,
    ) -> Result<Picture, AllocError>
        requires { next_measured self ≤ 4294967296 }
        ensures next { IfOk result (λ picture. picture.next ≡ first) }
        ensures title { IfOk result (λ picture. picture.title ≡ file_title options.now.title.now) }
        ensures name { IfOk result (λ picture. picture.name ≡ shown_title options.now.title.now) }
        ensures note { IfOk result
            (λ picture. Begins (note_of_job job.now (lines_between first (next_measured self))) picture.note) }
    {
        let columns = match options.columns {
            0 => None,
            columns => Some(columns),
        };
        let drawn = Drawn {
            title: options.title,
            columns,
            first,
        };
        Picture::new(alloc, self.measure, header_of(job), drawn)
    }
}

/// The data of a job's header.
fn header_of(job: &Job) -> Header
    ensures version { result.version ≡ version_number job.now.version }
    ensures pages { result.pages ≡ job.now.pages }
    ensures workers { result.workers ≡ Some (length job.now.scripts) }
{
    let version = match job.version {
        Version::One => 1,
        Version::Two => 2,
    };
    Header {
        version,
        pages: job.pages,
        workers: Some(job.scripts.count() as u32),
    }
}

impl Painter for Measuring {
    ghost next = { next_measured };

    fn point(&mut self, point: &Point<'_>, _text: &mut Text) -> Result<(), AllocError> {
        self.measure.point(point.line, point.frame)
    }
}

/// The painter that draws a picture.
#[derive(Drop)]
pub(crate) struct Drawing {
    picture: Picture,
}

impl Drawing {
    /// Creates a painter that draws this picture. Adds the text before the first frame to `text`.
    pub fn new(picture: Picture, text: &mut Text) -> Drawing
        ensures next { next_drawn result ≡ picture.next }
        ensures begins { text.old ≡ Some [] → IfSome text.new (Begins (codes "<svg")) }
        ensures head { text.old ≡ Some [] → IfSome text.new (IsHead picture) }
    {
        picture.head(text);
        Drawing { picture }
    }

    /// The number of the line whose point the painter takes next.
    pub fn next_line(&self) -> usize
        ensures { result ≡ next_drawn self.now }
    {
        self.picture.next_line()
    }

    /// Adds the text after the last point.
    pub fn end(&self, text: &mut Text) -> Result<(), AllocError> {
        self.picture.end(text)
    }
}

impl Painter for Drawing {
    ghost next = { next_drawn };

    fn point(&mut self, point: &Point<'_>, text: &mut Text) -> Result<(), AllocError> {
        self.picture.point(point.line, point.frame, text)?;
        Ok(())
    }
}

/// A sink that keeps nothing, for the painter that only measures.
#[derive(Drop)]
pub(crate) struct Nowhere;

impl Sink for Nowhere {
    ghost use Rattle.std.specs.Prelude.{None as NotKnown};

    ghost written = { λ _. NotKnown };

    ghost has_failed = { λ _. false };

    fn write(&mut self, bytes: &[u8]) -> Result<usize, DeviceFault> {
        Ok(bytes.len())
    }
}
