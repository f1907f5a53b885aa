//! Finds a line of a text, and the section of the text that the line belongs to.
use crate::{EntryKind, TextKind};
use model_words::Version;
use text_fields::lines::{cut, is_word};
use text_fields::numbers::number32;

/// The greatest number of workers of a job.
const MAX_WORKERS: u32 = 64;

/// The section of a text that a line belongs to.
#[derive(Clone, Copy)]
pub(crate) enum Section {
    /// The line of a job with the version.
    Version,
    /// The line of a job with the number of pages.
    Pages,
    /// The line of a job with the room of the journal.
    Journal,
    /// The line of a job with the number of workers.
    Workers,
    /// The line of a job that heads the script of worker 0.
    FirstWorker,
    /// The lines behind the heading of the worker with this number.
    Script(u32),
    /// The lines of a plan.
    Plan,
    /// The first line of a history.
    Head,
    /// The lines of the entries of a history.
    Entries(EntryKind),
}

/// What is known of a text in front of a line.
#[derive(Clone, Copy)]
pub(crate) struct Place {
    pub section: Section,
    /// The version of the job.
    pub version: Version,
    /// The number of workers of the job.
    pub workers: u32,
}

/// A line of a text.
#[derive(Clone, Copy)]
pub(crate) struct Line<'a> {
    pub place: Place,
    /// The bytes of the line. If it isn't ended, these are all bytes up to the text's end.
    pub bytes: &'a [u8],
    /// Whether a line end is behind the bytes.
    pub is_ended: bool,
}

/// Returns the line with this number, counted from 1, of a text of this kind. Returns `None` if the text doesn't reach
/// to the line.
pub(crate) fn line_at(text: &[u8], kind: TextKind, number: u32) -> Option<Line<'_>> {
    let mut place = Place::first(kind);
    let mut rest = text;
    for _line in 1..number {
        let (line, behind) = cut(rest, b'\n')?;
        place = place.behind(line);
        rest = behind;
    }
    Some(first_line(place, rest))
}

/// Returns the first line of a text, which is at this place.
fn first_line(place: Place, text: &[u8]) -> Line<'_> {
    match cut(text, b'\n') {
        Some((bytes, _)) => Line {
            place,
            bytes,
            is_ended: true,
        },
        None => Line {
            place,
            bytes: text,
            is_ended: false,
        },
    }
}

impl Place {
    /// The place of the first line of a text.
    fn first(kind: TextKind) -> Place {
        Place {
            section: match kind {
                TextKind::Job => Section::Version,
                TextKind::History => Section::Head,
            },
            version: Version::One,
            workers: 0,
        }
    }

    /// The place behind a line without a fault.
    fn behind(self, line: &[u8]) -> Place {
        Place {
            section: self.section.behind(line),
            version: self.version_behind(line),
            workers: self.workers_behind(line),
        }
    }

    fn version_behind(self, line: &[u8]) -> Version {
        match self.section {
            Section::Version if is_word(line, b"mesh 2") => Version::Two,
            _ => self.version,
        }
    }

    fn workers_behind(self, line: &[u8]) -> u32 {
        match self.section {
            Section::Workers => number_behind(line).unwrap_or(0),
            _ => self.workers,
        }
    }
}

impl Section {
    /// The section behind a line without a fault.
    fn behind(self, line: &[u8]) -> Section {
        match self {
            Section::Version => Section::Pages,
            Section::Pages => Section::Journal,
            Section::Journal => Section::Workers,
            Section::Workers => Section::FirstWorker,
            Section::FirstWorker => Section::Script(0),
            Section::Script(worker) => script_behind(worker, line),
            Section::Plan => Section::Plan,
            Section::Head => Section::Entries(entries_behind(line)),
            Section::Entries(kind) => Section::Entries(kind),
        }
    }
}

/// The section behind a line in the script of the worker with this number.
fn script_behind(worker: u32, line: &[u8]) -> Section {
    if is_word(line, b"plan") {
        return Section::Plan;
    }
    if line.starts_with(b"worker ") {
        return Section::Script(worker.saturating_add(1));
    }
    Section::Script(worker)
}

/// The kind of the entries behind this first line of a history.
fn entries_behind(line: &[u8]) -> EntryKind {
    if is_word(line, b"history 2") {
        EntryKind::Overlapping
    } else {
        EntryKind::InOrder
    }
}

/// The number of workers in the line `workers N`.
fn number_behind(line: &[u8]) -> Option<u32> {
    let (_, number) = cut(line, b' ')?;
    number32(number, 1, MAX_WORKERS).ok()
}
