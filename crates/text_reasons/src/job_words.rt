//! The reasons for a fault WORD in a line of a job.
use crate::grammar::{
    COMMANDS_OF_ONE, COMMANDS_OF_TWO, COPY, FIRST_WORKER_LINE, HISTORY_LINE, JOURNAL_LINE,
    MESH_LINE, PAGES_LINE, PAIR, PLAN_LINE, PLAN_OF_ONE, PLAN_OF_TWO, WORKER_LINE, WORKERS_LINE,
};
use crate::places::{Place, Section};
use crate::{Form, TextKind, Vocabulary, WordReason};
use model_words::Version;
use text_fields::lines::cut;

/// The least number of fields of a `pair`, and the greatest.
const PAIR_FIELDS: (usize, usize) = (3, 35);

/// A word, and the number of fields of the part of a line that begins with it.
#[derive(Clone, Copy)]
pub(crate) struct Worded<'a> {
    pub word: &'a [u8],
    pub count: usize,
}

/// Returns why the words of a line of a job, or of the first line of a history, are faulty. No field of the line is
/// empty. Returns `None` if nothing is faulty.
pub(crate) fn line_reason<'a>(place: &Place, line: &'a [u8]) -> Option<WordReason<'a>> {
    let worded = worded_in(line);
    match place.section {
        Section::Version => first_reason(TextKind::Job, worded),
        Section::Pages => header_reason(PAGES_LINE, worded),
        Section::Journal => header_reason(JOURNAL_LINE, worded),
        Section::Workers => header_reason(WORKERS_LINE, worded),
        Section::FirstWorker => header_reason(FIRST_WORKER_LINE, worded),
        Section::Script(worker) => script_reason(place, worker, worded),
        Section::Plan => vocabulary_reason(plan_of(place.version), worded),
        Section::Head => first_reason(TextKind::History, worded),
        Section::Entries(_) => None,
    }
}

/// The word of a line, and the number of its fields.
fn worded_in(line: &[u8]) -> Worded<'_> {
    match cut(line, b' ') {
        Some((word, rest)) => Worded {
            word,
            count: count_of(rest).saturating_add(1),
        },
        None => Worded {
            word: line,
            count: 1,
        },
    }
}

/// The number of fields between single blanks.
fn count_of(text: &[u8]) -> usize {
    let mut count = 1usize;
    for byte in text {
        if *byte == b' ' {
            count = count.saturating_add(1);
        }
    }
    count
}

/// Returns why the first line of a text of this kind is faulty.
fn first_reason(kind: TextKind, worded: Worded<'_>) -> Option<WordReason<'_>> {
    let (wanted, other, other_kind) = match kind {
        TextKind::Job => (MESH_LINE, HISTORY_LINE, TextKind::History),
        TextKind::History => (HISTORY_LINE, MESH_LINE, TextKind::Job),
    };
    if other.is_worded(worded.word) {
        return Some(WordReason::OtherText(other_kind));
    }
    header_reason(wanted, worded)
}

/// Returns why a line of which only this form is allowed is faulty.
fn header_reason(wanted: Form, worded: Worded<'_>) -> Option<WordReason<'_>> {
    if wanted.is_worded(worded.word) {
        count_reason(wanted, worded.count)
    } else {
        Some(WordReason::Expected(worded.word, wanted))
    }
}

/// Returns why a line in the script of the worker with this number is faulty.
fn script_reason<'a>(place: &Place, worker: u32, worded: Worded<'a>) -> Option<WordReason<'a>> {
    let next = worker.saturating_add(1);
    if WORKER_LINE.is_worded(worded.word) {
        return worker_reason(place, next, worded.count);
    }
    if PLAN_LINE.is_worded(worded.word) {
        return plan_reason(place, next, worded.count);
    }
    command_reason(place.version, worded)
}

/// Returns why a line that heads the script of another worker is faulty, if the worker `next` would be next.
fn worker_reason<'a>(place: &Place, next: u32, count: usize) -> Option<WordReason<'a>> {
    if next < place.workers {
        count_reason(WORKER_LINE, count)
    } else {
        Some(WordReason::NoMoreWorkers(place.workers))
    }
}

/// Returns why a line that heads the plan is faulty, if the worker `next` would be next.
fn plan_reason<'a>(place: &Place, next: u32, count: usize) -> Option<WordReason<'a>> {
    if next < place.workers {
        Some(WordReason::NoScript(next))
    } else {
        count_reason(PLAN_LINE, count)
    }
}

/// Returns why a command of a job is faulty.
fn command_reason(version: Version, worded: Worded<'_>) -> Option<WordReason<'_>> {
    match version {
        Version::One if COPY.is_worded(worded.word) => Some(WordReason::OnlyInVersionTwo),
        Version::One => vocabulary_reason(COMMANDS_OF_ONE, worded),
        Version::Two => vocabulary_reason(COMMANDS_OF_TWO, worded),
    }
}

/// The lines of a plan.
pub(crate) fn plan_of(version: Version) -> Vocabulary {
    match version {
        Version::One => PLAN_OF_ONE,
        Version::Two => PLAN_OF_TWO,
    }
}

/// Returns why a line, or a part of one, that must be of this vocabulary is faulty.
pub(crate) fn vocabulary_reason(known: Vocabulary, worded: Worded<'_>) -> Option<WordReason<'_>> {
    match known.form_of(worded.word) {
        Some(form) => count_reason(form, worded.count),
        None => Some(WordReason::Unknown(worded.word, known)),
    }
}

/// Returns that the number of fields of a form is another one. Returns `None` if it is this one.
fn count_reason<'a>(form: Form, count: usize) -> Option<WordReason<'a>> {
    if form.is_worded(PAIR.0.as_bytes()) {
        return pair_reason(count);
    }
    if count == form.1.len() + 1 {
        None
    } else {
        Some(WordReason::Count(form, count))
    }
}

/// Returns that a `pair` has too few or too many fields. Returns `None` if it hasn't.
fn pair_reason<'a>(count: usize) -> Option<WordReason<'a>> {
    let (least, most) = PAIR_FIELDS;
    if count < least || count > most {
        Some(WordReason::PairCount(count))
    } else {
        None
    }
}
