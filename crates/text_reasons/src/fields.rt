//! The reasons for the faults NUMBER and HEX: the first field of a line that is misspelt.
ghost use Rattle.std.specs.Prelude.{IfSome};
ghost use Rattle.text_reasons.specs.Truths.{IsSo};

use crate::entry_words::{LineFields, Part, entry_fields, is_pending_mark, part_of, parts_of};
use crate::grammar::{
    ANSWERS, COMMANDS_OF_TWO, FIRST_WORKER_LINE, HISTORY_LINE, JOURNAL_LINE, MESH_LINE, PAGES_LINE,
    VERSION, WORKER_LINE, WORKERS_LINE, field_at,
};
use crate::job_words::plan_of;
use crate::places::{Line, Place, Section};
use crate::spelling::Limits;
use crate::{EntryKind, Field, FieldKind, Form, NumberReason, Reason, Spelt, Vocabulary};
use text_fields::lines::fields_up_to;
use text_fields::numbers::number;

/// Returns why the first misspelt field of the line is misspelt. Returns `None` if no such field is found.
pub(crate) fn field_reason<'a>(line: &Line<'a>) -> Option<Reason<'a>>
    ensures { IfSome result (λ reason. IsSo reason) }
{
    match line.place.section {
        Section::Entries(kind) => entry_reason(&line.place, kind, line.bytes),
        _ => line_reason(&line.place, line.bytes),
    }
}

/// Returns the reason for a line of a job, or for the first line of a history.
fn line_reason<'a>(place: &Place, line: &'a [u8]) -> Option<Reason<'a>>
    ensures { IfSome result (λ reason. IsSo reason) }
{
    let fields: LineFields<'a> = fields_up_to(line).ok()?;
    let part = part_of(fields.as_slice())?;
    let form = form_at(place, part.word)?;
    first_reason(form.1, part.fields, &Limits::at(place)).or(version_reason(place, &part))
}

/// The form of a line with this word at this place.
fn form_at(place: &Place, word: &[u8]) -> Option<Form> {
    match place.section {
        Section::Version => Some(MESH_LINE),
        Section::Pages => Some(PAGES_LINE),
        Section::Journal => Some(JOURNAL_LINE),
        Section::Workers => Some(WORKERS_LINE),
        Section::FirstWorker => Some(FIRST_WORKER_LINE),
        Section::Script(_) if WORKER_LINE.is_worded(word) => Some(WORKER_LINE),
        Section::Script(_) => COMMANDS_OF_TWO.form_of(word),
        Section::Plan => plan_of(place.version).form_of(word),
        Section::Head => Some(HISTORY_LINE),
        Section::Entries(_) => None,
    }
}

/// Returns that a history of this version isn't read here, if this can be the fault.
fn version_reason<'a>(place: &Place, part: &Part<'_, 'a>) -> Option<Reason<'a>>
    ensures { IfSome result (λ reason. IsSo reason) }
{
    match (place.section, part.fields) {
        (Section::Head, [version]) => Some(Reason::Number(
            Spelt(VERSION, *version),
            NumberReason::Version,
        )),
        _ => None,
    }
}

/// Returns the reason for an entry.
fn entry_reason<'a>(place: &Place, kind: EntryKind, line: &'a [u8]) -> Option<Reason<'a>>
    ensures { IfSome result (λ reason. IsSo reason) }
{
    let fields = entry_fields(kind, line)?;
    let (before, behind) = parts_of(kind, fields.as_slice())?;
    let limits = Limits::at(place).with_begin(begin_in(before));
    if let Some(reason) = first_reason(kind.before_command(), before, &limits) {
        return Some(reason);
    }
    if let Some(reason) = part_reason(kind.commands(), kind.command_in(before), &limits) {
        return Some(reason);
    }
    part_reason(ANSWERS, part_of(behind), &limits)
}

/// The time at which a call began, if the fields before `->` have one.
fn begin_in(before: &[&[u8]]) -> u64 {
    match before {
        [_, begin, ..] => number(*begin, 0, u64::MAX).unwrap_or(0),
        _ => 0,
    }
}

/// Returns the reason for a part of a line that is of this vocabulary.
fn part_reason<'a>(
    known: Vocabulary,
    part: Option<Part<'_, 'a>>,
    limits: &Limits,
) -> Option<Reason<'a>>
    ensures { IfSome result (λ reason. IsSo reason) }
{
    let part = part?;
    let form = known.form_of(part.word)?;
    first_reason(form.1, part.fields, limits)
}

/// Whether the text stands for the end of a call that was pending when the recording stopped.
fn is_no_end(field: Field, text: &[u8]) -> bool {
    matches!(field.1, FieldKind::End) && is_pending_mark(text)
}

/// Returns why the first misspelt field of these is misspelt.
fn first_reason<'a>(wanted: &[Field], spelt: &[&'a [u8]], limits: &Limits) -> Option<Reason<'a>>
    ensures { IfSome result (λ reason. IsSo reason) }
{
    for (place, text) in spelt.iter().enumerate() {
        let field = field_at(wanted, place)?;
        let range = field.1.range(limits);
        if !range.allows(*text) && !is_no_end(field, *text) {
            return range.reason(field, *text);
        }
    }
    None
}
