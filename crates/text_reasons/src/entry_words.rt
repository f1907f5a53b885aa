//! The reasons for a fault WORD in an entry of a history.
use crate::grammar::{ANSWERS, BEFORE_CALL, BEFORE_COMMAND, OBJECT_COMMANDS, RECORDED_COMMANDS};
use crate::job_words::{Worded, vocabulary_reason};
use crate::{EntryKind, Field, FieldKind, Form, Vocabulary, WordReason};
use arrayvec::ArrayVec;
use text_fields::lines::{fields_up_to, is_word};
use text_words::refusal_named;

/// The greatest number of fields of a line.
pub(crate) const MOST_FIELDS: usize = 37;

/// The fields of a line.
pub(crate) type LineFields<'a> = ArrayVec<&'a [u8], MOST_FIELDS>;

/// A part of a line: its word, and the fields behind the word.
#[derive(Clone, Copy)]
pub(crate) struct Part<'b, 'a> {
    pub word: &'a [u8],
    pub fields: &'b [&'a [u8]],
}

/// Returns why the words of an entry are faulty. No field of the line is empty. Returns `None` if nothing is faulty.
pub(crate) fn entry_reason(kind: EntryKind, line: &[u8]) -> Option<WordReason<'_>> {
    match entry_fields(kind, line) {
        Some(fields) => fields_reason(kind, fields.as_slice()),
        None => Some(WordReason::ManyFields(kind.most_fields())),
    }
}

/// The fields of an entry. `None` if a field is empty or if there are too many fields.
pub(crate) fn entry_fields(kind: EntryKind, line: &[u8]) -> Option<LineFields<'_>> {
    let fields: LineFields<'_> = fields_up_to(line).ok()?;
    if fields.len() > kind.most_fields() {
        return None;
    }
    Some(fields)
}

/// Returns why the words of an entry with these fields are faulty.
fn fields_reason<'a>(kind: EntryKind, fields: &[&'a [u8]]) -> Option<WordReason<'a>> {
    match parts_of(kind, fields) {
        Some((before, behind)) => split_reason(kind, before, behind),
        None => Some(WordReason::NoArrow(kind)),
    }
}

/// The fields of an entry before its answer, and the fields of the answer. A call that was pending when the recording
/// stopped has no answer. `None` if the entry of any other call has no field `->`.
pub(crate) fn parts_of<'b, 'a>(
    kind: EntryKind,
    fields: &'b [&'a [u8]],
) -> Option<(&'b [&'a [u8]], &'b [&'a [u8]])> {
    match (kind, fields) {
        (EntryKind::Overlapping, [_, _, end, ..]) if is_pending_mark(*end) => {
            Some((fields, &fields[fields.len()..]))
        }
        _ => arrow_split(fields),
    }
}

/// Whether the field, in the place of an end, marks a call that was pending when the recording stopped.
pub(crate) fn is_pending_mark(field: &[u8]) -> bool {
    is_word(field, b"-")
}

/// The fields before the first field `->`, and the fields behind it. `None` if there is no such field.
fn arrow_split<'b, 'a>(fields: &'b [&'a [u8]]) -> Option<(&'b [&'a [u8]], &'b [&'a [u8]])> {
    let place = fields.iter().position(|field| is_word(*field, b"->"))?;
    Some((&fields[..place], &fields[place + 1..]))
}

/// Returns why the words of an entry with these fields before and behind `->` are faulty.
fn split_reason<'a>(
    kind: EntryKind,
    before: &[&'a [u8]],
    behind: &[&'a [u8]],
) -> Option<WordReason<'a>> {
    let Some(command) = kind.command_in(before) else {
        return Some(WordReason::NoCommand(kind));
    };
    if let Some(reason) = vocabulary_reason(kind.commands(), command.worded()) {
        return Some(reason);
    }
    let Some(answer) = part_of(behind) else {
        return Some(WordReason::NoAnswer(kind));
    };
    answer_reason(kind, &command, &answer)
}

/// Returns why the words of an answer to this command are faulty.
fn answer_reason<'a>(
    kind: EntryKind,
    command: &Part<'_, 'a>,
    answer: &Part<'_, 'a>,
) -> Option<WordReason<'a>> {
    if let Some(reason) = vocabulary_reason(ANSWERS, answer.worded()) {
        return Some(reason);
    }
    if let Some(reason) = literal_reason(answer) {
        return Some(reason);
    }
    match kind {
        EntryKind::InOrder => None,
        EntryKind::Overlapping => Some(WordReason::OtherAnswer(answer.word, command.word)),
    }
}

/// Returns which field isn't the very word that it must be. Returns `None` if there is no such field.
fn literal_reason<'a>(answer: &Part<'_, 'a>) -> Option<WordReason<'a>> {
    let form = ANSWERS.form_of(answer.word)?;
    for (field, spelt) in form.1.iter().zip(answer.fields.iter()) {
        if is_other_word(field, *spelt) {
            return Some(WordReason::Literal(*spelt, form));
        }
    }
    name_reason(answer)
}

/// Whether the field must be one very word, and is spelt otherwise.
fn is_other_word(field: &Field, spelt: &[u8]) -> bool {
    match field.1 {
        FieldKind::Literal => !is_word(spelt, field.0.as_bytes()),
        _ => false,
    }
}

/// Returns that a refusal has another name. Returns `None` if the answer is no refusal or is read without a fault.
fn name_reason<'a>(answer: &Part<'_, 'a>) -> Option<WordReason<'a>> {
    match answer.fields {
        [number, name] if refusal_named(*number, *name).is_err() => {
            Some(WordReason::Name(*name, *number))
        }
        _ => None,
    }
}

/// The part of a line that has these fields. `None` if there are none.
pub(crate) fn part_of<'b, 'a>(fields: &'b [&'a [u8]]) -> Option<Part<'b, 'a>> {
    let [word, fields @ ..] = fields else {
        return None;
    };
    Some(Part {
        word: *word,
        fields,
    })
}

impl<'b, 'a> Part<'b, 'a> {
    /// The word of the part, and the number of its fields.
    fn worded(&self) -> Worded<'a> {
        Worded {
            word: self.word,
            count: self.fields.len().saturating_add(1),
        }
    }
}

impl EntryKind {
    /// The greatest number of fields of an entry.
    fn most_fields(self) -> usize {
        match self {
            EntryKind::InOrder => 35,
            EntryKind::Overlapping => MOST_FIELDS,
        }
    }

    /// The fields before the command.
    pub(crate) fn before_command(self) -> &'static [Field] {
        match self {
            EntryKind::InOrder => &BEFORE_COMMAND,
            EntryKind::Overlapping => &BEFORE_CALL,
        }
    }

    /// The commands of an entry.
    pub(crate) fn commands(self) -> Vocabulary {
        match self {
            EntryKind::InOrder => RECORDED_COMMANDS,
            EntryKind::Overlapping => OBJECT_COMMANDS,
        }
    }

    /// The command among the fields before `->`. `None` if there are too few fields.
    pub(crate) fn command_in<'b, 'a>(self, before: &'b [&'a [u8]]) -> Option<Part<'b, 'a>> {
        let least = self.before_command().len();
        if before.len() < least {
            return None;
        }
        part_of(&before[least..])
    }
}
