//! Finds the reason for a fault.
ghost use Rattle.std.specs.Prelude.{◌≡◌, ◌↔◌, IfSome, IsTrue, OnOk};
ghost use Rattle.text_reasons.specs.Added.{HasAddedReason};
ghost use Rattle.text_reasons.specs.Reasons.{IsPlain, kind_of};
ghost use Rattle.text_reasons.specs.Truths.{IsSo};
ghost use Rattle.text_reasons.specs.declared.reason.Reason.{Reason};

use crate::blanks::blank_reason;
use crate::bytes::{byte_reason, cut_reason};
use crate::entry_words::entry_reason;
use crate::fields::field_reason;
use crate::job_words::line_reason;
use crate::places::{Line, Section, line_at};
use crate::sentences::add_sentence;
use crate::{Reason, TextKind, WordReason};
use model_words::{FaultKind, TextFault};
use std::alloc::AllocError;

/// Appends the reason for a fault of a text, without a line end. `source` is the text of the kind `wanted`, or a
/// beginning of it.
pub fn add_reason(
    text: &mut Vec<u8>,
    source: &[u8],
    wanted: TextKind,
    fault: TextFault,
) -> Result<(), AllocError>
    ensures { OnOk result (HasAddedReason text.old.items text.new.items wanted fault) }
{
    add_sentence(text, &reason_of(source, wanted, fault))
}

/// Returns the reason for a fault of a text. `source` is the text of the kind `wanted`, or a beginning of it. If it
/// doesn't reach to the fault, or if no better reason is found, the reason says what this kind of fault is in general.
pub fn reason_of(source: &[u8], wanted: TextKind, fault: TextFault) -> Reason<'_>
    ensures kind { kind_of result ≡ fault.kind }
    ensures plain { IsPlain fault.kind → result ≡ Reason.General wanted fault.kind }
    ensures so { IsSo result }
{
    match fault.kind {
        FaultKind::TooLong | FaultKind::Trailing | FaultKind::LongLine => {
            Reason::General(wanted, fault.kind)
        }
        _ => reason_in(source, wanted, fault),
    }
}

/// Does the same as `reason_of`, for a fault whose reason lies in the bytes of its line.
fn reason_in(source: &[u8], wanted: TextKind, fault: TextFault) -> Reason<'_>
    ensures kind { kind_of result ≡ fault.kind }
    ensures so { IsSo result }
{
    match line_at(source, wanted, fault.line) {
        Some(line) => reason_for(&line, wanted, fault.kind),
        None => Reason::General(wanted, fault.kind),
    }
}

/// Returns the reason for a fault of this kind in this line.
fn reason_for<'a>(line: &Line<'a>, wanted: TextKind, kind: FaultKind) -> Reason<'a>
    ensures kind { kind_of result ≡ kind }
    ensures so { IsSo result }
{
    match found_in(line, kind) {
        Some(reason) if is_of_kind(&reason, kind) => reason,
        _ => Reason::General(wanted, kind),
    }
}

/// Whether the reason is for this kind of fault.
fn is_of_kind(reason: &Reason<'_>, kind: FaultKind) -> bool
    ensures { IsTrue result ↔ (kind_of reason.now ≡ kind) }
{
    reason.kind() == kind
}

/// Returns a reason for a fault of this kind in this line, if one is found.
fn found_in<'a>(line: &Line<'a>, kind: FaultKind) -> Option<Reason<'a>>
    ensures { IfSome result (λ reason. IsSo reason) }
{
    match kind {
        FaultKind::Cut => Some(Reason::Cut(cut_reason(line)?)),
        _ if !line.is_ended => None,
        FaultKind::Byte => Some(Reason::Byte(byte_reason(line.bytes)?)),
        FaultKind::Word => Some(Reason::Word(word_reason(line)?)),
        _ => field_reason(line),
    }
}

/// Returns why the words of the line are faulty, if this is found.
fn word_reason<'a>(line: &Line<'a>) -> Option<WordReason<'a>> {
    if let Some(reason) = blank_reason(line.bytes) {
        return Some(reason);
    }
    match line.place.section {
        Section::Entries(kind) => entry_reason(kind, line.bytes),
        _ => line_reason(&line.place, line.bytes),
    }
}
