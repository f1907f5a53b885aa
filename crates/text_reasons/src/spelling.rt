//! What a field may spell, and why it is misspelt.
ghost use Rattle.std.specs.Prelude.{◌≡◌, ◌≤◌, false, true, IfSome, length, slice_index};
ghost use Rattle.text_reasons.specs.declared.spelling.Range.{Range};
ghost use Rattle.text_reasons.specs.Truths.{IsNoNumber, IsRefused, IsSo, IsTrueOfHex, IsTrueOfNumber};

use crate::places::{Place, Section};
use crate::{Field, FieldKind, HexReason, NumberReason, Reason, Spelt};
use history_bytes::MOST_BYTES;
use mesh_class::class_of;
use model_words::MAX_BYTES;
use text_fields::bases::Base;
use text_fields::commands::MAX_RECORDED_LENGTH;
use text_fields::hex::{address, byte, digit, has_leading_zero, spells_bytes, wide_address};
use text_fields::numbers::number;

/// The greatest cell of a job.
const MAX_CELL: u64 = 255;

/// The greatest cell of a history.
const MAX_WIDE_CELL: u64 = 4_294_967_295;

/// The greatest length and offset of a job.
const MAX_LENGTH: u64 = 65_535;

/// The greatest number of bytes that a command of a job stores, loads or copies.
const MAX_COUNT: u64 = MAX_BYTES as u64;

/// The greatest number of bytes that a command of a history stores, loads or copies.
const MAX_WIDE_COUNT: u64 = MOST_BYTES as u64;

/// What a field of one line may spell.
#[derive(Clone, Copy)]
pub(crate) enum Range {
    /// A number from the first to the second.
    Numbers(u64, u64),
    /// The size of a class.
    Class,
    /// An address of a job.
    Address,
    /// An address of a history.
    WideAddress,
    /// 1 to this number of bytes.
    Bytes(u64),
    /// One byte.
    Byte,
    /// A word, which has no fault NUMBER or HEX.
    Word,
}

/// What decides the ranges of the fields of one line.
#[derive(Clone, Copy)]
pub(crate) struct Limits {
    /// Whether the line is an entry of a history.
    is_recorded: bool,
    /// The greatest number of a worker of the job.
    last_worker: u64,
    /// The number of the worker whose script is next.
    next_worker: u64,
    /// The time at which the call of the line began.
    begin: u64,
}

impl Limits {
    /// The limits in a line at this place.
    pub(crate) fn at(place: &Place) -> Limits {
        Limits {
            is_recorded: matches!(place.section, Section::Entries(_)),
            last_worker: u64::from(place.workers.saturating_sub(1)),
            next_worker: match place.section {
                Section::Script(worker) => u64::from(worker) + 1,
                _ => 0,
            },
            begin: 0,
        }
    }

    /// These limits, in the line of a call that began at this time.
    pub(crate) fn with_begin(self, begin: u64) -> Limits {
        Limits { begin, ..self }
    }

    /// A range of a job, or another of a history.
    fn choose(&self, job: Range, history: Range) -> Range {
        if self.is_recorded { history } else { job }
    }
}

impl FieldKind {
    /// What a field of this kind may spell within these limits.
    pub(crate) fn range(self, limits: &Limits) -> Range {
        match self {
            FieldKind::Number(least, most) => Range::Numbers(least, most),
            FieldKind::Cell => limits.choose(
                Range::Numbers(0, MAX_CELL),
                Range::Numbers(0, MAX_WIDE_CELL),
            ),
            FieldKind::Size => limits.choose(
                Range::Numbers(0, MAX_LENGTH),
                Range::Numbers(0, MAX_RECORDED_LENGTH),
            ),
            FieldKind::Count => limits.choose(
                Range::Numbers(1, MAX_COUNT),
                Range::Numbers(1, MAX_WIDE_COUNT),
            ),
            FieldKind::Worker => Range::Numbers(0, limits.last_worker),
            FieldKind::NextWorker => Range::Numbers(limits.next_worker, limits.next_worker),
            FieldKind::End => Range::Numbers(limits.begin, u64::MAX),
            FieldKind::Address => limits.choose(Range::Address, Range::WideAddress),
            FieldKind::Class => Range::Class,
            FieldKind::Words => Range::Numbers(0, u64::MAX),
            FieldKind::Bytes => {
                limits.choose(Range::Bytes(MAX_COUNT), Range::Bytes(MAX_WIDE_COUNT))
            }
            FieldKind::Byte => Range::Byte,
            FieldKind::Literal | FieldKind::Refusal => Range::Word,
        }
    }
}

impl Range {
    /// Whether the text spells what is allowed.
    pub(crate) fn allows(self, text: &[u8]) -> bool
        ensures { result ≡ false → IsRefused self text.now }
    {
        match self {
            Range::Numbers(least, most) => number(text, least, most).is_ok(),
            Range::Class => is_class(text),
            Range::Address => address(text).is_ok(),
            Range::WideAddress => wide_address(text).is_ok(),
            Range::Bytes(most) => spells_bytes(text, most as usize),
            Range::Byte => byte(text).is_ok(),
            Range::Word => true,
        }
    }

    /// Returns why a field that doesn't spell what is allowed is misspelt.
    pub(crate) fn reason(self, field: Field, text: &[u8]) -> Option<Reason<'_>>
        requires { IsRefused self text.now }
        ensures { IfSome result (λ reason. IsSo reason) }
    {
        let spelt = Spelt(field, text);
        match self {
            Range::Bytes(most) => Some(Reason::Hex(spelt, bytes_reason(text, most))),
            Range::Byte => Some(Reason::Hex(spelt, byte_reason(text))),
            Range::Word => None,
            _ => Some(Reason::Number(spelt, self.number_reason(text))),
        }
    }

    /// Returns why a field that spells no number, class or address that is allowed is misspelt.
    fn number_reason(self, text: &[u8]) -> NumberReason
        requires { IsRefused self text.now }
        ensures { IsTrueOfNumber result text.now }
    {
        match self {
            Range::Numbers(least, most) => decimal_reason(text, numbers(least, most, text)),
            Range::Address => address_reason(text, NumberReason::Address),
            Range::WideAddress => address_reason(text, NumberReason::WideAddress),
            _ => decimal_reason(text, NumberReason::Class),
        }
    }
}

/// Whether the text spells the size of a class.
fn is_class(text: &[u8]) -> bool {
    match number(text, 0, 2048) {
        Ok(size) => class_of(size as u32).is_ok_and(|class| u64::from(class.size()) == size),
        Err(_) => false,
    }
}

/// That the text isn't one of these numbers.
fn numbers(least: u64, most: u64, text: &[u8]) -> NumberReason
    requires { IsNoNumber least most text.now }
    ensures { IsTrueOfNumber result text.now }
{
    let _ = text;
    if least == most {
        NumberReason::Only(least)
    } else {
        NumberReason::Numbers(least, most)
    }
}

/// A leading zero, if this is what is wrong with a decimal number. Otherwise the other reason.
fn decimal_reason(text: &[u8], otherwise: NumberReason) -> NumberReason
    requires { IsTrueOfNumber otherwise text.now }
    ensures { IsTrueOfNumber result text.now }
{
    if leads_zero(Base::Decimal, text) {
        NumberReason::LeadingZero
    } else {
        otherwise
    }
}

/// A leading zero or a digit in upper case, if this is what is wrong with an address. Otherwise the other reason.
fn address_reason(text: &[u8], otherwise: NumberReason) -> NumberReason
    requires { IsTrueOfNumber otherwise text.now }
    ensures { IsTrueOfNumber result text.now }
{
    if leads_zero(Base::Hex, text) {
        NumberReason::LeadingZero
    } else if has_upper_case(text) {
        NumberReason::UpperCase
    } else {
        otherwise
    }
}

/// Whether the text is a number of this base with a zero in front.
fn leads_zero(base: Base, text: &[u8]) -> bool
    ensures { result ≡ true → (2 ≤ length text.now) × (slice_index text.now 0 ≡ 48) }
{
    has_leading_zero(text) && base.value_of(text).is_some()
}

/// Whether all bytes of the text are hexadecimal digits, some in upper case.
fn has_upper_case(text: &[u8]) -> bool {
    text.iter().any(|byte| is_upper(*byte)) && no_digit_in(text).is_none()
}

/// Whether the byte is a hexadecimal digit in upper case.
fn is_upper(byte: u8) -> bool {
    (b'A'..=b'F').contains(&byte)
}

/// The first byte that is no hexadecimal digit, neither in lower nor in upper case.
fn no_digit_in(text: &[u8]) -> Option<u8> {
    for byte in text {
        if digit(*byte).is_none() && !is_upper(*byte) {
            return Some(*byte);
        }
    }
    None
}

/// Why the text doesn't spell 1 to `most` bytes.
fn bytes_reason(text: &[u8], most: u64) -> HexReason
    requires { IsRefused (Range.Bytes most) text.now }
    ensures { IsTrueOfHex result text.now }
{
    if text.len() % 2 == 1 {
        digits_reason(text, HexReason::Odd)
    } else {
        digits_reason(text, HexReason::Long(most))
    }
}

/// Why the text doesn't spell one byte.
fn byte_reason(text: &[u8]) -> HexReason
    requires { IsRefused Range.Byte text.now }
    ensures { IsTrueOfHex result text.now }
{
    digits_reason(text, HexReason::OneByte)
}

/// What is wrong with the digits of a text, if something is. Otherwise the other reason.
fn digits_reason(text: &[u8], otherwise: HexReason) -> HexReason
    requires { IsTrueOfHex otherwise text.now }
    ensures { IsTrueOfHex result text.now }
{
    match no_digit_in(text) {
        Some(byte) => HexReason::NoDigit(byte),
        None if has_upper_case(text) => HexReason::UpperCase,
        None => otherwise,
    }
}
