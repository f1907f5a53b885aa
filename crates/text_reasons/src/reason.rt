//! `Reason`, why a line has a fault.
ghost use Rattle.std.specs.Prelude.{◌≡◌};
ghost use Rattle.text_reasons.specs.Reasons.{kind_of};

use crate::{EntryKind, Field, Form, TextKind, Vocabulary};
use model_words::FaultKind;

/// Why a line has a fault. Each variant but the first belongs to one kind of fault.
#[derive(Clone, Copy)]
pub enum Reason<'a> {
    /// What a fault of this kind is in general.
    General(TextKind, FaultKind),
    /// The reason for a fault CUT.
    Cut(CutReason),
    /// The reason for a fault BYTE.
    Byte(ByteReason),
    /// The reason for a fault WORD.
    Word(WordReason<'a>),
    /// The reason for a fault NUMBER of this field.
    Number(Spelt<'a>, NumberReason),
    /// The reason for a fault HEX of this field.
    Hex(Spelt<'a>, HexReason),
}

/// A field of a line, and what stands in its place.
#[derive(Clone, Copy)]
pub struct Spelt<'a>(pub Field, pub &'a [u8]);

/// Why a text ends too early.
#[derive(Clone, Copy)]
pub enum CutReason {
    /// It has no byte.
    Empty,
    /// It ends within a line.
    Line,
    /// A job ends before its line `end`.
    End,
}

/// The byte that may not stand in a line.
#[derive(Clone, Copy)]
pub enum ByteReason {
    /// Most often the first of the two bytes of a line end.
    CarriageReturn,
    Tab,
    /// Any other byte.
    Other(u8),
}

/// Why the words of a line are faulty.
#[derive(Clone, Copy)]
pub enum WordReason<'a> {
    /// A `#` begins a comment in other formats.
    Comment,
    EmptyLine,
    LeadingBlank,
    TrailingBlank,
    TwoBlanks,
    /// The text is one of this kind, which isn't the kind that is read.
    OtherText(TextKind),
    /// Another word stands where this line must be.
    Expected(&'a [u8], Form),
    /// No word of the vocabulary is this one.
    Unknown(&'a [u8], Vocabulary),
    /// The part of the line that begins with the form's word has another number of fields: this one.
    Count(Form, usize),
    /// A `pair` has this number of fields, which is too few or too many.
    PairCount(usize),
    /// Only version 2 has the command `copy`.
    OnlyInVersionTwo,
    /// Another worker is headed, and the job has no more workers than this number.
    NoMoreWorkers(u32),
    /// The plan is headed before the script of the worker with this number.
    NoScript(u32),
    /// The entry has more fields than this number.
    ManyFields(usize),
    /// The entry has no field `->`.
    NoArrow(EntryKind),
    /// Too few fields are before `->`.
    NoCommand(EntryKind),
    /// No field is behind `->`.
    NoAnswer(EntryKind),
    /// `OtherAnswer(answer, command)`: the command doesn't have this answer.
    OtherAnswer(&'a [u8], &'a [u8]),
    /// This field isn't the word that the form has in its place.
    Literal(&'a [u8], Form),
    /// `Name(name, number)`: the refusal with the number has another name.
    Name(&'a [u8], &'a [u8]),
}

/// Why a number, a class or an address is faulty.
#[derive(Clone, Copy)]
pub enum NumberReason {
    /// It begins with 0, and isn't 0.
    LeadingZero,
    /// It isn't a number from the first to the second.
    Numbers(u64, u64),
    /// It isn't this number.
    Only(u64),
    /// It isn't the size of a class.
    Class,
    /// It has a digit in upper case.
    UpperCase,
    /// It isn't an address of a job.
    Address,
    /// It isn't an address of a history.
    WideAddress,
    /// It is the version of a history that isn't read here.
    Version,
}

/// Why bytes are faulty.
#[derive(Clone, Copy)]
pub enum HexReason {
    /// A byte that is no hexadecimal digit is among them.
    NoDigit(u8),
    /// They have a digit in upper case.
    UpperCase,
    /// Their number of digits is odd.
    Odd,
    /// They are more than this number of bytes, the most that the field may have.
    Long(u64),
    /// They aren't the two digits of a single byte.
    OneByte,
}

impl<'a> Reason<'a> {
    /// The kind of fault that the reason is for.
    pub fn kind(&self) -> FaultKind
        ensures { result ≡ kind_of self.now }
    {
        match self {
            Reason::General(_, kind) => *kind,
            Reason::Cut(_) => FaultKind::Cut,
            Reason::Byte(_) => FaultKind::Byte,
            Reason::Word(_) => FaultKind::Word,
            Reason::Number(..) => FaultKind::Number,
            Reason::Hex(..) => FaultKind::Hex,
        }
    }
}
