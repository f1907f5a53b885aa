//! Writes the sentence of a reason.
ghost use Rattle.std.specs.Prelude.{◌≡◌, ◌++◌, OnOk, codes, decimal};
ghost use Rattle.std.specs.List.{flat_map};
ghost use Rattle.text_reasons.specs.Quotes.{quoted_text};
ghost use Rattle.text_reasons.specs.Sentences.{byte_text, count_text, cut_text, entry_text, field_text, form_text, further_text, general_text, has_text, hex_text, number_text, other_text, reason_text, spelt_text, word_text, words_text};

use crate::quoting::{add_byte, add_quoted};
use crate::{
    ByteReason, CutReason, EntryKind, Field, Form, HexReason, NumberReason, Reason, Spelt,
    TextKind, Vocabulary, WordReason,
};
use model_words::FaultKind;
use std::alloc::AllocError;
use text_words::add_decimal;

/// Appends the sentence of a reason.
pub(crate) fn add_sentence(text: &mut Vec<u8>, reason: &Reason<'_>) -> Result<(), AllocError>
    ensures { OnOk result (text.new.items ≡ text.old.items ++ reason_text reason.now) }
{
    match reason {
        Reason::General(wanted, kind) => add(text, general(*wanted, *kind)),
        Reason::Cut(reason) => add(text, cut(*reason)),
        Reason::Byte(reason) => add_byte_reason(text, *reason),
        Reason::Word(reason) => add_word_reason(text, reason),
        Reason::Number(spelt, reason) => {
            add_spelt(text, spelt)?;
            add_number_reason(text, *reason)
        }
        Reason::Hex(spelt, reason) => {
            add_spelt(text, spelt)?;
            add_hex_reason(text, *reason)
        }
    }
}

/// Appends words.
fn add(text: &mut Vec<u8>, words: &str) -> Result<(), AllocError>
    ensures { OnOk result (text.new.items ≡ text.old.items ++ words.now) }
{
    text.extend_from_slice(words.as_bytes())
}

/// Appends words from three pieces.
fn add_all(text: &mut Vec<u8>, first: &str, second: &str, third: &str) -> Result<(), AllocError>
    ensures { OnOk result (text.new.items ≡ text.old.items ++ (first.now ++ second.now ++ third.now)) }
{
    add(text, first)?;
    add(text, second)?;
    add(text, third)
}

/// Appends words, a number and further words.
fn add_numbered(
    text: &mut Vec<u8>,
    before: &str,
    number: u64,
    behind: &str,
) -> Result<(), AllocError>
    ensures { OnOk result (text.new.items ≡ text.old.items ++ (before.now ++ decimal number ++ behind.now)) }
{
    add(text, before)?;
    add_decimal(text, number)?;
    add(text, behind)
}

/// What a fault of this kind is in general.
fn general(wanted: TextKind, kind: FaultKind) -> &'static str
    ensures { result.now ≡ general_text wanted kind }
{
    match kind {
        FaultKind::TooLong => too_long(wanted),
        FaultKind::Trailing => "a byte after 'end', the last line of a job",
        FaultKind::LongLine => long_line(wanted),
        FaultKind::Cut => "the text ends too early",
        FaultKind::Byte => "a byte outside 20 to 7e",
        FaultKind::Word => {
            "an empty field, a wrong number of fields, or a word that isn't allowed here"
        }
        FaultKind::Number => "a number that is spelt wrongly or out of range",
        FaultKind::Hex => "bytes that are spelt wrongly or of a wrong length",
    }
}

/// That a line is too long.
fn long_line(wanted: TextKind) -> &'static str
    ensures { result.now ≡ general_text wanted FaultKind.LongLine }
{
    match wanted {
        TextKind::Job => "more than 1,024 bytes in a line",
        TextKind::History => "more than 16,384 bytes in a line",
    }
}

/// That a text is too long.
fn too_long(wanted: TextKind) -> &'static str
    ensures { result.now ≡ general_text wanted FaultKind.TooLong }
{
    match wanted {
        TextKind::Job => "more than 1,048,576 bytes",
        TextKind::History => "more than 4,294,967,295 lines",
    }
}

/// Why a text ends too early.
fn cut(reason: CutReason) -> &'static str
    ensures { result.now ≡ cut_text reason }
{
    match reason {
        CutReason::Empty => "the text is empty",
        CutReason::Line => "the text ends within this line: the line end is missing",
        CutReason::End => "the text ends before the line 'end'",
    }
}

/// Appends which byte may not stand in a line.
fn add_byte_reason(text: &mut Vec<u8>, reason: ByteReason) -> Result<(), AllocError>
    ensures { OnOk result (text.new.items ≡ text.old.items ++ byte_text reason) }
{
    match reason {
        ByteReason::CarriageReturn => add(text, "a carriage return"),
        ByteReason::Tab => add(text, "a tab"),
        ByteReason::Other(byte) => {
            add(text, "the byte ")?;
            add_byte(text, byte)
        }
    }
}

/// Appends why the words of a line are faulty.
fn add_word_reason(text: &mut Vec<u8>, reason: &WordReason<'_>) -> Result<(), AllocError>
    ensures { OnOk result (text.new.items ≡ text.old.items ++ word_text reason.now) }
{
    match reason {
        WordReason::Comment => add(text, "there are no comments: a field begins with '#'"),
        WordReason::EmptyLine => add(text, "an empty line"),
        WordReason::LeadingBlank => add(text, "a leading blank"),
        WordReason::TrailingBlank => add(text, "a trailing blank"),
        WordReason::TwoBlanks => add(text, "two blanks in a row"),
        WordReason::OtherText(kind) => add(text, other(*kind)),
        WordReason::Expected(word, form) => add_expected(text, *word, form),
        WordReason::Unknown(word, known) => add_unknown(text, *word, known),
        WordReason::Count(form, count) => add_count(text, form, *count),
        WordReason::PairCount(count) => {
            let before = "pair has 3 to 35 fields: pair CLASS T WORD ..; here it has ";
            add_numbered(text, before, *count as u64, "")
        }
        WordReason::OnlyInVersionTwo => add(
            text,
            "'copy' is a command of version 2 alone, whose first line is 'mesh 2'",
        ),
        WordReason::NoMoreWorkers(workers) => add_numbered(
            text,
            "the job has no worker ",
            u64::from(*workers),
            ": its workers are counted from 0, and 'plan' is next",
        ),
        WordReason::NoScript(worker) => add_numbered(
            text,
            "the script of worker ",
            u64::from(*worker),
            " is missing before 'plan'",
        ),
        WordReason::ManyFields(most) => {
            add_numbered(text, "more than ", *most as u64, " fields")
        }
        WordReason::NoArrow(kind) => add_entry(text, "no field '->': ", *kind),
        WordReason::NoCommand(kind) => add_entry(text, "too few fields before '->': ", *kind),
        WordReason::NoAnswer(kind) => add_entry(text, "no answer behind '->': ", *kind),
        WordReason::OtherAnswer(answer, command) => add_other_answer(text, *answer, *command),
        WordReason::Literal(word, form) => add_literal(text, *word, form),
        WordReason::Name(name, number) => add_name(text, *name, *number),
    }
}

/// That the text is one of this kind, and another kind is read.
fn other(kind: TextKind) -> &'static str
    ensures { result.now ≡ other_text kind }
{
    match kind {
        TextKind::Job => "this is a job; did you mean meshrun replay?",
        TextKind::History => "this is a history; did you mean meshrun check?",
    }
}

/// Appends that another word stands where this line must be.
fn add_expected(text: &mut Vec<u8>, word: &[u8], form: &Form) -> Result<(), AllocError>
    ensures { OnOk result (text.new.items
        ≡ text.old.items
        ++ (quoted_text word.now ++ (codes " where '" ++ form_text form.now ++ codes "' is wanted"))) }
{
    add_quoted(text, word)?;
    add_form_between(text, " where '", form, "' is wanted")
}

/// Appends that a word is none of a vocabulary.
fn add_unknown(text: &mut Vec<u8>, word: &[u8], known: &Vocabulary) -> Result<(), AllocError>
    ensures { OnOk result (text.new.items
        ≡ text.old.items
        ++ (quoted_text word.now ++ (codes " is no " ++ known.now.0.now ++ codes "; ")
        ++ (words_text known.now.1.now ++ codes " are"))) }
{
    add_quoted(text, word)?;
    add_all(text, " is no ", known.0, "; ")?;
    add_words(text, known.1)?;
    add(text, " are")
}

/// Appends that a part of a line has this number of fields, which isn't that of its form.
fn add_count(text: &mut Vec<u8>, form: &Form, count: usize) -> Result<(), AllocError>
    ensures { OnOk result (text.new.items
        ≡ text.old.items
        ++ (has_text form.now ++ (codes ": " ++ form_text form.now ++ codes "; here it has ") ++ decimal count)) }
{
    add_has(text, form)?;
    add_form_between(text, ": ", form, "; here it has ")?;
    add_decimal(text, count as u64)
}

/// Appends the word of a form, and how many fields the form has.
#[tactic(auto, unfolding(crate::specs::Sentences::has_text))]
fn add_has(text: &mut Vec<u8>, form: &Form) -> Result<(), AllocError>
    ensures { OnOk result (text.new.items ≡ text.old.items ++ has_text form.now) }
{
    add(text, form.0)?;
    add(text, " has ")?;
    add_field_count(text, form)
}

/// Appends how many fields a form has.
#[tactic(auto, unfolding(crate::specs::Sentences::count_text))]
fn add_field_count(text: &mut Vec<u8>, form: &Form) -> Result<(), AllocError>
    ensures { OnOk result (text.new.items ≡ text.old.items ++ count_text form.now) }
{
    match form.1.len() {
        0 => add(text, "1 field"),
        behind => add_numbered(text, "", behind as u64 + 1, " fields"),
    }
}

/// Appends what is wrong with an entry of this kind, and the form of the entry.
fn add_entry(text: &mut Vec<u8>, before: &str, kind: EntryKind) -> Result<(), AllocError>
    ensures { OnOk result (text.new.items ≡ text.old.items ++ (before.now ++ entry_text kind)) }
{
    add(text, before)?;
    match kind {
        EntryKind::InOrder => add(text, "W COMMAND -> ANSWER"),
        EntryKind::Overlapping => add(text, "W BEGIN END COMMAND -> ANSWER"),
    }
}

/// Appends that a command doesn't have an answer.
fn add_other_answer(text: &mut Vec<u8>, answer: &[u8], command: &[u8]) -> Result<(), AllocError>
    ensures { OnOk result (text.new.items
        ≡ text.old.items
        ++ (quoted_text answer.now ++ (codes " is no answer to " ++ quoted_text command.now
        ++ codes " in version 2"))) }
{
    add_quoted(text, answer)?;
    add_quoted_between(text, " is no answer to ", command, " in version 2")
}

/// Appends a quoted piece between words.
fn add_quoted_between(
    text: &mut Vec<u8>,
    before: &str,
    piece: &[u8],
    behind: &str,
) -> Result<(), AllocError>
    ensures { OnOk result (text.new.items ≡ text.old.items ++ (before.now ++ quoted_text piece.now ++ behind.now)) }
{
    add(text, before)?;
    add_quoted(text, piece)?;
    add(text, behind)
}

/// Appends that a field isn't the word that the form has in its place.
fn add_literal(text: &mut Vec<u8>, word: &[u8], form: &Form) -> Result<(), AllocError>
    ensures { OnOk result (text.new.items
        ≡ text.old.items
        ++ (quoted_text word.now ++ codes " where another word is wanted: " ++ form_text form.now)) }
{
    add_quoted(text, word)?;
    add(text, " where another word is wanted: ")?;
    add_form(text, form)
}

/// Appends that the refusal with a number has another name.
fn add_name(text: &mut Vec<u8>, name: &[u8], number: &[u8]) -> Result<(), AllocError>
    ensures { OnOk result (text.new.items
        ≡ text.old.items
        ++ (quoted_text name.now ++ codes " isn't the NAME of refusal " ++ quoted_text number.now)) }
{
    add_quoted(text, name)?;
    add(text, " isn't the NAME of refusal ")?;
    add_quoted(text, number)
}

/// Appends a form between words.
fn add_form_between(
    text: &mut Vec<u8>,
    before: &str,
    form: &Form,
    behind: &str,
) -> Result<(), AllocError>
    ensures { OnOk result (text.new.items ≡ text.old.items ++ (before.now ++ form_text form.now ++ behind.now)) }
{
    add(text, before)?;
    add_form(text, form)?;
    add(text, behind)
}

/// Appends a form: its word, and the names of its fields.
#[tactic(auto, unfolding(crate::specs::Sentences::form_text))]
fn add_form(text: &mut Vec<u8>, form: &Form) -> Result<(), AllocError>
    ensures { OnOk result (text.new.items ≡ text.old.items ++ form_text form.now) }
{
    add(text, form.0)?;
    add_fields(text, form.1)
}

/// Appends the names of fields, a space before each.
fn add_fields(text: &mut Vec<u8>, fields: &[Field]) -> Result<(), AllocError>
    ensures { OnOk result (text.new.items ≡ text.old.items ++ flat_map field_text fields.now) }
{
    for field in fields {
        add_field(text, field)?;
    }
    Ok(())
}

/// Appends a space and the name of a field.
fn add_field(text: &mut Vec<u8>, field: &Field) -> Result<(), AllocError>
    ensures { OnOk result (text.new.items ≡ text.old.items ++ field_text field.now) }
{
    add(text, " ")?;
    add(text, field.0)
}

/// Appends the words of forms, with commas between them.
#[tactic(auto, unfolding(crate::specs::Sentences::words_text))]
fn add_words(text: &mut Vec<u8>, forms: &[Form]) -> Result<(), AllocError>
    ensures { OnOk result (text.new.items ≡ text.old.items ++ words_text forms.now) }
{
    let [first, further @ ..] = forms else {
        return Ok(());
    };
    add(text, first.0)?;
    add_further(text, further)
}

/// Appends the words of forms, a comma before each.
fn add_further(text: &mut Vec<u8>, forms: &[Form]) -> Result<(), AllocError>
    ensures { OnOk result (text.new.items ≡ text.old.items ++ flat_map further_text forms.now) }
{
    for form in forms {
        add_word(text, form)?;
    }
    Ok(())
}

/// Appends a comma and the word of a form.
fn add_word(text: &mut Vec<u8>, form: &Form) -> Result<(), AllocError>
    ensures { OnOk result (text.new.items ≡ text.old.items ++ further_text form.now) }
{
    add(text, ", ")?;
    add(text, form.0)
}

/// Appends that something is no spelling of a field.
fn add_spelt(text: &mut Vec<u8>, spelt: &Spelt<'_>) -> Result<(), AllocError>
    ensures { OnOk result (text.new.items ≡ text.old.items ++ spelt_text spelt.now) }
{
    add_quoted(text, spelt.1)?;
    add(text, " is no ")?;
    add(text, spelt.0.0)
}

/// Appends why a number, a class or an address is faulty.
fn add_number_reason(text: &mut Vec<u8>, reason: NumberReason) -> Result<(), AllocError>
    ensures { OnOk result (text.new.items ≡ text.old.items ++ number_text reason) }
{
    match reason {
        NumberReason::LeadingZero => add(text, ": a number has no leading zero"),
        NumberReason::Numbers(least, most) => {
            add_numbered(text, ", a number from ", least, " to ")?;
            add_decimal(text, most)
        }
        NumberReason::Only(value) => add_numbered(text, ": only ", value, " is allowed here"),
        NumberReason::Class => add(
            text,
            ": 16, 32, 64, 128, 256, 384, 512, 1024, 1536, 2048 are",
        ),
        NumberReason::UpperCase => add(text, ": hexadecimal digits are in lower case"),
        NumberReason::Address => add(text, ", a hexadecimal number from 0 to fffffff"),
        NumberReason::WideAddress => add(text, ", a hexadecimal number from 0 to ffffffffffff"),
        NumberReason::Version => add(text, " that is read here: 1 is"),
    }
}

/// Appends why bytes are faulty.
fn add_hex_reason(text: &mut Vec<u8>, reason: HexReason) -> Result<(), AllocError>
    ensures { OnOk result (text.new.items ≡ text.old.items ++ hex_text reason) }
{
    match reason {
        HexReason::NoDigit(byte) => {
            add(text, ": '")?;
            add_byte(text, byte)?;
            add(text, "' is no hexadecimal digit")
        }
        HexReason::UpperCase => add(text, ": hexadecimal digits are in lower case"),
        HexReason::Odd => add(text, ": an odd number of digits"),
        HexReason::Long(most) => add_numbered(text, ": more than ", most, " bytes"),
        HexReason::OneByte => add(text, ": a byte has two digits"),
    }
}
