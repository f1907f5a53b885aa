//! Splitting a text into lines, and a line into its fields.
ghost use Rattle.std.specs.Prelude.{◌≡◌, ◌-◌, ◌<◌, ◌≤◌, ◌⊎◌, ◌∷◌, [], Ok, Err, true, false, ◌++◌, length, take, drop, nat_eq, IfSome, IfOk, IfErr, IsNone, OnOk, OnErr};
ghost use Rattle.std.specs.List.{list_all, list_any, slice_split};
ghost use Rattle.model_jobs.specs.JobFiles.{are_same, five_fields, header_in, is_empty, is_printable, no_field, one_field, three_fields, two_fields};
ghost use Rattle.text_fields.specs.KeptLines.{rest_fault};
ghost use Rattle.text_fields.specs.Lines.{IsFaultyLine, IsPartOfLine, IsSplit, bytes_fit, is_field_byte, line_fields, text_lines, texts};

use crate::numbers::number32;
use arrayvec::ArrayVec;
use model_words::FaultKind;

/// The greatest number of bytes of a line of a job or a session, without the line end.
pub const MAX_LINE_BYTES: usize = 1024;

/// The greatest number of bytes of a line of a history, without the line end. A line with 4,096 bytes in HEX fits.
pub const MAX_RECORDED_BYTES: usize = 16_384;

/// The greatest number of fields of a line.
const MAX_FIELDS: usize = 35;

/// The fields of one line. The first field is the line's word.
pub type Fields<'a> = ArrayVec<&'a [u8], MAX_FIELDS>;

/// The greatest number of fields of a line that isn't a `pair` line.
const FEW_FIELDS: usize = 6;

/// The fields of a line that isn't a `pair` line. The first field is the line's word.
pub type FewFields<'a> = ArrayVec<&'a [u8], FEW_FIELDS>;

/// Returns the bytes before the first `at`, and the bytes after it. Returns `None` if no byte is `at`.
pub fn cut(bytes: &[u8], at: u8) -> Option<(&[u8], &[u8])>
    ensures none { IsNone result → slice_split (λ b. nat_eq b at) bytes.now ≡ bytes.now ∷ [] }
    ensures some { IfSome result
        (λ pieces. slice_split (λ b. nat_eq b at) bytes.now
        ≡ pieces.0.now ∷ slice_split (λ b. nat_eq b at) pieces.1.now) }
    ensures shorter { IfSome result (λ pieces. length pieces.1.now < length bytes.now) }
{
    let place = bytes.iter().position(|byte| *byte == at)?;
    Some((&bytes[..place], &bytes[place + 1..]))
}

/// Whether the byte is allowed in a line.
fn is_printable(byte: u8) -> bool
    ensures { result ≡ is_printable byte }
{
    (b' '..=b'~').contains(&byte)
}

/// Checks the bytes of a line, without the line end. The error is LONG_LINE if there are more than `most` bytes.
/// Otherwise it is BYTE if some byte isn't from 0x20 to 0x7e.
pub fn check_bytes(line: &[u8], most: usize) -> Result<(), FaultKind>
    ensures { result ≡ bytes_fit most line.now }
{
    if line.len() > most {
        return Err(FaultKind::LongLine);
    }
    if !line.iter().all(|byte| is_printable(*byte)) {
        return Err(FaultKind::Byte);
    }
    Ok(())
}

/// Returns the fault of a text that ends with these bytes after its last line end: LONG_LINE if there are more than
/// `most` bytes, and CUT otherwise.
pub fn rest_fault(rest: &[u8], most: usize) -> FaultKind
    ensures { result ≡ rest_fault most rest.now }
{
    if rest.len() > most {
        FaultKind::LongLine
    } else {
        FaultKind::Cut
    }
}

/// Returns the next line without its line end, and the bytes after that line end. Returns `None` if the text contains
/// no line end and has at most 1,024 bytes.
///
/// The error is LONG_LINE if the first 1,025 bytes contain no line end, and BYTE if some byte of the line isn't from
/// 0x20 to 0x7e.
pub fn next_line(text: &[u8]) -> Result<Option<(&[u8], &[u8])>, FaultKind>
    ensures lines { IfOk result
        (λ next. IfSome next (λ pieces. text_lines text.now ≡ pieces.0.now ∷ text_lines pieces.1.now)) }
    ensures short { IfOk result (λ next. IfSome next (λ pieces. length pieces.0.now ≤ 1024)) }
    ensures printable { IfOk result (λ next. IfSome next (λ pieces. list_all is_printable pieces.0.now ≡ true)) }
    ensures shorter { IfOk result (λ next. IfSome next (λ pieces. length pieces.1.now < length text.now)) }
    ensures part { IfOk result (λ next. IsNone next → IsPartOfLine text.now) }
    ensures err { IfErr result (λ kind. IsFaultyLine text.now kind) }
{
    let Some((line, rest)) = cut(text, b'\n') else {
        return if text.len() > MAX_LINE_BYTES {
            Err(FaultKind::LongLine)
        } else {
            Ok(None)
        };
    };
    check_bytes(line, MAX_LINE_BYTES)?;
    Ok(Some((line, rest)))
}

/// Splits the next line of a text into its fields, and returns the bytes after the line end. This single scan is for
/// the most frequent lines. Returns `None` if the text has no whole line, or if the line has a fault, an empty field or
/// more than `FEW_FIELDS` fields.
pub fn few_fields<'a>(text: &'a [u8], fields: &mut FewFields<'a>) -> Option<&'a [u8]>
    requires { fields.old.items ≡ [] }
    ensures split { IfSome result (λ rest. IsSplit text.now (texts fields.new.items) rest.now) }
    ensures filled { IfSome result (λ rest. list_any is_empty (texts fields.new.items) ≡ false) }
    ensures shorter { IfSome result (λ rest. length rest.now < length text.now) }
{
    let most = text.len().min(MAX_LINE_BYTES + 1);
    let mut start = 0;
    while start < most {
        let end = field_end(text, start, most);
        if end == most {
            return None;
        }
        let Ok(()) = add_field(fields, &text[start..end]) else {
            return None;
        };
        if text[end] == b'\n' {
            return Some(&text[end + 1..]);
        }
        if text[end] != b' ' {
            return None;
        }
        start = end + 1;
    }
    None
}

/// Returns the first place from `start` to `most` whose byte isn't allowed in a field. Returns `most` if all bytes
/// before `most` are allowed.
#[inline(never)]
fn field_end(text: &[u8], start: usize, most: usize) -> usize
    requires start { start ≤ most }
    requires most { most ≤ length text.now }
    ensures least { start ≤ result }
    ensures most { result ≤ most }
    ensures bytes { list_all is_field_byte (take (result - start) (drop start text.now)) ≡ true }
{
    let mut place = start;
    while place < most && is_field_byte(text[place]) {
        place += 1;
    }
    place
}

/// Whether the byte is allowed in a field.
fn is_field_byte(byte: u8) -> bool
    ensures { result ≡ is_field_byte byte }
{
    (b'!'..=b'~').contains(&byte)
}

/// Returns the fields between the single spaces of a line. The error is WORD if some field is empty, or if there are
/// more than 35 fields.
pub fn fields_of(line: &[u8]) -> Result<Fields<'_>, FaultKind>
    ensures fields { IfOk result (λ fields. texts fields.items ≡ line_fields line.now) }
    ensures filled { OnOk result (list_any is_empty (line_fields line.now) ≡ false) }
    ensures kind { IfErr result (λ kind. kind ≡ FaultKind.Word) }
    ensures err { OnErr result
        ((list_any is_empty (line_fields line.now) ≡ true) ⊎ (35 < length (line_fields line.now))) }
{
    fields_up_to::<MAX_FIELDS>(line)
}

/// Does the same as `fields_of`, for a line of at most `MOST` fields.
pub fn fields_up_to<const MOST: usize>(line: &[u8]) -> Result<ArrayVec<&[u8], MOST>, FaultKind>
    ensures fields { IfOk result (λ fields. texts fields.items ≡ line_fields line.now) }
    ensures filled { OnOk result (list_any is_empty (line_fields line.now) ≡ false) }
    ensures kind { IfErr result (λ kind. kind ≡ FaultKind.Word) }
    ensures err { OnErr result
        ((list_any is_empty (line_fields line.now) ≡ true) ⊎ (MOST < length (line_fields line.now))) }
{
    let mut fields = ArrayVec::new();
    let mut rest = line;
    while let Some((field, behind)) = cut(rest, b' ') {
        add_field(&mut fields, field)?;
        rest = behind;
    }
    add_field(&mut fields, rest)?;
    Ok(fields)
}

/// Appends a field. The error is WORD if the field is empty or the list is full.
fn add_field<'a, const MOST: usize>(
    fields: &mut ArrayVec<&'a [u8], MOST>,
    field: &'a [u8],
) -> Result<(), FaultKind>
    ensures ok { OnOk result (texts fields.new.items ≡ texts fields.old.items ++ field.now ∷ []) }
    ensures filled { OnOk result (is_empty field.now ≡ false) }
    ensures kind { IfErr result (λ kind. kind ≡ FaultKind.Word) }
    ensures err { OnErr result ((is_empty field.now ≡ true) ⊎ (length (texts fields.old.items) ≡ MOST)) }
{
    if field.is_empty() {
        return Err(FaultKind::Word);
    }
    fields.try_push(field).map_err(|_| FaultKind::Word)
}

/// Whether the word of a line is `wanted`.
pub fn is_word(word: &[u8], wanted: &[u8]) -> bool
    ensures { result ≡ are_same word.now wanted.now }
{
    word == wanted
}

/// Returns the only field after the word of a line. The error is WORD if the number of fields isn't one.
pub fn one_field<'a>(fields: &[&'a [u8]]) -> Result<&'a [u8], FaultKind>
    ensures ok { IfOk result (λ field. one_field (texts fields.now) ≡ Ok field.now) }
    ensures err { IfErr result (λ kind. one_field (texts fields.now) ≡ Err kind) }
{
    match fields {
        [first] => Ok(*first),
        _ => Err(FaultKind::Word),
    }
}

/// Returns the two fields after the word of a line. The error is WORD if the number of fields isn't two.
pub fn two_fields<'a>(fields: &[&'a [u8]]) -> Result<(&'a [u8], &'a [u8]), FaultKind>
    ensures ok { IfOk result (λ f. two_fields (texts fields.now) ≡ Ok (f.0.now, f.1.now)) }
    ensures err { IfErr result (λ kind. two_fields (texts fields.now) ≡ Err kind) }
{
    match fields {
        [first, second] => Ok((*first, *second)),
        _ => Err(FaultKind::Word),
    }
}

/// Returns the three fields after the word of a line. The error is WORD if the number of fields isn't three.
pub fn three_fields<'a>(fields: &[&'a [u8]]) -> Result<(&'a [u8], &'a [u8], &'a [u8]), FaultKind>
    ensures ok { IfOk result (λ f. three_fields (texts fields.now) ≡ Ok (f.0.now, f.1.now, f.2.now)) }
    ensures err { IfErr result (λ kind. three_fields (texts fields.now) ≡ Err kind) }
{
    match fields {
        [first, second, third] => Ok((*first, *second, *third)),
        _ => Err(FaultKind::Word),
    }
}

/// Returns the five fields after the word of a line. The error is WORD if the number of fields isn't five.
pub fn five_fields<'a>(
    fields: &[&'a [u8]],
) -> Result<(&'a [u8], &'a [u8], &'a [u8], &'a [u8], &'a [u8]), FaultKind>
    ensures ok { IfOk result (λ f. five_fields (texts fields.now) ≡ Ok (f.0.now, f.1.now, f.2.now, f.3.now, f.4.now)) }
    ensures err { IfErr result (λ kind. five_fields (texts fields.now) ≡ Err kind) }
{
    match fields {
        [first, second, third, fourth, fifth] => Ok((*first, *second, *third, *fourth, *fifth)),
        _ => Err(FaultKind::Word),
    }
}

/// Checks that a line has no field after its word. The error is WORD if the line has such a field.
pub fn no_field(fields: &[&[u8]]) -> Result<(), FaultKind>
    ensures { result ≡ no_field (texts fields.now) }
{
    match fields {
        [] => Ok(()),
        _ => Err(FaultKind::Word),
    }
}

/// Reads a header line, which is the word `wanted` and one number, and returns the number. The error is WORD if the
/// line has another word or another number of fields. Otherwise it is NUMBER if the number isn't from `least` to
/// `most`.
pub fn header(
    word: &[u8],
    fields: &[&[u8]],
    wanted: &[u8],
    least: u32,
    most: u32,
) -> Result<u32, FaultKind>
    ensures { result ≡ header_in wanted.now least most word.now (texts fields.now) }
{
    if !is_word(word, wanted) {
        return Err(FaultKind::Word);
    }
    let field = one_field(fields)?;
    number32(field, least, most)
}
