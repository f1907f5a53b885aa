//! The reasons for a fault WORD that the blanks of a line tell, whatever its words.
use crate::WordReason;

/// Returns why the fields of the line are faulty, whatever they mean: a comment or an empty field. Returns `None` if
/// neither is in the line.
pub(crate) fn blank_reason<'a>(line: &[u8]) -> Option<WordReason<'a>> {
    if has_comment(line) {
        return Some(WordReason::Comment);
    }
    match line {
        [] => Some(WordReason::EmptyLine),
        [b' ', ..] => Some(WordReason::LeadingBlank),
        [.., b' '] => Some(WordReason::TrailingBlank),
        _ if has_two_blanks(line) => Some(WordReason::TwoBlanks),
        _ => None,
    }
}

/// Whether some field begins with `#`.
fn has_comment(line: &[u8]) -> bool {
    let mut before = b' ';
    for byte in line {
        if before == b' ' && *byte == b'#' {
            return true;
        }
        before = *byte;
    }
    false
}

/// Whether two blanks stand side by side.
fn has_two_blanks(line: &[u8]) -> bool {
    let mut before = 0;
    for byte in line {
        if before == b' ' && *byte == b' ' {
            return true;
        }
        before = *byte;
    }
    false
}
