//! Drawing the lines above a frame.
ghost use Rattle.std.specs.Prelude.{◌≡◌, ◌++◌, IfOk, OnOk};
ghost use Rattle.draw_picture.specs.Captions.{caption_text, captions_text, each_text, hidden_text, is_of_mesher, is_refusal, is_step, number_text, pill_text, told, tone_of};

use crate::gathering::{Caption, Gathering};
use crate::layout::PAD;
use crate::lettering::{Face, Label, width_of};
use crate::numbers::{narrow, plus, times};
use draw_svg::{Area, Look, end_group, words_of, write_group, write_rect};
use std::alloc::AllocError;

/// Returns the style rule of an answer: of a line that was blocked, of a line that was not done because of a refusal,
/// an ended script or a full journal or that is wrong, of something that the mesher did, or of a line that was done.
fn tone_of(answer: &[u8]) -> &'static str
    ensures { result.now ≡ tone_of answer.now }
{
    if answer.starts_with(b"blocked") {
        "pb"
    } else if is_refusal(answer) || answer.starts_with(b"wrong") {
        "pr"
    } else if is_of_mesher(answer) {
        "pm"
    } else {
        "pd"
    }
}

/// Whether an answer is that to a line that was not done.
fn is_refusal(answer: &[u8]) -> bool
    ensures { result ≡ is_refusal answer.now }
{
    answer.starts_with(b"refused")
        || answer.starts_with(b"over")
        || answer.starts_with(b"history full")
}

/// Whether an answer is that of a step.
pub fn is_step(answer: &[u8]) -> bool
    ensures { result ≡ is_step answer.now }
{
    answer.starts_with(b"protect ")
        || answer.starts_with(b"copy ")
        || answer.starts_with(b"remap ")
        || answer.starts_with(b"unprotect ")
        || answer.starts_with(b"release ")
}

/// Whether an answer reports what the mesher did.
fn is_of_mesher(answer: &[u8]) -> bool
    ensures { result ≡ is_of_mesher answer.now }
{
    is_step(answer)
        || answer.starts_with(b"left ")
        || answer.starts_with(b"meshed ")
        || answer.starts_with(b"swept ")
        || answer.starts_with(b"found ")
}

/// The distance from one caption to the next.
pub const LINE: u32 = 200;

/// The left side of the words of captions.
const INDENT: u32 = 620;

/// The gap between words and answer.
const SPACE: u32 = 120;

/// The gap between an answer and the sides of its pill.
const INSIDE: u32 = 70;

/// Returns the width of a card that a caption needs. The only error is an allocation failure.
pub fn caption_width(caption: &Caption) -> Result<u32, AllocError> {
    let words = width_of(Face::Plain, told(caption)?.as_slice());
    let answer = width_of(Face::Plain, caption.answer.as_slice());
    Ok(plus(plus(words, answer), INDENT + SPACE + 2 * INSIDE + 120))
}

/// Returns the words of a caption. If the caption represents several lines, their number is appended.
fn told(caption: &Caption) -> Result<Vec<u8>, AllocError>
    ensures { IfOk result (λ words. words.items ≡ told caption.now) }
{
    let words = caption.words.as_slice();
    let alloc = *caption.words.allocator();
    if caption.times > 1 {
        words_of(alloc, words, " x#", &[caption.times])
    } else {
        words_of(alloc, words, "", &[])
    }
}

/// Appends the captions of a card, and below them the number of lines that are left out before the last one.
#[tactic(auto, unfolding(crate::specs::Captions::captions_text))]
pub(crate) fn write_captions(text: &mut Vec<u8>, gathering: &Gathering) -> Result<(), AllocError>
    ensures { OnOk result
        (text.new.items ≡ text.old.items ++ captions_text gathering.now.captions.items gathering.now.hidden) }
{
    let captions = gathering.captions.as_slice();
    write_each(text, captions)?;
    write_hidden(text, gathering.hidden, narrow(captions.len()))
}

/// Appends captions, one below the other.
fn write_each(text: &mut Vec<u8>, captions: &[Caption]) -> Result<(), AllocError>
    ensures { OnOk result (text.new.items ≡ text.old.items ++ each_text 0 captions.now) }
{
    let mut row = 0u32;
    let mut rest = captions;
    while let [caption, behind @ ..] = rest {
        write_caption(text, caption, row)?;
        row = plus(row, 1);
        rest = behind;
    }
    Ok(())
}

/// Appends the number of lines that are left out before the last one, if there are any.
#[tactic(auto, unfolding(crate::specs::Captions::hidden_text))]
fn write_hidden(text: &mut Vec<u8>, lines: u32, row: u32) -> Result<(), AllocError>
    ensures { OnOk result (text.new.items ≡ text.old.items ++ hidden_text lines row) }
{
    if lines == 0 {
        return Ok(());
    }
    let line = plus(200, times(row, LINE));
    Label::start(Face::Plain, "soft", INDENT, line).say(
        text,
        ".. and # more lines before the last",
        &[lines],
    )
}

/// Appends a caption: the numbers of its lines, its words and its answer.
#[tactic(auto, unfolding(crate::specs::Captions::caption_text))]
fn write_caption(text: &mut Vec<u8>, caption: &Caption, row: u32) -> Result<(), AllocError>
    ensures { OnOk result (text.new.items ≡ text.old.items ++ caption_text row caption.now) }
{
    write_group(text, 0, times(row, LINE))?;
    write_number(text, caption)?;
    let words = told(caption)?;
    Label::start(Face::Plain, "ink", INDENT, 200).write(text, words.as_slice())?;
    let left = plus(INDENT + SPACE, width_of(Face::Plain, words.as_slice()));
    write_pill(text, caption.answer.as_slice(), left)?;
    end_group(text)
}

/// Appends the number of a caption's line, or the numbers of its first and last line.
#[tactic(auto, unfolding(crate::specs::Captions::number_text))]
fn write_number(text: &mut Vec<u8>, caption: &Caption) -> Result<(), AllocError>
    ensures { OnOk result (text.new.items ≡ text.old.items ++ number_text caption.now) }
{
    let label = Label::end(Face::Plain, "soft", INDENT - 100, 200).within(INDENT - PAD - 100);
    if caption.to == caption.from {
        label.say(text, "#", &[caption.to])
    } else {
        label.say(text, "#-#", &[caption.from, caption.to])
    }
}

/// Appends an answer in its pill.
#[tactic(auto, unfolding(crate::specs::Captions::pill_text))]
fn write_pill(text: &mut Vec<u8>, answer: &[u8], x: u32) -> Result<(), AllocError>
    ensures { OnOk result (text.new.items ≡ text.old.items ++ pill_text answer.now x) }
{
    let area = Area {
        x,
        y: 80,
        w: plus(width_of(Face::Plain, answer), 2 * INSIDE),
        h: 165,
    };
    write_rect(text, &Look::of(tone_of(answer)), &area, 80)?;
    Label::start(Face::Plain, "pt", plus(x, INSIDE), 200).write(text, answer)
}
