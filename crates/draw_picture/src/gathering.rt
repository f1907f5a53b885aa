//! The lines above a frame, and whether a new frame is to be drawn.
ghost use Rattle.std.specs.Prelude.{◌≡◌, ◌++◌, [], IfOk, OnOk, map};
ghost use Rattle.draw_picture.specs.Cards.{height_of};
ghost use Rattle.draw_picture.specs.Gatherings.{EndsWith, EndsWithLine, IsCaptionOf};
ghost use Rattle.draw_picture.specs.Notes.{cut_text, plain_byte};

use crate::alike::{are_alike, copied, empty_frame, shows_nothing};
use crate::frame::Frame;
use crate::numbers::{narrow, plus};
use crate::pills::is_step;
use std::alloc::{AllocError, Global};

/// The greatest number of captions above one frame. If there are more, captions before the last one are left out, and
/// only their lines are counted.
pub const MAX_CAPTIONS: usize = 12;

/// The greatest number of bytes that are shown of a line's words.
const MAX_WORDS: usize = 50;

/// The greatest number of bytes that are shown of an answer.
const MAX_ANSWER: usize = 56;

/// A line of a plan that has been run, with its answer.
#[derive(Clone, Copy)]
pub struct Line<'a> {
    /// The line's number, counted from 1.
    pub number: u32,
    /// The line's words. A long text is cut, and any byte that is not printable ASCII becomes a question mark.
    pub words: &'a [u8],
    /// The line's answer. It is cut as the words are, and its first words determine its colour.
    pub answer: &'a [u8],
}

/// A line of the plan with its answer, or several such lines in a row that are shown as one.
#[derive(Drop)]
pub struct Caption {
    /// The first line's number.
    pub from: u32,
    /// The last line's number.
    pub to: u32,
    /// The number of lines that the caption represents.
    pub times: u32,
    /// The words.
    pub words: Vec<u8>,
    /// The answer of the last line.
    pub answer: Vec<u8>,
}

/// The lines since the last frame, and the last frame.
pub struct Gathering {
    /// The captions, in order.
    pub captions: Vec<Caption>,
    /// The number of lines that are left out before the last caption.
    pub hidden: u32,
    /// The last frame that was shown, with the current state of its meshes and the current counts.
    pub last: Frame,
    /// Whether a frame has been shown.
    pub begun: bool,
    alloc: Global,
}

#[rattlefmt::skip]
impl Drop for Gathering {
    fn drop(self) { let Gathering { captions: _, hidden: _, last: _, begun: _, alloc: _ } = self; }
}

impl Gathering {
    /// Returns a gathering with no lines, before the first frame.
    pub fn new(alloc: Global) -> Gathering {
        Gathering {
            captions: Vec::new(alloc),
            hidden: 0,
            last: empty_frame(alloc),
            begun: false,
            alloc,
        }
    }

    /// Adds a line with its answer. If the line repeats the last caption, the line is merged into that caption. The
    /// only error is an allocation failure.
    pub fn add(&mut self, line: &Line<'_>) -> Result<(), AllocError>
        ensures ends { OnOk result (EndsWithLine self.new.captions.items line.now) }
        ensures last { self.new.last ≡ self.old.last }
        ensures begun { self.new.begun ≡ self.old.begun }
    {
        let mut caption = caption_of(self.alloc, line)?;
        if let Some(last) = self.captions.last_mut() {
            if repeats(last, &caption) {
                caption.from = last.from;
                caption.times = last.times.saturating_add(1);
                *last = caption;
                return Ok(());
            }
        }
        self.add_behind(caption)
    }

    /// Appends a caption. If there are `MAX_CAPTIONS` captions already, first removes the last of them and counts its
    /// lines as hidden. The only error is an allocation failure.
    fn add_behind(&mut self, caption: Caption) -> Result<(), AllocError>
        ensures ends { OnOk result (EndsWith self.new.captions.items caption) }
        ensures last { self.new.last ≡ self.old.last }
        ensures begun { self.new.begun ≡ self.old.begun }
    {
        if self.captions.len() >= MAX_CAPTIONS {
            if let Some(left_out) = self.captions.pop() {
                self.hidden = self.hidden.saturating_add(left_out.times);
            }
        }
        Ok(self.captions.push(caption)?)
    }

    /// Whether `frame` doesn't look like the last frame that was shown. If no frame has been shown, whether `frame`
    /// shows anything.
    pub fn is_due(&self, frame: &Frame) -> bool {
        if self.begun {
            !are_alike(&self.last, frame)
        } else {
            !shows_nothing(frame)
        }
    }

    /// Updates the meshes and the counts of the last frame to those of `frame`, which looks like the last frame. The
    /// only error is an allocation failure.
    pub fn keep_up(&mut self, frame: &Frame) -> Result<(), AllocError> {
        self.last.meshes = frame.meshes.clone()?;
        self.last.counts = frame.counts;
        Ok(())
    }

    /// Records that `frame` has been shown with the gathered lines above it, and discards these lines. The only error
    /// is an allocation failure.
    pub fn shown(&mut self, frame: &Frame) -> Result<(), AllocError>
        ensures captions { OnOk result (self.new.captions.items ≡ []) }
        ensures hidden { OnOk result (self.new.hidden ≡ 0) }
    {
        self.last = copied(frame)?;
        self.begun = true;
        self.captions.clear();
        self.hidden = 0;
        Ok(())
    }

    /// Returns the number of lines of text above a frame.
    pub fn height(&self) -> u32
        ensures { result ≡ height_of self.now }
    {
        plus(narrow(self.captions.len()), self.hidden.min(1))
    }
}

/// Whether a caption repeats the caption before it: both have the same words and the same answer.
fn repeats(earlier: &Caption, later: &Caption) -> bool {
    earlier.words.as_slice() == later.words.as_slice() && has_same_answer(earlier, later)
}

/// Whether two captions have the same answer. If the later answer is that of a step, only the first words are compared,
/// because a step's answer contains the number of steps left.
fn has_same_answer(earlier: &Caption, later: &Caption) -> bool {
    if is_step(later.answer.as_slice()) {
        first_word(earlier.answer.as_slice()) == first_word(later.answer.as_slice())
    } else {
        earlier.answer.as_slice() == later.answer.as_slice()
    }
}

/// Returns the first word of an answer.
fn first_word(answer: &[u8]) -> &[u8] {
    match answer.iter().position(|b| *b == b' ') {
        Some(end) => &answer[..end.min(answer.len())],
        None => answer,
    }
}

/// Returns a caption of one line. The only error is an allocation failure.
fn caption_of(alloc: Global, line: &Line<'_>) -> Result<Caption, AllocError>
    ensures { IfOk result (λ caption. IsCaptionOf caption line.now) }
{
    Ok(Caption {
        from: line.number,
        to: line.number,
        times: 1,
        words: cut(alloc, b"", line.words, MAX_WORDS)?,
        answer: cut(alloc, b"", line.answer, MAX_ANSWER)?,
    })
}

/// Returns the bytes `first`, and then the first `most` bytes of a text, followed by two dots if the text is longer.
/// Any byte of the text that is not printable ASCII becomes a question mark. The only error is an allocation failure.
pub(crate) fn cut(
    alloc: Global,
    first: &[u8],
    words: &[u8],
    most: usize,
) -> Result<Vec<u8>, AllocError>
    ensures { IfOk result (λ all. all.items ≡ first.now ++ cut_text most words.now) }
{
    let mut all = Vec::new(alloc);
    all.extend_from_slice(first)?;
    add_cut(&mut all, words, most)?;
    Ok(all)
}

/// Appends the first `most` bytes of a text, followed by two dots if the text is longer.
fn add_cut(all: &mut Vec<u8>, words: &[u8], most: usize) -> Result<(), AllocError>
    ensures { OnOk result (all.new.items ≡ all.old.items ++ cut_text most words.now) }
{
    if words.len() <= most {
        return add_plain(all, words);
    }
    add_plain(all, &words[..most])?;
    Ok(all.extend_from_slice(b"..")?)
}

/// Appends a text. Any byte that is not printable ASCII becomes a question mark.
fn add_plain(all: &mut Vec<u8>, words: &[u8]) -> Result<(), AllocError>
    ensures { OnOk result (all.new.items ≡ all.old.items ++ map plain_byte words.now) }
{
    for byte in words {
        all.push(plain_byte(*byte))?;
    }
    Ok(())
}

/// Returns a byte of printable ASCII itself, and a question mark for any other byte.
fn plain_byte(byte: u8) -> u8
    ensures { result ≡ plain_byte byte }
{
    if (32..127).contains(&byte) {
        byte
    } else {
        b'?'
    }
}
