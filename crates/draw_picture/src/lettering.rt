//! Labels: words in letters of a fixed width, which does not depend on the reader's fonts.
ghost use Rattle.std.specs.Prelude.{◌≡◌, ◌++◌, OnOk};
ghost use Rattle.draw_picture.specs.Lettering.{advance, beginning, centred, ending, face_rule, inked, is_letter, label_text, letters, lettering_of, limited, words_width};
ghost use Rattle.draw_svg.specs.Templates.{filled};

use crate::numbers::{plus, times};
use draw_svg::{Anchor, Label as Place, Look, words_of, write_words};
use std::alloc::AllocError;

/// The kinds of lettering: that of the title, the usual one, and that of names.
#[derive(Clone, Copy)]
pub enum Face {
    Title,
    Plain,
    Strong,
}

impl Face {
    /// Returns the style rule of the lettering.
    fn rule(self) -> &'static str
        ensures { result.now ≡ face_rule self }
    {
        match self {
            Face::Title => "ft",
            Face::Plain => "fn",
            Face::Strong => "fs",
        }
    }

    /// Returns the width of a letter, for the sizes in the style rules.
    fn advance(self) -> u32
        ensures { result ≡ advance self }
    {
        match self {
            Face::Title => 102,
            _ => 66,
        }
    }
}

/// Returns the number of letters in words of UTF-8.
fn letters(words: &[u8]) -> u32
    ensures { result ≡ letters words.now }
{
    let mut count = 0u32;
    let mut rest = words;
    while let [byte, behind @ ..] = rest {
        if is_letter(*byte) {
            count = plus(count, 1);
        }
        rest = behind;
    }
    count
}

/// Whether a byte isn't the continuation of a letter.
fn is_letter(byte: u8) -> bool
    ensures { result ≡ is_letter byte }
{
    byte < 128 || 192 <= byte
}

/// Returns the width of words in this lettering.
pub fn width_of(face: Face, words: &[u8]) -> u32
    ensures { result ≡ words_width face words.now }
{
    times(letters(words), face.advance())
}

/// The lettering, the colour and the place of words.
#[derive(Clone, Copy)]
pub struct Label {
    /// The lettering.
    face: Face,
    /// The colour.
    ink: Look,
    /// The part of the words that is at the place.
    anchor: Anchor,
    /// The horizontal place of the words, from the left.
    x: u32,
    /// The baseline of the words.
    y: u32,
    /// The greatest width of the words.
    room: u32,
}

impl Label {
    /// Returns the label of words that start at a place.
    #[tactic(auto, unfolding(crate::specs::Lettering::lettering_of))]
    pub fn start(face: Face, ink: &'static str, x: u32, y: u32) -> Label
        ensures { lettering_of result ≡ beginning face ink.now x y }
    {
        Label {
            face,
            ink: Look::of(ink),
            anchor: Anchor::Start,
            x,
            y,
            room: u32::MAX,
        }
    }

    /// Returns the label of words that end at a place.
    #[tactic(auto, unfolding(crate::specs::Lettering::lettering_of))]
    pub fn end(face: Face, ink: &'static str, x: u32, y: u32) -> Label
        ensures { lettering_of result ≡ ending face ink.now x y }
    {
        let anchor = Anchor::End;
        Label {
            anchor,
            ..Label::start(face, ink, x, y)
        }
    }

    /// Returns the label of words that are centred at a place.
    #[tactic(auto, unfolding(crate::specs::Lettering::lettering_of))]
    pub fn middle(face: Face, ink: &'static str, x: u32, y: u32) -> Label
        ensures { lettering_of result ≡ centred face ink.now x y }
    {
        let anchor = Anchor::Middle;
        Label {
            anchor,
            ..Label::start(face, ink, x, y)
        }
    }

    /// Returns this label in the colour with a number in a family of colours.
    #[tactic(auto, unfolding(crate::specs::Lettering::lettering_of))]
    pub fn inked(self, family: &'static str, number: u32) -> Label
        ensures { lettering_of result ≡ inked (lettering_of self) family.now number }
    {
        Label {
            ink: Look::nth(family, number),
            ..self
        }
    }

    /// Returns this label with `room` as the greatest width of the words.
    #[tactic(auto, unfolding(crate::specs::Lettering::lettering_of))]
    pub fn within(self, room: u32) -> Label
        ensures { lettering_of result ≡ limited (lettering_of self) room }
    {
        Label { room, ..self }
    }

    /// Appends the words of a template, with numbers in the places of `#`.
    pub fn say(self, text: &mut Vec<u8>, template: &str, numbers: &[u32]) -> Result<(), AllocError>
        ensures { OnOk result
            (text.new.items ≡ text.old.items ++ label_text (lettering_of self) (filled template.now numbers.now)) }
    {
        let words = words_of(*text.allocator(), b"", template, numbers)?;
        self.write(text, words.as_slice())
    }

    /// Appends words.
    #[tactic(auto, unfolding(crate::specs::Lettering::label_text, crate::specs::Lettering::lettering_of))]
    pub fn write(self, text: &mut Vec<u8>, words: &[u8]) -> Result<(), AllocError>
        ensures { OnOk result (text.new.items ≡ text.old.items ++ label_text (lettering_of self) words.now) }
    {
        let width = width_of(self.face, words).min(self.room).max(1);
        let place = Place {
            look: self.ink.with(self.face.rule()),
            anchor: self.anchor,
            x: self.x,
            y: self.y,
            width: Some(width),
        };
        write_words(text, &place, words)
    }
}
