//! The words above the plot.
use crate::plot::courses::Course;
use crate::plot::lines::PLOT;
use crate::plot::style::{HEADING, NOTE};
use crate::plot::words::{spell_long, spell_number, write};
use draw_svg::{Anchor, Look, Shapes};
use savings_replay::{Rounds, Settings, Words};

/// The title of the picture.
pub const TITLE: &str = "Physical memory with and without meshing";

/// What a plot is of: the path of the history, which is `-` for standard input, and the settings of the replay.
#[derive(Clone, Copy)]
pub struct Caption<'a> {
    pub path: &'a str,
    pub settings: Settings,
}

/// Draws the title, the measured calls of the history, and a note that explains the numbers and has the options.
pub fn draw_caption(shapes: &mut Shapes, course: &Course, caption: &Caption) {
    let title = shapes.spell(b"", TITLE, &[]);
    let heading = Look::of("ink").with(HEADING);
    write(shapes, heading, Anchor::Start, PLOT.x, 300, title);
    if course.before < course.last {
        let measured = spell_measured(shapes, course, caption.path);
        draw_line(shapes, 480, measured);
    }
    let note = spell_note(shapes, course, &caption.settings);
    draw_line(shapes, 650, note);
}

/// Writes a line of soft words.
fn draw_line(shapes: &mut Shapes, y: u32, words: Vec<u8>) {
    let soft = Look::of("soft").with(NOTE);
    write(shapes, soft, Anchor::Start, PLOT.x, y, words);
}

/// Spells the numbers of the first and of the last measured call, and the name of the history.
fn spell_measured(shapes: &mut Shapes, course: &Course, path: &str) -> Vec<u8> {
    let words = shapes.spell(b"calls ", "", &[]);
    let words = spell_number(shapes, words, course.before.saturating_add(1));
    let words = shapes.spell(words.as_slice(), " to ", &[]);
    let words = spell_number(shapes, words, course.last);
    let words = shapes.spell(words.as_slice(), " of ", &[]);
    shapes.spell(words.as_slice(), name_at(path), &[])
}

/// Returns the name of the file at a path.
fn name_at(path: &str) -> &str {
    if path == "-" {
        return "the recorded program";
    }
    match path.rsplit_once('/') {
        Some((_, name)) => name,
        None => path,
    }
}

/// Spells what the numbers are of, and the options of the replay.
fn spell_note(shapes: &mut Shapes, course: &Course, settings: &Settings) -> Vec<u8> {
    let words = shapes.spell(b"pages of objects up to 2,048 bytes", "", &[]);
    let words = spell_width(shapes, words, course.width);
    spell_options(shapes, words, settings)
}

/// Appends the number of calls of an interval, if it is above 1.
fn spell_width(shapes: &mut Shapes, words: Vec<u8>, width: u32) -> Vec<u8> {
    if width <= 1 {
        return words;
    }
    let every = "; the least and the greatest value of every ";
    let words = shapes.spell(words.as_slice(), every, &[]);
    let words = spell_number(shapes, words, width);
    shapes.spell(words.as_slice(), " calls", &[])
}

/// Appends the options of the command line that stand for these settings.
fn spell_options(shapes: &mut Shapes, words: Vec<u8>, settings: &Settings) -> Vec<u8> {
    let (rounds, number) = match settings.rounds {
        Rounds::Every(frees) => ("; --every # --members # --probe # ", frees),
        Rounds::Share(part) => ("; --share # --members # --probe # ", part),
    };
    let numbers = [number, settings.members, settings.probe];
    let words = shapes.spell(words.as_slice(), rounds, &numbers);
    match settings.words {
        Words::Seeded(seed) => {
            let words = shapes.spell(words.as_slice(), "--seed ", &[]);
            spell_long(shapes, words, seed)
        }
        Words::FirstFit => shapes.spell(words.as_slice(), "--first-fit", &[]),
    }
}
