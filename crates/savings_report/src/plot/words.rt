//! Words and numbers.
use draw_svg::{Anchor, Label, Look, Shapes};
use itoa::Buffer;

/// The values of the digits after which a long number has a comma.
static UNITS: [u32; 3] = [1_000_000_000, 1_000_000, 1_000];

/// Writes words at a place, in their natural width.
pub fn write(shapes: &mut Shapes, look: Look, anchor: Anchor, x: u32, y: u32, words: Vec<u8>) {
    let width = None;
    shapes.words(
        Label {
            look,
            anchor,
            x,
            y,
            width,
        },
        words,
    );
}

/// Appends a number to words, with a comma between thousands.
pub fn spell_number(shapes: &mut Shapes, words: Vec<u8>, number: u32) -> Vec<u8> {
    let mut words = words;
    let mut has_begun = false;
    for unit in &UNITS {
        let group = number / (*unit).max(1);
        if group > 0 {
            words = spell_group(shapes, &words, group, has_begun, ",");
            has_begun = true;
        }
    }
    spell_group(shapes, &words, number, has_begun, "")
}

/// Appends the decimal digits of a number.
pub fn spell_long(shapes: &mut Shapes, words: Vec<u8>, number: u64) -> Vec<u8> {
    let mut digits = Buffer::new();
    shapes.spell(words.as_slice(), digits.format(number), &[])
}

/// Appends the last three digits of a number to words, and then `end`. Zeros before the first other digit are written
/// only if other digits have begun.
fn spell_group(
    shapes: &mut Shapes,
    words: &[u8],
    number: u32,
    has_begun: bool,
    end: &str,
) -> Vec<u8> {
    let group = number % 1_000;
    let words = if has_begun {
        let digits = [group / 100, group / 10 % 10, group % 10];
        shapes.spell(words, "###", &digits)
    } else {
        shapes.spell(words, "#", &[group])
    };
    shapes.spell(words.as_slice(), end, &[])
}

/// Appends a number of pages in MiB, rounded half up: with three decimals below 1 MiB, and else with one. A page has
/// 4,096 bytes.
pub fn spell_mib(shapes: &mut Shapes, words: Vec<u8>, pages: u32) -> Vec<u8> {
    if pages == 0 {
        shapes.spell(words.as_slice(), "0", &[])
    } else if pages < 256 {
        let thousandths = (pages * 1_000 + 128) / 256;
        let digits = [
            thousandths / 1_000,
            thousandths / 100 % 10,
            thousandths / 10 % 10,
            thousandths % 10,
        ];
        shapes.spell(words.as_slice(), "#.###", &digits)
    } else {
        let tenths = (10 * u64::from(pages) + 128) / 256;
        let words = spell_number(shapes, words, (tenths / 10) as u32);
        shapes.spell(words.as_slice(), ".#", &[(tenths % 10) as u32])
    }
}

/// Spells a number of calls, for example `500`, `20 k` or `1.5 M`.
pub fn spell_calls(shapes: &mut Shapes, calls: u32) -> Vec<u8> {
    if calls >= 1_000_000 && calls % 100_000 == 0 {
        spell_tenths(shapes, calls / 100_000, " M")
    } else if calls >= 1_000 && calls % 100 == 0 {
        spell_tenths(shapes, calls / 100, " k")
    } else {
        shapes.spell(b"", "#", &[calls])
    }
}

/// Spells a number that is given in tenths of a unit, with a decimal if it isn't 0, and then the unit.
fn spell_tenths(shapes: &mut Shapes, tenths: u32, unit: &str) -> Vec<u8> {
    let template = if tenths % 10 > 0 { "#.#" } else { "#" };
    let number = shapes.spell(b"", template, &[tenths / 10, tenths % 10]);
    shapes.spell(number.as_slice(), unit, &[])
}
