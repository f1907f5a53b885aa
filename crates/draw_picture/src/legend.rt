//! Drawing the legend: the signs of a picture and their meanings.
use crate::layout::MARGIN;
use crate::lettering::{Face, Label};
use draw_svg::{Area, Look, write_rect};
use std::alloc::{AllocError, Global};

/// The upper sides of the signs in the first and in the second line.
const FIRST: u32 = 600;

const SECOND: u32 = 780;

/// Returns the signs of a picture of pages if `by_pages`, and otherwise the signs of a map of occupancy.
pub(crate) fn legend(alloc: Global, by_pages: bool) -> Result<Vec<u8>, AllocError> {
    let mut shapes = Vec::new(alloc);
    if by_pages {
        write_signs_of_pages(&mut shapes)?;
    } else {
        write_signs_of_map(&mut shapes)?;
    }
    Ok(shapes)
}

/// Appends the signs of a picture of pages. The colour with the number 0 represents all objects.
fn write_signs_of_pages(shapes: &mut Vec<u8>) -> Result<(), AllocError> {
    let object = Look::nth("o", 0);
    write_rect(
        shapes,
        &object.with("rest"),
        &Area::at(MARGIN, FIRST, 240, 120),
        0,
    )?;
    write_rect(shapes, &object, &Area::at(MARGIN, FIRST, 160, 120), 0)?;
    write_meaning(shapes, "object; pale: rest of its slot", MARGIN, FIRST)?;
    write_sign(
        shapes,
        object.with("copy"),
        "copied, not yet mapped",
        2_850,
        FIRST,
    )?;
    write_sign(
        shapes,
        object.with("old"),
        "bytes no longer mapped",
        5_100,
        FIRST,
    )?;
    write_sign(
        shapes,
        Look::of("ro"),
        "read-only: stores are blocked",
        MARGIN,
        SECOND,
    )?;
    write_sign(
        shapes,
        Look::of("new"),
        "changed by the last of the lines",
        2_850,
        SECOND,
    )
}

/// Appends the signs of a map of occupancy.
fn write_signs_of_map(shapes: &mut Vec<u8>) -> Result<(), AllocError> {
    write_sign(
        shapes,
        Look::of("occ"),
        "slot with an object",
        MARGIN,
        FIRST,
    )?;
    write_sign(shapes, Look::of("pg"), "slots without one", 2_850, FIRST)?;
    write_sign(
        shapes,
        Look::of("rom"),
        "read-only: stores are blocked",
        MARGIN,
        SECOND,
    )
}

/// Appends a sign and its meaning.
fn write_sign(
    shapes: &mut Vec<u8>,
    look: Look,
    meaning: &str,
    x: u32,
    y: u32,
) -> Result<(), AllocError> {
    write_rect(shapes, &look, &Area::at(x, y, 240, 120), 0)?;
    write_meaning(shapes, meaning, x, y)
}

/// Appends the meaning of the sign with the upper left corner (`x`, `y`).
fn write_meaning(shapes: &mut Vec<u8>, meaning: &str, x: u32, y: u32) -> Result<(), AllocError> {
    Label::start(
        Face::Plain,
        "soft",
        x.saturating_add(310),
        y.saturating_add(100),
    )
    .write(shapes, meaning.as_bytes())
}
