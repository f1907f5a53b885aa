//! The frame of a file: its root element and its style.
ghost use Rattle.std.specs.Prelude.{◌≡◌, ◌++◌, OnOk};
ghost use Rattle.draw_svg.specs.Files.{font, opening, root_text, style_text, title_text, view_box_text};

use crate::writer::{write_attribute, write_escaped, write_number};
use std::alloc::AllocError;

/// Appends the start of the root element, and the file's title.
pub(crate) fn write_root(
    text: &mut Vec<u8>,
    title: &[u8],
    width: u32,
    height: u32,
) -> Result<(), AllocError>
    ensures { OnOk result (text.new.items ≡ text.old.items ++ root_text title.now width height) }
{
    write_opening(text)?;
    write_attribute(text, "width", width / 10)?;
    write_attribute(text, "height", height / 10)?;
    write_view_box(text, width, height)?;
    write_title(text, title)
}

/// Appends `<svg` and the attributes that are the same in each file.
#[tactic(auto, unfolding(crate::specs::Files::opening))]
fn write_opening(text: &mut Vec<u8>) -> Result<(), AllocError>
    ensures { OnOk result (text.new.items ≡ text.old.items ++ opening) }
{
    Ok(text.extend_from_slice(b"<svg xmlns=\"http://www.w3.org/2000/svg\" role=\"img\"")?)
}

/// Appends the area that the file shows, and the end of the root element's start.
fn write_view_box(text: &mut Vec<u8>, width: u32, height: u32) -> Result<(), AllocError>
    ensures { OnOk result (text.new.items ≡ text.old.items ++ view_box_text width height) }
{
    text.extend_from_slice(b" viewBox=\"0 0 ")?;
    write_number(text, width)?;
    text.extend_from_slice(b" ")?;
    write_number(text, height)?;
    Ok(text.extend_from_slice(b"\">\n")?)
}

/// Appends the file's title.
fn write_title(text: &mut Vec<u8>, title: &[u8]) -> Result<(), AllocError>
    ensures { OnOk result (text.new.items ≡ text.old.items ++ title_text title.now) }
{
    text.extend_from_slice(b"<title>")?;
    write_escaped(text, title)?;
    Ok(text.extend_from_slice(b"</title>\n")?)
}

/// Appends the style: the default font, these rules, and these rules for a dark background.
pub(crate) fn write_style(text: &mut Vec<u8>, rules: &str, dark: &str) -> Result<(), AllocError>
    ensures { OnOk result (text.new.items ≡ text.old.items ++ style_text rules.now dark.now) }
{
    write_font(text)?;
    text.extend_from_slice(rules.as_bytes())?;
    text.extend_from_slice(b"@media (prefers-color-scheme:dark){\n")?;
    text.extend_from_slice(dark.as_bytes())?;
    Ok(text.extend_from_slice(b"}\n</style>\n")?)
}

/// Appends the start of the style, with the default font.
#[tactic(auto, unfolding(crate::specs::Files::font))]
fn write_font(text: &mut Vec<u8>) -> Result<(), AllocError>
    ensures { OnOk result (text.new.items ≡ text.old.items ++ font) }
{
    Ok(text.extend_from_slice(
        b"<style>\ntext{font-family:'DejaVu Sans',Verdana,Helvetica,Arial,sans-serif}\n",
    )?)
}
