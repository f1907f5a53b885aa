//! The writer of shapes.
ghost use Rattle.std.specs.Prelude.{◌≡◌, ◌++◌, OnOk, Option, decimal};
ghost use Rattle.std.specs.List.{flat_map};
ghost use Rattle.draw_svg.specs.Shapes.{also_text, anchor_text, area_text, attribute_text, group_end, group_text, number_text, path_text, place_of, place_text, point_text, rect_text, round_text, shape_text, shapes_text, style_of, style_text, way_text, width_text, words_text};
ghost use Rattle.draw_svg.specs.Texts.{escaped, escaped_byte};

use crate::shapes::{Anchor, Area, Label, Look, Point, Shape, Way};
use itoa::Buffer;
use std::alloc::AllocError;

/// Appends a number in decimal digits.
pub(crate) fn write_number(text: &mut Vec<u8>, number: u32) -> Result<(), AllocError>
    ensures { OnOk result (text.new.items ≡ text.old.items ++ decimal number) }
{
    let mut digits = Buffer::new();
    Ok(text.extend_from_slice(digits.format(number).as_bytes())?)
}

/// Appends bytes, with the special characters of SVG escaped. A control byte is written as a question mark.
pub(crate) fn write_escaped(text: &mut Vec<u8>, words: &[u8]) -> Result<(), AllocError>
    ensures { OnOk result (text.new.items ≡ text.old.items ++ escaped words.now) }
{
    for byte in words {
        write_escaped_byte(text, *byte)?;
    }
    Ok(())
}

/// Appends one byte, escaped. A control byte is written as a question mark.
fn write_escaped_byte(text: &mut Vec<u8>, byte: u8) -> Result<(), AllocError>
    ensures { OnOk result (text.new.items ≡ text.old.items ++ escaped_byte byte) }
{
    match byte {
        b'&' => text.extend_from_slice(b"&amp;")?,
        b'<' => text.extend_from_slice(b"&lt;")?,
        b'>' => text.extend_from_slice(b"&gt;")?,
        b'"' => text.extend_from_slice(b"&quot;")?,
        0..=31 | 127 => text.extend_from_slice(b"?")?,
        _ => text.extend_from_slice(&[byte])?,
    }
    Ok(())
}

/// Appends the attribute ` name="number"`.
pub(crate) fn write_attribute(text: &mut Vec<u8>, name: &str, number: u32) -> Result<(), AllocError>
    ensures { OnOk result (text.new.items ≡ text.old.items ++ attribute_text name.now number) }
{
    text.extend_from_slice(b" ")?;
    text.extend_from_slice(name.as_bytes())?;
    text.extend_from_slice(b"=\"")?;
    write_number(text, number)?;
    Ok(text.extend_from_slice(b"\"")?)
}

/// Appends the number of a style rule, if it has one.
fn write_rule_number(text: &mut Vec<u8>, number: Option<u32>) -> Result<(), AllocError>
    ensures { OnOk result (text.new.items ≡ text.old.items ++ number_text number) }
{
    match number {
        None => Ok(()),
        Some(number) => write_number(text, number),
    }
}

/// Appends the name of a second style rule, if it isn't empty.
fn write_second_rule(text: &mut Vec<u8>, also: &str) -> Result<(), AllocError>
    ensures { OnOk result (text.new.items ≡ text.old.items ++ also_text also.now) }
{
    if also.is_empty() {
        return Ok(());
    }
    text.extend_from_slice(b" ")?;
    Ok(text.extend_from_slice(also.as_bytes())?)
}

/// Appends the attribute ` class=".."` with the names of style rules.
fn write_look(text: &mut Vec<u8>, look: &Look) -> Result<(), AllocError>
    ensures { OnOk result (text.new.items ≡ text.old.items ++ style_text (style_of look.now)) }
{
    text.extend_from_slice(b" class=\"")?;
    text.extend_from_slice(look.name.as_bytes())?;
    write_rule_number(text, look.number)?;
    write_second_rule(text, look.also)?;
    Ok(text.extend_from_slice(b"\"")?)
}

/// Appends the attributes of an area.
fn write_area(text: &mut Vec<u8>, area: &Area) -> Result<(), AllocError>
    ensures { OnOk result (text.new.items ≡ text.old.items ++ area_text area.now) }
{
    write_attribute(text, "x", area.x)?;
    write_attribute(text, "y", area.y)?;
    write_attribute(text, "width", area.w)?;
    write_attribute(text, "height", area.h)
}

/// Appends the attribute of round corners. Sharp corners have none.
fn write_round(text: &mut Vec<u8>, round: u32) -> Result<(), AllocError>
    ensures { OnOk result (text.new.items ≡ text.old.items ++ round_text round) }
{
    if round == 0 {
        Ok(())
    } else {
        write_attribute(text, "rx", round)
    }
}

/// Returns the letter of a path command.
fn letter_of(way: Way) -> &'static [u8]
    ensures { result.now ≡ way_text way }
{
    match way {
        Way::Move => b"M",
        Way::Line => b"L",
        Way::Curve => b"C",
        Way::Bend => b"",
    }
}

/// Appends a point of a path.
fn write_point(text: &mut Vec<u8>, point: &Point) -> Result<(), AllocError>
    ensures { OnOk result (text.new.items ≡ text.old.items ++ point_text point.now) }
{
    text.extend_from_slice(letter_of(point.way))?;
    write_number(text, point.x)?;
    text.extend_from_slice(b",")?;
    write_number(text, point.y)?;
    Ok(text.extend_from_slice(b" ")?)
}

/// Appends the points of a path.
fn write_points(text: &mut Vec<u8>, points: &[Point]) -> Result<(), AllocError>
    ensures { OnOk result (text.new.items ≡ text.old.items ++ flat_map point_text points.now) }
{
    for point in points {
        write_point(text, point)?;
    }
    Ok(())
}

/// Returns the attribute of an anchor.
fn anchor_of(anchor: Anchor) -> &'static [u8]
    ensures { result.now ≡ anchor_text anchor }
{
    match anchor {
        Anchor::Start => b"",
        Anchor::Middle => b" text-anchor=\"middle\"",
        Anchor::End => b" text-anchor=\"end\"",
    }
}

/// Appends the attributes of a fixed width, if there is one.
fn write_width(text: &mut Vec<u8>, width: Option<u32>) -> Result<(), AllocError>
    ensures { OnOk result (text.new.items ≡ text.old.items ++ width_text width) }
{
    match width {
        None => Ok(()),
        Some(width) => {
            write_attribute(text, "textLength", width)?;
            Ok(text.extend_from_slice(b" lengthAdjust=\"spacingAndGlyphs\"")?)
        }
    }
}

/// Appends the attributes of a label.
fn write_label(text: &mut Vec<u8>, label: &Label) -> Result<(), AllocError>
    ensures { OnOk result (text.new.items ≡ text.old.items ++ place_text (place_of label.now)) }
{
    write_look(text, &label.look)?;
    write_attribute(text, "x", label.x)?;
    write_attribute(text, "y", label.y)?;
    text.extend_from_slice(anchor_of(label.anchor))?;
    write_width(text, label.width)
}

/// Appends shapes, one after the other.
pub(crate) fn write_shapes(text: &mut Vec<u8>, shapes: &[Shape]) -> Result<(), AllocError>
    ensures { OnOk result (text.new.items ≡ text.old.items ++ shapes_text shapes.now) }
{
    for shape in shapes {
        write_shape(text, shape)?;
    }
    Ok(())
}

/// Appends a shape.
pub(crate) fn write_shape(text: &mut Vec<u8>, shape: &Shape) -> Result<(), AllocError>
    ensures { OnOk result (text.new.items ≡ text.old.items ++ shape_text shape.now) }
{
    match shape {
        Shape::Rect(look, area, round) => write_rect(text, look, area, *round),
        Shape::Path(look, points) => write_path(text, look, points),
        Shape::Words(label, words) => write_words(text, label, words),
    }
}

/// Appends a rectangle, whose corners have the radius `round`.
#[tactic(auto, unfolding(crate::specs::Shapes::rect_text))]
pub fn write_rect(
    text: &mut Vec<u8>,
    look: &Look,
    area: &Area,
    round: u32,
) -> Result<(), AllocError>
    ensures { OnOk result (text.new.items ≡ text.old.items ++ rect_text (style_of look.now) area.now round) }
{
    text.extend_from_slice(b"<rect")?;
    write_look(text, look)?;
    write_area(text, area)?;
    write_round(text, round)?;
    Ok(text.extend_from_slice(b"/>\n")?)
}

/// Appends a path.
#[tactic(auto, unfolding(crate::specs::Shapes::path_text))]
pub fn write_path(text: &mut Vec<u8>, look: &Look, points: &[Point]) -> Result<(), AllocError>
    ensures { OnOk result (text.new.items ≡ text.old.items ++ path_text (style_of look.now) points.now) }
{
    text.extend_from_slice(b"<path")?;
    write_look(text, look)?;
    text.extend_from_slice(b" d=\"")?;
    write_points(text, points)?;
    Ok(text.extend_from_slice(b"\"/>\n")?)
}

/// Appends words at a place. Any byte may be among them: they are escaped.
#[tactic(auto, unfolding(crate::specs::Shapes::words_text))]
pub fn write_words(text: &mut Vec<u8>, label: &Label, words: &[u8]) -> Result<(), AllocError>
    ensures { OnOk result (text.new.items ≡ text.old.items ++ words_text (place_of label.now) words.now) }
{
    text.extend_from_slice(b"<text")?;
    write_label(text, label)?;
    text.extend_from_slice(b">")?;
    write_escaped(text, words)?;
    Ok(text.extend_from_slice(b"</text>\n")?)
}

/// Appends the start of a group of shapes. The places of its shapes are relative to this place.
#[tactic(auto, unfolding(crate::specs::Shapes::group_text))]
pub fn write_group(text: &mut Vec<u8>, x: u32, y: u32) -> Result<(), AllocError>
    ensures { OnOk result (text.new.items ≡ text.old.items ++ group_text x y) }
{
    text.extend_from_slice(b"<g transform=\"translate(")?;
    write_number(text, x)?;
    text.extend_from_slice(b",")?;
    write_number(text, y)?;
    Ok(text.extend_from_slice(b")\">\n")?)
}

/// Appends the end of a group of shapes.
#[tactic(auto, unfolding(crate::specs::Shapes::group_end))]
pub fn end_group(text: &mut Vec<u8>) -> Result<(), AllocError>
    ensures { OnOk result (text.new.items ≡ text.old.items ++ group_end) }
{
    Ok(text.extend_from_slice(b"</g>\n")?)
}
