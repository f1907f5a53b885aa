//! The shapes of a picture, as data.
ghost use Rattle.std.specs.Prelude.{◌≡◌};
ghost use Rattle.draw_svg.specs.Shapes.{joined, nth, plain, style_of};

/// A rectangle.
#[derive(Clone, Copy)]
pub struct Area {
    /// The position of the left side.
    pub x: u32,
    /// The position of the upper side.
    pub y: u32,
    /// The width of the rectangle.
    pub w: u32,
    /// The height of the rectangle.
    pub h: u32,
}

impl Area {
    /// Returns the area with this upper left corner, width and height.
    pub fn at(x: u32, y: u32, w: u32, h: u32) -> Area
        ensures { result ≡ record { x = x; y = y; w = w; h = h } }
    {
        Area { x, y, w, h }
    }

    /// Returns the area enlarged by `by` on each side.
    pub fn grown(self, by: u32) -> Area {
        Area {
            x: self.x.saturating_sub(by),
            y: self.y.saturating_sub(by),
            w: self.w.saturating_add(by).saturating_add(by),
            h: self.h.saturating_add(by).saturating_add(by),
        }
    }

    /// Returns the area reduced by `by` on each side. Its width and its height are at least 6.
    pub fn inset(self, by: u32) -> Area {
        Area {
            x: self.x.saturating_add(by),
            y: self.y.saturating_add(by),
            w: self.w.saturating_sub(by).saturating_sub(by).max(6),
            h: self.h.saturating_sub(by).saturating_sub(by).max(6),
        }
    }

    /// Returns the position of the middle between the left side and the right side.
    pub fn middle(self) -> u32 {
        self.x.saturating_add(self.w / 2)
    }

    /// Returns the position of the lower side.
    pub fn bottom(self) -> u32 {
        self.y.saturating_add(self.h)
    }
}

/// The style of an element, by the names of one or two style rules. The first name can have a number. The second name
/// is empty if there is only one rule.
#[derive(Clone, Copy)]
pub struct Look {
    pub name: &'static str,
    pub number: Option<u32>,
    pub also: &'static str,
}

impl Look {
    /// Returns the style of one rule.
    pub fn of(name: &'static str) -> Look
        ensures { style_of result ≡ plain name.now }
    {
        Look {
            name,
            number: None,
            also: "",
        }
    }

    /// Returns the style of one rule in a numbered family of rules.
    pub fn nth(name: &'static str, number: u32) -> Look
        ensures { style_of result ≡ nth name.now number }
    {
        Look {
            name,
            number: Some(number),
            also: "",
        }
    }

    /// Returns this style with `also` as its second rule.
    pub fn with(self, also: &'static str) -> Look
        ensures { style_of result ≡ joined (style_of self) also.now }
    {
        Look { also, ..self }
    }
}

/// How a path reaches a point.
#[derive(Clone, Copy)]
pub enum Way {
    /// The path moves to the point, and draws nothing.
    Move,
    /// The path draws a line to the point.
    Line,
    /// The point is the first of the three points of a curve.
    Curve,
    /// The point is the second or the third point of a curve.
    Bend,
}

/// A point of a path.
#[derive(Clone, Copy)]
pub struct Point {
    pub way: Way,
    pub x: u32,
    pub y: u32,
}

/// The point of a label's text that is at the label's place.
#[derive(Clone, Copy)]
pub enum Anchor {
    /// The start of the text.
    Start,
    /// The middle of the text.
    Middle,
    /// The end of the text.
    End,
}

/// The place and the style of some text.
#[derive(Clone, Copy)]
pub struct Label {
    /// The colour and the font of the text.
    pub look: Look,
    /// The point of the text that is at the place.
    pub anchor: Anchor,
    /// The horizontal position of the place, from the left.
    pub x: u32,
    /// The vertical position of the text's baseline, from the top.
    pub y: u32,
    /// The width of the text, or `None` for the natural width in the reader's font.
    pub width: Option<u32>,
}

/// A shape of a picture.
#[derive(Drop)]
pub enum Shape {
    /// A rectangle, and the radius of its corners.
    Rect(Look, Area, u32),
    /// A path through points.
    Path(Look, Vec<Point>),
    /// Text at a place. Any byte may be in the text, because the writer escapes it.
    Words(Label, Vec<u8>),
}
