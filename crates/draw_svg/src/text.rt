//! The growing text of a picture.
ghost use Rattle.std.specs.Prelude.{◌≡◌, ◌++◌, [], Some, None, IfOk, IfSome, OnErr, codes};
ghost use Rattle.std.specs.Option.{option_map};
ghost use Rattle.draw_svg.specs.Begins.{Begins};
ghost use Rattle.draw_svg.specs.Files.{root_text, style_text};
ghost use Rattle.draw_svg.specs.Shapes.{Draws, shape_text, shapes_text};
ghost use Rattle.draw_svg.specs.Texts.{Adds};

use crate::drawing::Shapes;
use crate::files::{write_root, write_style};
use crate::shapes::Shape;
use crate::writer::{write_shape, write_shapes};
use std::alloc::{AllocError, Global};
use std::marker::Model;

/// A growing text. After an allocation failure, no more bytes are added, and `whole` returns an error.
#[derive(Drop)]
pub struct Text {
    bytes: Vec<u8>,
    refused: bool,
}

impl Model for Text {
    ghost use Rattle.std.specs.Prelude.{ℕ, List, Option};

    ghost Value = { Option (List ℕ) };

    ghost use Rattle.draw_svg.specs.Texts.{held};

    ghost view = { λ text. held text.bytes.items text.refused };
}

impl Text {
    /// Returns an empty text, without an allocation.
    pub fn new(alloc: Global) -> Text
        ensures { result ≡ Some [] }
    {
        Text {
            bytes: Vec::new(alloc),
            refused: false,
        }
    }

    /// Returns the whole text. Returns an error if an allocation failed while the text grew.
    pub fn whole(&self) -> Result<&[u8], AllocError>
        ensures whole { IfOk result (λ bytes. self.now ≡ Some bytes.now) }
        ensures refused { OnErr result (self.now ≡ None) }
    {
        if self.refused {
            Err(AllocError)
        } else {
            Ok(self.bytes.as_slice())
        }
    }

    /// Returns the whole text as a list of bytes. Returns an error if an allocation failed while the text grew.
    pub fn finish(self) -> Result<Vec<u8>, AllocError>
        ensures { IfOk result (λ bytes. self ≡ Some bytes.items) }
    {
        if self.refused {
            Err(AllocError)
        } else {
            Ok(self.bytes)
        }
    }

    /// Returns the number of bytes in the text.
    pub fn len(&self) -> usize {
        self.bytes.len()
    }

    /// Removes all bytes. `whole` still reports an earlier allocation failure.
    pub fn clear(&mut self)
        ensures { self.new ≡ option_map (λ held. []) self.old }
    {
        self.bytes.clear();
    }

    /// Returns the allocator of the text.
    pub fn alloc(&self) -> Global {
        *self.bytes.allocator()
    }

    /// Records that an allocation failed for what was to be appended.
    pub fn refuse(&mut self)
        ensures { self.new ≡ None }
    {
        self.refused = true;
    }

    /// Appends bytes.
    pub fn add(&mut self, words: &[u8])
        ensures { Adds self.old self.new words.now }
    {
        if !self.refused {
            self.refused = self.bytes.extend_from_slice(words).is_err();
        }
    }

    /// Appends the start of the root element, and a title for readers who don't see the picture. Sizes are in tenths of
    /// a pixel.
    pub fn add_root(&mut self, title: &[u8], width: u32, height: u32)
        ensures text { Adds self.old self.new (root_text title.now width height) }
        ensures begins { self.old ≡ Some [] → IfSome self.new (Begins (codes "<svg")) }
    {
        self.add_root_text(title, width, height);
    }

    /// Appends the start of the root element, and a title.
    fn add_root_text(&mut self, title: &[u8], width: u32, height: u32)
        ensures { Adds self.old self.new (root_text title.now width height) }
    {
        if !self.refused {
            self.refused = write_root(&mut self.bytes, title, width, height).is_err();
        }
    }

    /// Appends the style: a default font, these rules, and these rules for a dark background. Each rule ends in a line
    /// end.
    pub fn add_style(&mut self, rules: &str, dark: &str)
        ensures { Adds self.old self.new (style_text rules.now dark.now) }
    {
        if !self.refused {
            self.refused = write_style(&mut self.bytes, rules, dark).is_err();
        }
    }

    /// Appends a shape.
    pub fn add_shape(&mut self, shape: &Shape)
        ensures { Adds self.old self.new (shape_text shape.now) }
    {
        if !self.refused {
            self.refused = write_shape(&mut self.bytes, shape).is_err();
        }
    }

    /// Appends shapes, one after the other.
    pub fn add_shapes(&mut self, shapes: &[Shape])
        ensures { Adds self.old self.new (shapes_text shapes.now) }
    {
        if !self.refused {
            self.refused = write_shapes(&mut self.bytes, shapes).is_err();
        }
    }

    /// Appends the shapes of a list. If an allocation for the list failed, the text records the failure.
    pub fn draw(&mut self, shapes: &Shapes)
        ensures { Draws self.old self.new }
    {
        match shapes.whole() {
            Ok(list) => self.add_shapes(list),
            Err(_) => self.refuse(),
        }
    }
}
