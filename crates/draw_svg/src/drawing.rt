//! A list of shapes that grows.
use crate::shapes::{Area, Label, Look, Point, Shape, Way};
use crate::templates::words_of;
use std::alloc::{AllocError, Global};
use std::mem::replace;

/// A growing list of shapes. After an allocation failure, `whole` returns an error.
#[derive(Drop)]
pub struct Shapes {
    list: Vec<Shape>,
    // The points of a path that isn't in the list yet.
    points: Vec<Point>,
    refused: bool,
}

impl Shapes {
    /// Returns an empty list, without an allocation.
    pub fn new(alloc: Global) -> Shapes {
        Shapes {
            list: Vec::new(alloc),
            points: Vec::new(alloc),
            refused: false,
        }
    }

    /// Returns the whole list. Returns an error if an allocation failed while the list grew.
    pub fn whole(&self) -> Result<&[Shape], AllocError> {
        if self.refused {
            Err(AllocError)
        } else {
            Ok(self.list.as_slice())
        }
    }

    /// Returns the allocator of the list.
    pub fn alloc(&self) -> Global {
        *self.list.allocator()
    }

    /// Appends a rectangle whose corners have the radius `round`.
    pub fn rect(&mut self, look: Look, area: Area, round: u32) {
        self.add(Shape::Rect(look, area, round));
    }

    /// Appends a point to the path that `path` appends to the list.
    pub fn point(&mut self, way: Way, x: u32, y: u32) {
        let failed = self.points.push(Point { way, x, y }).is_err();
        self.refused = self.refused || failed;
    }

    /// Appends the path through the points that were added since the last path.
    pub fn path(&mut self, look: Look) {
        let none = Vec::new(self.alloc());
        let points = replace(&mut self.points, none);
        self.add(Shape::Path(look, points));
    }

    /// Appends words at a place.
    pub fn words(&mut self, label: Label, words: Vec<u8>) {
        self.add(Shape::Words(label, words));
    }

    /// Returns words as `words_of` does. If an allocation fails, the list records it.
    pub fn spell(&mut self, first: &[u8], template: &str, numbers: &[u32]) -> Vec<u8> {
        match words_of(self.alloc(), first, template, numbers) {
            Ok(words) => words,
            Err(_) => {
                self.refused = true;
                Vec::new(self.alloc())
            }
        }
    }

    /// Appends a shape.
    fn add(&mut self, shape: Shape) {
        let failed = self.list.push(shape).is_err();
        self.refused = self.refused || failed;
    }
}
