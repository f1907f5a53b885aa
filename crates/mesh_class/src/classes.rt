//! `Class`, and the choice of the class of a request.
ghost use Rattle.std.specs.Prelude.{◌≡◌, ℕ, ◌<◌, ◌≤◌, ◌↔◌, ◌⊎◌, Err, Some, map, IfOk, OnOk, IfErr};
ghost use Rattle.mesh_class.specs.Class.{class_index, size_at};
ghost use Rattle.model_words.specs.Classes.{row, row_of, pages_of, slots_of, class_for, table, IsClass};

use model_words::Refusal;
use std::marker::Model;

/// A size class. All slots of a class have one size. All spans of a class have the same number of pages and of slots.
#[derive(Clone, Copy, Debug, PartialEq, Eq)]
pub struct Class {
    // The place in the class table.
    index: u32,
    // The bytes of a slot.
    size: u32,
    // The pages of a span.
    pages: u32,
    // The slots of a span.
    slots: u32,
}

impl Model for Class {
    ghost use Rattle.std.specs.Prelude.{ℕ};

    ghost Value = { ℕ };

    ghost use Rattle.mesh_class.specs.Class.{IsRow, row_from, row_from-size};

    ghost view = { λ c. c.size };

    ghost invariant = { IsRow };

    ghost inverse = { row_from };

    ghost inverse_ok = { row_from-size };
}

impl Class {
    /// Returns the class with these values. They must be one row of the class table, and `index` must be that row's
    /// index.
    fn row(index: u32, size: u32, pages: u32, slots: u32) -> Class
        requires row { row_of size ≡ Some (row size pages slots) }
        requires index { class_index size ≡ index }
        ensures { result ≡ size }
    {
        Class {
            index,
            size,
            pages,
            slots,
        }
    }

    /// Returns the class at an index of the class table. This function contains the table's numbers.
    #[tactic(auto, unfolding(crate::specs::Class::class_index))]
    fn at(index: u32) -> Class
        requires { index < 10 }
        ensures { result ≡ size_at index }
    {
        match index {
            0 => Class::row(0, 16, 1, 256),
            1 => Class::row(1, 32, 1, 128),
            2 => Class::row(2, 64, 1, 64),
            3 => Class::row(3, 128, 1, 32),
            4 => Class::row(4, 256, 1, 16),
            5 => Class::row(5, 384, 3, 32),
            6 => Class::row(6, 512, 1, 8),
            7 => Class::row(7, 1024, 1, 4),
            8 => Class::row(8, 1536, 3, 8),
            _ => Class::row(9, 2048, 1, 2),
        }
    }

    /// Returns the index of the class in the class table, 0 to 9. The table is in ascending order of slot size.
    pub fn index(self) -> u32
        ensures value { result ≡ class_index self }
        ensures few { result < 10 }
        ensures one { (size : ℕ) → IsClass size → class_index size ≡ result → size ≡ self }
    {
        self.index
    }

    /// Returns the number of bytes of a slot, 16 to 2,048.
    pub fn size(self) -> u32
        ensures value { result ≡ self }
        ensures class { IsClass self }
    {
        self.size
    }

    /// Returns the number of pages of a span, 1 or 3.
    pub fn pages(self) -> u32
        ensures value { result ≡ pages_of self }
        ensures class { IsClass self }
    {
        self.pages
    }

    /// Returns the number of slots of a span, 2 to 256. The slots fill the span's pages.
    pub fn slots(self) -> u32
        ensures value { result ≡ slots_of self }
        ensures class { IsClass self }
    {
        self.slots
    }
}

/// The default is the class of the smallest size. It only fills unused places.
impl Default for Class {
    fn default() -> Class {
        Class::at(0)
    }
}

/// Returns the class of a request of `len` bytes: the smallest class whose slots have at least `len` bytes.
///
/// The error is ZERO if `len` is 0, and TOO_LARGE if `len` is above 2,048.
pub fn class_of(len: u32) -> Result<Class, Refusal>
    ensures least { IfOk result (λ class. class_for len ≡ Some class) }
    ensures some { OnOk result (1 ≤ len) }
    ensures fits { IfOk result (λ class. len ≤ class) }
    ensures zero { (result ≡ Err Refusal.Zero) ↔ (len ≡ 0) }
    ensures too_large { (result ≡ Err Refusal.TooLarge) ↔ (2048 < len) }
    ensures refusals { IfErr result (λ refusal. refusal ≡ Refusal.Zero ⊎ refusal ≡ Refusal.TooLarge) }
{
    match len {
        0 => Err(Refusal::Zero),
        1..=16 => Ok(Class::at(0)),
        17..=32 => Ok(Class::at(1)),
        33..=64 => Ok(Class::at(2)),
        65..=128 => Ok(Class::at(3)),
        129..=256 => Ok(Class::at(4)),
        257..=384 => Ok(Class::at(5)),
        385..=512 => Ok(Class::at(6)),
        513..=1024 => Ok(Class::at(7)),
        1025..=1536 => Ok(Class::at(8)),
        1537..=2048 => Ok(Class::at(9)),
        _ => Err(Refusal::TooLarge),
    }
}

/// Returns the ten size classes, by ascending size.
pub fn all_classes() -> [Class; 10]
    ensures { result ≡ map (λ r. r.size) table }
{
    [
        Class::at(0),
        Class::at(1),
        Class::at(2),
        Class::at(3),
        Class::at(4),
        Class::at(5),
        Class::at(6),
        Class::at(7),
        Class::at(8),
        Class::at(9),
    ]
}
