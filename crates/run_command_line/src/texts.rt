//! The texts of an option that may be given several times.
ghost use Rattle.std.specs.Prelude.{◌≡◌, ◌<◌, ◌≤◌, ◌+◌, [], ◌∷◌, ◌++◌, length, map, take};

/// The greatest number of texts of an option.
pub(crate) const MOST_TEXTS: usize = 10;

/// Up to ten texts of an option, in the order in which they were given.
#[derive(Clone, Copy)]
pub struct Texts<'a> {
    // The texts at index `count` and above are unused and empty.
    texts: [&'a str; MOST_TEXTS],
    count: usize,
    pub ghost fits: { count ≤ 10 },
}

impl<'a> Texts<'a> {
    /// Returns an empty list of texts.
    pub(crate) fn none() -> Texts<'a>
        ensures texts { take result.count result.texts ≡ [] }
        ensures count { result.count ≡ 0 }
    {
        Texts {
            texts: [""; MOST_TEXTS],
            count: 0,
        }
    }

    /// Returns the texts in their order.
    pub fn as_slice(&self) -> &[&'a str]
        ensures texts { result.now ≡ take self.now.count self.now.texts }
        ensures few { length result.now ≤ 10 }
    {
        &self.texts[..self.count]
    }

    /// Appends a text to the list, which must have fewer than ten.
    pub(crate) fn add(&mut self, text: &'a str)
        requires { self.old.count < 10 }
        ensures texts { take self.new.count self.new.texts ≡ take self.old.count self.old.texts ++ text.entry ∷ [] }
        ensures count { self.new.count ≡ self.old.count + 1 }
    {
        self.texts[self.count] = text;
        self.count += 1;
    }
}
