//! `TextSet`: a set of texts.
ghost use Rattle.std.specs.Prelude.{◌≡◌, ◌++◌, ◌∷◌, [], IfOk, OnOk};
ghost use Rattle.explore_verdict.specs.TextSets.{distinct, is_in, missing_in, with_text, without};

use crate::block::Block;
use states_pool::Pool;
use std::alloc::{AllocError, Global};
use std::marker::Model;

/// A set of texts, which keeps the order in which they were first added.
#[derive(Drop)]
pub(crate) struct TextSet {
    pool: Pool<Block>,
}

impl Model for TextSet {
    ghost use Rattle.std.specs.Prelude.{ℕ, List};

    ghost Value = { List (List ℕ) };

    ghost view = { λ set. set.pool };
}

impl TextSet {
    /// Returns the empty set.
    pub(crate) fn new(alloc: Global) -> TextSet
        ensures { result ≡ [] }
    {
        TextSet {
            pool: Pool::new(alloc),
        }
    }

    /// Returns the set of these texts. Returns an error if an allocation fails, or if there are more than 2^32 texts.
    pub(crate) fn of(alloc: Global, texts: &[Block]) -> Result<TextSet, AllocError>
        ensures { IfOk result (λ set. set ≡ distinct texts.now) }
    {
        let mut set = TextSet::new(alloc);
        let mut rest = texts;
        while let [text, behind @ ..] = rest {
            set.add(text.copied()?)?;
            rest = behind;
        }
        Ok(set)
    }

    /// Whether the set has a text.
    pub(crate) fn has(&self, text: &Block) -> bool
        ensures { result ≡ is_in self.now text.now }
    {
        self.pool.find(text).is_some()
    }

    /// Adds a text, if the set doesn't have it.
    pub(crate) fn add(&mut self, text: Block) -> Result<(), AllocError>
        ensures { OnOk result (self.new ≡ with_text self.old text) }
    {
        if !self.has(&text) {
            self.pool.add(text)?;
        }
        Ok(())
    }
}

/// Returns the texts that the set doesn't have, each once, in order.
pub(crate) fn missing_in(
    alloc: Global,
    set: &TextSet,
    texts: &[Block],
) -> Result<Vec<Block>, AllocError>
    ensures { IfOk result (λ missing. missing.items ≡ missing_in set.now texts.now) }
{
    let mut seen = TextSet::new(alloc);
    let mut missing = Vec::new(alloc);
    let mut rest = texts;
    while let [text, behind @ ..] = rest {
        add_missing(&mut seen, &mut missing, set, text)?;
        rest = behind;
    }
    Ok(missing)
}

/// Adds a text to those that were seen and, if it wasn't seen and the set doesn't have it, to the missing ones.
fn add_missing(
    seen: &mut TextSet,
    missing: &mut Vec<Block>,
    set: &TextSet,
    text: &Block,
) -> Result<(), AllocError>
    ensures seen { OnOk result (seen.new ≡ with_text seen.old text.now) }
    ensures missing { missing.old.items ≡ without set.now seen.old
        → OnOk result (missing.new.items ≡ without set.now seen.new) }
{
    if seen.has(text) {
        return Ok(());
    }
    seen.add(text.copied()?)?;
    if !set.has(text) {
        missing.push(text.copied()?)?;
    }
    Ok(())
}
