//! One word that is stored and loaded, as the object of a judge.
use history_object::Calls;
use states_pool::Value;
use std::alloc::{AllocError, Global};

/// The value of the word.
#[derive(Clone, Copy)]
pub(crate) struct Word {
    pub value: u64,
}

impl Value for Word {
    ghost print = { λ word. word.value };

    fn is_same(&self, other: &Word) -> bool {
        self.value == other.value
    }

    fn fingerprint(&self) -> u64 {
        self.value
    }
}

/// A store of a value, or a load that found the value.
#[derive(Clone, Copy)]
pub(crate) struct Access {
    pub stores: bool,
    pub value: u64,
}

/// The word as an object. No access is told to read alone, and all accesses are told to conflict.
pub(crate) struct Register;

impl Calls for Register {
    ghost use Rattle.std.specs.Prelude.{Some, None, true, false, nat_eq, if◌then◌else◌};

    type State = Word;

    type Call = Access;

    ghost effect = { λ word access. if access.stores then Some (record { value = access.value })
        else (if nat_eq access.value word.value then Some (record { value = access.value }) else None) };

    ghost reads = { λ _ _. false };

    ghost conflict = { λ _ _. true };

    fn effect(_: Global, word: &Word, access: &Access) -> Result<Option<Word>, AllocError> {
        let value = access.value;
        if access.stores || value == word.value {
            return Ok(Some(Word { value }));
        }
        Ok(None)
    }

    fn reads(_word: &Word, _access: &Access) -> bool {
        false
    }

    fn conflict(_access: &Access, _other: &Access) -> bool {
        true
    }

    fn copied(_: Global, word: &Word) -> Result<Word, AllocError> {
        Ok(*word)
    }

    fn laws() {}
}
