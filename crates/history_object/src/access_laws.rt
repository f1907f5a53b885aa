//! A lemma about accesses. It is the contract of a function that does nothing.
ghost use Rattle.history_object.specs.ObjectBytes.{EffectIsAccess};

/// An access has an effect on an object's state if and only if it has one on the object's bytes. The bytes of the new
/// state are then the new bytes.
pub fn effect_is_access()
    ensures { EffectIsAccess }
{}
