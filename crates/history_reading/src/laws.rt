//! A law about the definitions. A law is the contract of a function that does nothing.
ghost use Rattle.history_reading.specs.EffectLaws.{TestsTellEffects};

/// The check of a call's answer accepts an answer if and only if the answer shows the effect of the command, as
/// `model_intervals` defines effects.
pub fn tests_tell_effects()
    ensures { TestsTellEffects }
{}
