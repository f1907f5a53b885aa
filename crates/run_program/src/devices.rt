//! The devices of a run.
ghost use Rattle.std.specs.Prelude.{◌≡◌};

use std::marker::Model;
use text_devices::{Sink, Source};

/// The devices of a run: the input, standard output, and standard error for a person. In contracts, a `Devices` is the
/// rest of the input, the bytes that each output took, and whether each device has failed.
#[derive(Drop)]
pub struct Devices<I: Source, O: Sink, E: Sink> {
    pub(crate) input: I,
    pub(crate) output: O,
    pub(crate) errors: E,
}

impl<I: Source, O: Sink, E: Sink> Model for Devices<I, O, E> {
    ghost use Rattle.run_program.specs.Seen.{Seen};

    ghost Value = { Seen };

    ghost view = { λ devices. record {
      left = I.remaining devices.input;
      written = O.written devices.output;
      told = E.written devices.errors;
      input_failed = I.has_failed devices.input;
      output_failed = O.has_failed devices.output;
      errors_failed = E.has_failed devices.errors;
    } };
}

impl<I: Source, O: Sink, E: Sink> Devices<I, O, E> {
    /// Returns the devices of a run.
    pub fn new(input: I, output: O, errors: E) -> Devices<I, O, E>
        ensures input { (result.left ≡ I.remaining input) × (result.input_failed ≡ I.has_failed input) }
        ensures output { (result.written ≡ O.written output) × (result.output_failed ≡ O.has_failed output) }
        ensures errors { (result.told ≡ E.written errors) × (result.errors_failed ≡ E.has_failed errors) }
    {
        Devices {
            input,
            output,
            errors,
        }
    }

    /// Returns the input, the output and the errors.
    pub fn into_parts(self) -> (I, O, E)
        ensures input { (I.remaining result.0 ≡ self.left) × (I.has_failed result.0 ≡ self.input_failed) }
        ensures output { (O.written result.1 ≡ self.written) × (O.has_failed result.1 ≡ self.output_failed) }
        ensures errors { (E.written result.2 ≡ self.told) × (E.has_failed result.2 ≡ self.errors_failed) }
    {
        (self.input, self.output, self.errors)
    }
}
