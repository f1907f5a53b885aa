//! `Calls`, the trait that defines how calls change the state of an object.
ghost use Rattle.std.specs.Prelude.{◌≡◌, Bool, Option, IfOk};
ghost use Rattle.history_object.specs.Parts.{OthersMaySwap};
ghost use Rattle.history_object.specs.Reads.{AreReads};

use states_pool::Value;
use std::alloc::{AllocError, Global};

/// The effects of calls on the state of an object.
pub trait Calls {
    /// The state of an object between effects.
    type State: Value;

    /// A call with its recorded answer.
    type Call: Drop;

    /// The state after the effect of a call, or `None` if the call's answer would differ from the recorded answer.
    ghost effect: { Self.State → Self.Call → Option Self.State };

    /// Whether a call only reads, and answers as recorded in a state.
    ghost reads: { Self.State → Self.Call → Bool };

    /// Whether the order of the effects of two calls may matter.
    ghost conflict: { Self.Call → Self.Call → Bool };

    /// Returns the state after the effect of a call. Returns `None` if the call's answer would differ from the recorded
    /// answer.
    fn effect(
        alloc: Global,
        state: &Self::State,
        call: &Self::Call,
    ) -> Result<Option<Self::State>, AllocError>
        ensures { IfOk result (λ next. next ≡ effect state.now call.now) };

    /// Whether a call only reads, and answers as recorded in a state. `false` is right for every call.
    fn reads(state: &Self::State, call: &Self::Call) -> bool
        ensures { result ≡ reads state.now call.now };

    /// Whether the order of the effects of two calls may matter. `true` is right for all calls.
    fn conflict(call: &Self::Call, other: &Self::Call) -> bool
        ensures { result ≡ conflict call.now other.now };

    /// Returns a copy of a state.
    fn copied(alloc: Global, state: &Self::State) -> Result<Self::State, AllocError>
        ensures { IfOk result (λ copy. copy ≡ state.now) };

    /// The laws of the effects. It does nothing.
    ///
    /// Where `reads` is true, the call can have its effect, and it leaves every state as it is. Two calls that don't
    /// conflict have the same effects in either order.
    fn laws()
        ensures reading { AreReads effect reads }
        ensures swapping { OthersMaySwap effect conflict };
}
