//! An order of effects that explains calls that overlap.
ghost use Rattle.std.specs.Prelude.{◌≡◌, ◌++◌, ◌∷◌, [], false, nat_eq, Err, IfErr, IfOk, IfSome, IsNone, OnOk};
ghost use Rattle.std.specs.List.{list_any};
ghost use Rattle.model_intervals.specs.Completions.{never};
ghost use Rattle.history_reading.specs.CallInputs.{IsFresh};
ghost use Rattle.history_judge.specs.declared.order_faults.OrderFault.{OrderFault};
ghost use Rattle.history_judge.specs.OrderedHistories.{AreCallsOf, HasFault, HasNoAnswer, HasStoppedSomewhere, HaveCome, IsOrderedHistory, IsWithoutOrder};

use crate::OrderFault;
use history_overlaps::{linearize, written_in_order};
use history_reading::{CallError, CallInput, NEVER, TimedCall};
use std::alloc::{AllocError, Global};
use text_devices::{Input, Source};

/// Returns the calls of a text of `history 2` in an order of effects that explains them, as a text of `history 1`.
/// Returns `None` if the text has a fault, if a call was pending when the recording stopped, or if the calls are no
/// history or no order explains them.
///
/// The error is `Undecided` if more than `most` configurations of an object are met at the end of a call, if more than
/// 64 accesses to one object are pending, or if there are 2^32 - 1 calls or more.
pub fn ordered_history(
    alloc: Global,
    text: &[u8],
    most: usize,
) -> Result<Option<Vec<u8>>, OrderFault>
    ensures ordered { IfOk result (λ found. IfSome found (λ history. IsOrderedHistory text.now history.items)) }
    ensures none { IfOk result (λ found. IsNone found → IsWithoutOrder text.now) }
    ensures stopped { IfErr result (HasNoAnswer text.now most) }
{
    let Some(calls) = calls_in(alloc, text)? else {
        return Ok(None);
    };
    if some_pending(calls.as_slice()) {
        return Ok(None);
    }
    if calls.len() >= u32::MAX as usize {
        return Err(OrderFault::Undecided);
    }
    let Some(order) = linearize(alloc, calls.as_slice(), most)? else {
        return Ok(None);
    };
    let history = written_in_order(alloc, calls.as_slice(), order.as_slice())?;
    Ok(Some(history))
}

/// Whether a call was pending when the recording stopped.
fn some_pending(calls: &[TimedCall]) -> bool
    ensures { result ≡ list_any (λ call. nat_eq call.end never) calls.now }
{
    calls.iter().any(|call| call.end == NEVER)
}

/// Returns the calls of a text, or `None` if the text has a fault.
fn calls_in(alloc: Global, text: &[u8]) -> Result<Option<Vec<TimedCall>>, OrderFault>
    ensures calls { IfOk result (λ found. IfSome found (λ calls. AreCallsOf text.now calls.items)) }
    ensures none { IfOk result (λ found. IsNone found → HasFault text.now) }
    ensures decided { result ≡ Err OrderFault.Undecided → ⊥ }
{
    let mut history = CallInput::new(alloc)?;
    let mut input = Input::new(text);
    match read_calls(alloc, &mut history, &mut input) {
        Ok(calls) => Ok(Some(calls)),
        Err(CallError::Text(_)) => Ok(None),
        Err(CallError::Order(_)) => Ok(None),
        // No read of a text in memory fails.
        Err(CallError::Memory | CallError::Read) => Err(OrderFault::Memory),
    }
}

/// Reads all calls of the input. No call may have been read with `history` before. The errors are those of
/// `CallInput::next`, and `Memory` if an allocation for the list failed.
fn read_calls<I: Source>(
    alloc: Global,
    history: &mut CallInput,
    input: &mut I,
) -> Result<Vec<TimedCall>, CallError>
    requires unread { I.has_failed input.old ≡ false }
    requires fresh { IsFresh history.old }
    ensures calls { IfOk result (λ calls. HaveCome (I.remaining input.old) (I.remaining input.new) calls.items) }
    ensures fault { IfErr result (HasStoppedSomewhere (I.remaining input.old) (I.remaining input.new)) }
{
    let mut calls = Vec::new(alloc);
    while let Some(call) = history.next(input)? {
        add(&mut calls, call)?;
    }
    Ok(calls)
}

/// Adds a call.
fn add(calls: &mut Vec<TimedCall>, call: TimedCall) -> Result<(), AllocError>
    ensures { OnOk result (calls.new.items ≡ calls.old.items ++ call ∷ []) }
{
    calls.push(call)?;
    Ok(())
}
