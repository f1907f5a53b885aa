//! The order of the calls of a history.
ghost use Rattle.std.specs.Prelude.{◌≡◌, ◌≤◌, ◌∷◌, ◌++◌, List, [], true, false, IfOk};
ghost use Rattle.model_intervals.specs.Intervals.{Call};
ghost use Rattle.history_reading.specs.CallOrders.{IsOrderOf, end_of, may_begin};
ghost use Rattle.history_reading.specs.CallReadings.{is_in_order};
ghost use Rattle.history_reading.specs.CallWords.{plain_call};

use crate::TimedCall;
use std::alloc::{AllocError, Global};
use std::collections::BTreeMap;

/// What decides whether the next call of a history is in order.
#[derive(Drop)]
pub(crate) struct CallOrder {
    /// The time at which the last call began. No earlier call began later.
    last_begin: u64,
    /// The time at which the last call of each worker ended.
    ends: BTreeMap<u32, u128>,
}

impl CallOrder {
    /// Returns the order of a history without calls, and allocates nothing.
    pub(crate) fn new(alloc: Global) -> CallOrder
        ensures { IsOrderOf result [] }
    {
        CallOrder {
            last_begin: 0,
            ends: BTreeMap::new(alloc),
        }
    }

    /// Adds the next call if it is in order, and returns whether it is. A call is in order if no earlier call began
    /// later, and each earlier call of the same worker ended before it begins.
    pub(crate) fn add(&mut self, call: &TimedCall) -> Result<bool, AllocError>
        requires { call.now.begin ≤ call.now.end }
        ensures tested { (calls : List Call) → IsOrderOf self.old calls
            → IfOk result (λ in_order. in_order ≡ is_in_order calls (plain_call call.now)) }
        ensures added { (calls : List Call) → IsOrderOf self.old calls
            → IfOk result (λ in_order. in_order ≡ true → IsOrderOf self.new (calls ++ plain_call call.now ∷ [])) }
        ensures unchanged { IfOk result (λ in_order. in_order ≡ false → self.new ≡ self.old) }
    {
        if call.begin < self.last_begin || !self.may_begin(call.entry.worker, call.begin) {
            return Ok(false);
        }
        self.ends.insert(call.entry.worker, call.end)?;
        self.last_begin = call.begin;
        Ok(true)
    }

    /// Whether each call of the worker so far ended before the time `begin`.
    fn may_begin(&self, worker: u32, begin: u64) -> bool
        ensures { result ≡ may_begin (end_of self.now worker) begin }
    {
        match self.ends.get(&worker) {
            Some(end) => *end < u128::from(begin),
            None => true,
        }
    }
}
