//! The check that an order of effects explains calls.
ghost use Rattle.std.specs.Prelude.{◌≡◌, ◌<◌, ◌-◌, ◌^◌, IfOk, length, true, false};
ghost use Rattle.std.specs.List.{All};
ghost use Rattle.history_reading.specs.CallWords.{IsReadCall};
ghost use Rattle.history_overlaps.specs.Orders.{IsLegalOrder, calls_in_order};

use history_in_order::Tracked;
use history_reading::TimedCall;
use std::alloc::{AllocError, Global};

/// Whether the calls in this order respect time and form a legal history.
pub fn is_legal_order(alloc: Global, calls: &[TimedCall], order: &[u32]) -> Result<bool, AllocError>
    requires read { All IsReadCall calls.now }
    requires places { All (λ number. number < length calls.now) order.now }
    requires few { length order.now < 2 ^ 32 - 1 }
    ensures legal { IfOk result (λ legal. legal ≡ true → IsLegalOrder (calls_in_order calls.now order.now)) }
    ensures illegal { IfOk result (λ legal. legal ≡ false → IsLegalOrder (calls_in_order calls.now order.now) → ⊥) }
{
    let mut memory = Tracked::new(alloc);
    let mut begun = 0;
    let mut line: u32 = 2;
    for number in order {
        let call = &calls[*number as usize];
        if call.end < begun {
            return Ok(false);
        }
        begun = u128::from(call.begin).max(begun);
        if memory.judge(line, &call.entry)?.is_some() {
            return Ok(false);
        }
        line = line.saturating_add(1);
    }
    Ok(true)
}
