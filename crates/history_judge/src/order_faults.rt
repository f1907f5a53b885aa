//! The reasons why it isn't known whether some order explains the calls of a text.
ghost use Rattle.std.specs.Prelude.{◌≡◌};
ghost use Rattle.history_judge.specs.OrderedHistories.{order_fault_of};
ghost use Rattle.history_judge.specs.declared.order_faults.OrderFault.{OrderFault};

use history_object::JudgeFault;
use std::alloc::AllocError;

/// The reason why no order was found, although there may be one.
#[derive(Clone, Copy, PartialEq, Eq)]
pub enum OrderFault {
    /// A limit of the search was exceeded.
    Undecided,
    /// An allocation failed.
    Memory,
}

impl From<JudgeFault> for OrderFault {
    ghost from_gives = { λ fault order_fault. order_fault ≡ order_fault_of fault };

    fn from(fault: JudgeFault) -> OrderFault {
        match fault {
            JudgeFault::Memory => OrderFault::Memory,
            JudgeFault::TooMany | JudgeFault::TooManyPending => OrderFault::Undecided,
        }
    }
}

impl From<AllocError> for OrderFault {
    ghost from_gives = { λ _ fault. fault ≡ OrderFault.Memory };

    fn from(_failed: AllocError) -> OrderFault {
        OrderFault::Memory
    }
}
