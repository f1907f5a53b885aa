//! The objects of the cases, and the addresses that the definitions give to the objects.
use crate::ends::End;

/// The number of pages of the arena. The objects need fewer.
pub(crate) const PAGES: u32 = 64;

/// Objects of one length that fill their spans in the order of the slots, one span after another.
#[derive(Clone, Copy)]
pub(crate) struct Order {
    /// The length of each object.
    pub len: u32,
    /// The number of objects.
    pub count: u32,
    /// The address of the first object. Each further object comes directly after the one before it.
    pub first: u32,
}

impl Order {
    /// The address of the `k`-th object.
    pub(crate) fn address(&self, k: u32) -> u32 {
        self.first.wrapping_add(self.len.wrapping_mul(k))
    }
}

/// The objects of the cases. The four orders occupy 20, 2, 1 and 20 spans: in all 43 spans of three classes.
pub(crate) static ORDERS: [Order; 4] = [
    Order {
        len: 2048,
        count: 40,
        first: 0x1000,
    },
    Order {
        len: 1024,
        count: 8,
        first: 0x15000,
    },
    Order {
        len: 16,
        count: 20,
        first: 0x17000,
    },
    Order {
        len: 2048,
        count: 40,
        first: 0x18000,
    },
];

/// A heap or a book in which a case makes objects.
pub(crate) trait Maker {
    /// Makes the `k`-th object of an order, and retries if an allocation fails. The object must get this serial.
    /// Returns the number of allocation failures.
    fn make(&mut self, order: &Order, k: u32, serial: u32) -> End;
}

/// Makes the objects of all orders, and returns the number of allocation failures.
pub(crate) fn make_all<M: Maker>(maker: &mut M) -> End {
    let mut refused = 0u32;
    let mut serial = 0u32;
    for order in ORDERS.iter() {
        for k in 0..order.count {
            refused = refused.saturating_add(maker.make(order, k, serial)?);
            serial = serial.saturating_add(1);
        }
    }
    Ok(refused)
}
