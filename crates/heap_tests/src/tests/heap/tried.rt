//! A heap and a book that get the same calls, whose answers are compared with the expected ones.

use crate::tests::heap::books::TriedBook;
use crate::tests::heap::calls::{Answer, Call, Told};
use crate::tests::heap::heaps::TriedHeap;
use std::process::Abort;

/// A heap and a book that get the same calls.
#[derive(Drop)]
pub(crate) struct Tried<'a, R> {
    rt: &'a R,
    heap: TriedHeap,
    book: TriedBook,
}

impl<'a, R: Abort + AllocGlobal> Tried<'a, R> {
    /// Returns a heap and a book without objects, each with `pages` pages.
    pub(crate) fn open(rt: &'a R, pages: u32) -> Tried<'a, R> {
        assert!(rt; 1 <= pages && pages <= 4096, "{pages} pages");
        Tried {
            rt,
            heap: TriedHeap::open(rt.alloc(), pages).expect(rt, "memory"),
            book: TriedBook::open(rt.alloc(), pages).expect(rt, "memory"),
        }
    }

    /// Asserts that the heap and the book answer a call as expected.
    pub(crate) fn check(&mut self, call: Call, answer: Answer) {
        let told = self.heap.answer(self.rt, call);
        check_told(self.rt, told, answer, call, "a heap");
        let told = self.book.answer(self.rt, call);
        check_told(self.rt, told, answer, call, "a book");
    }

    /// Asserts that the heap and the book answer each of these calls as expected, in order.
    pub(crate) fn play(&mut self, calls: &[(Call, Answer)]) {
        for (call, answer) in calls {
            self.check(*call, *answer);
        }
    }
}

/// Asserts that the answer of a heap or a book is the expected one.
fn check_told(rt: &impl Abort, told: Told, answer: Answer, call: Call, by: &str) {
    let (name, numbers) = (call.name(), call.numbers());
    assert_eq!(rt; told, answer.told(), "of {name} {numbers:?} on {by}");
}
