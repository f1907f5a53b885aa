//! The worked examples of searches, on the views of a heap and of a book.
use mesh_class::{Class, class_of};
use mesh_mutator::{Book, Command};
use mesh_search::{ClassView, search_one};
use mesh_steps::{Heap, Ref};
use std::process::Abort;

/// The number of objects of the class 2048 that are made, two in each group. `FREED` lists the serials of the four
/// objects that are then freed, so that one object is left in each of four groups.
const OBJECTS: u8 = 8;

static FREED: [u8; 4] = [1, 3, 4, 6];

/// The serial of the last object.
const LAST: u8 = 7;

/// The random words of the worked searches.
static WORDS: [u64; 3] = [2, 0, 5];

/// Asserts the pairs that a search of a view finds in `t` rounds, and the number of its tries.
fn check(
    rt: &(impl Abort + AllocGlobal),
    view: &ClassView,
    t: u32,
    pairs: &[(u32, u32)],
    probes: u64,
) {
    let found = search_one(rt.alloc(), view, &WORDS, t).expect(rt, "memory");
    let is_found = found.probes == probes && found.pairs.as_slice() == pairs;
    assert!(rt; is_found, "in {t} rounds: {} tries", found.probes);
}

/// Asserts the results of searches in a view of the four groups.
fn check_four(rt: &(impl Abort + AllocGlobal), view: &ClassView) {
    check(rt, view, 0, &[], 0);
    check(rt, view, 1, &[], 2);
    check(rt, view, 2, &[(1, 2), (3, 0)], 4);
}

/// Returns the reference to the object with a serial. Each object is half a page after the one before.
fn object(serial: u8) -> Ref {
    Ref {
        serial: u32::from(serial),
        addr: 0x1000 + 0x800 * u32::from(serial),
    }
}

/// Returns the heap of the worked searches: eight objects, of which four are freed.
pub(crate) fn worked_heap(rt: &(impl Abort + AllocGlobal)) -> Heap {
    let mut heap = Heap::open(rt.alloc(), 16).expect(rt, "memory");
    fill(rt, &mut heap);
    heap
}

/// Makes eight objects in a heap, and then frees four of them.
fn fill(rt: &impl Abort, heap: &mut Heap) {
    for _ in 0..OBJECTS {
        make(rt, heap);
    }
    for serial in FREED.iter() {
        free(rt, heap, *serial);
    }
}

/// Makes an object in a heap.
fn make(rt: &impl Abort, heap: &mut Heap) {
    assert!(rt; !heap.is_full());
    assert!(rt; heap.new(2048, 0).is_ok());
}

/// Frees the object with a serial.
fn free(rt: &impl Abort, heap: &mut Heap, serial: u8) {
    assert!(rt; heap.free(object(serial)).is_ok());
}

/// Asserts the results of searches in a heap's view of the class 2048. The view is made twice: by itself, and as the
/// last of the views of all classes.
fn check_heap(rt: &(impl Abort + AllocGlobal), heap: &Heap, class: Class) {
    check_four(rt, &heap.view(rt.alloc(), class).expect(rt, "memory"));
    let views = heap.views(rt.alloc()).expect(rt, "memory");
    check_four(rt, views.as_slice().get(9).expect(rt, "a class"));
}

/// Asserts the result of a search in the view that is left once the last object is freed too.
fn check_three(rt: &(impl Abort + AllocGlobal), view: &ClassView) {
    check(rt, view, 2, &[(0, 2)], 1);
}

/// Asserts the results of searches in a filled heap, before and after its last object is freed too.
fn search_heap(rt: &(impl Abort + AllocGlobal), heap: &mut Heap) {
    let class = class_of(2048).expect(rt, "a class");
    check_heap(rt, heap, class);
    free(rt, heap, LAST);
    check_three(rt, &heap.view(rt.alloc(), class).expect(rt, "memory"));
}

#[test]
fn a_heap_is_searched_by_its_own_view(rt: HostRuntime) {
    search_heap(&rt, &mut worked_heap(&rt));
}

/// Asserts the results of searches in a book's view of the class 2048. The view is made twice: by itself, and as the
/// last of the views of all classes.
fn check_book(rt: &(impl Abort + AllocGlobal), book: &Book, class: Class) {
    check_four(rt, &book.view(rt.alloc(), class).expect(rt, "memory"));
    let views = book.views(rt.alloc()).expect(rt, "memory");
    check_four(rt, views.as_slice().get(9).expect(rt, "a class"));
}

/// Makes eight objects in a book, and then frees four of them.
fn fill_book(book: &mut Book) {
    for k in 0..OBJECTS {
        book.act(0, &Command::New(k, 2048, 0));
    }
    for k in FREED.iter() {
        book.act(0, &Command::Free(*k));
    }
}

/// Asserts the results of searches in a filled book, before and after its last object is freed too.
fn search_book(rt: &(impl Abort + AllocGlobal), book: &mut Book) {
    let class = class_of(2048).expect(rt, "a class");
    fill_book(book);
    check_book(rt, book, class);
    book.act(0, &Command::Free(LAST));
    check_three(rt, &book.view(rt.alloc(), class).expect(rt, "memory"));
}

#[test]
fn a_book_is_searched_by_its_own_view(rt: HostRuntime) {
    let mut book = Book::open(rt.alloc(), 16, 64).expect(&rt, "memory");
    search_book(&rt, &mut book);
}
