//! Five uses of the library, each in a file of its own. The program prints one line with the result of each.
#![tactic(auto)]

mod cancelled;
mod faults;
mod journal;
mod objects;
mod spans;
mod stepwise;
mod threads;

use crate::faults::UseError;
use mesh::{Book, Heap};
use std::io;
use std::sync::Wait;
use std::thread::Threads;

/// A use of a heap.
#[derive(Clone, Copy)]
enum HeapUse {
    Spans,
    Stepwise,
    Cancelled,
}

fn main(rt: HostRuntime) -> io::Result<()> {
    tell(&rt, "pages that came free", use_heap(&rt, HeapUse::Spans))?;
    tell(&rt, "stores blocked", use_heap(&rt, HeapUse::Stepwise))?;
    tell(&rt, "steps to unwind", use_heap(&rt, HeapUse::Cancelled))?;
    tell(&rt, "entries of a journal", use_book(&rt))?;
    tell(&rt, "entries of two threads", threads::share(&rt))
}

/// Prints one line with the result of a use.
fn tell<R: Print>(rt: &R, what: &str, came: Result<usize, UseError>) -> io::Result<()> {
    match came {
        Ok(count) => println!(rt; "{what}: {count}"),
        Err(fault) => println!(rt; "{what}: {fault}"),
    }
}

impl HeapUse {
    /// Runs this use on a heap.
    fn of(self, heap: &mut Heap) -> Result<usize, UseError> {
        match self {
            HeapUse::Spans => spans::mesh_two_spans(heap),
            HeapUse::Stepwise => stepwise::store_between_steps(heap),
            HeapUse::Cancelled => cancelled::cancel_a_mesh(heap),
        }
    }
}

/// Opens a heap of 16 pages, and runs a use on it.
fn use_heap<R: AllocGlobal>(rt: &R, usage: HeapUse) -> Result<usize, UseError> {
    let mut heap = Heap::open(rt.alloc(), 16)?;
    usage.of(&mut heap)
}

/// Opens a book over 16 pages, and runs the use of the journal on it.
fn use_book<R: AllocGlobal>(rt: &R) -> Result<usize, UseError> {
    let mut book = Book::open(rt.alloc(), 16, 64)?;
    journal::keep_a_journal(&mut book)
}
