//! Tests of a book behind a lock: its journal, its seats and its settled history.

mod calls;
mod journals;
mod shared;
