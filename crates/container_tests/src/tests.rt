//! Tests of pools, sets of numbers, timed judges, judges of parts, and the bytes of objects.

mod bytes;
mod number_sets;
mod objects;
mod parted_judges;
mod pools;
mod timed_judges;
mod words;
