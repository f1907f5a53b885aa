//! Tests of the search for pairs: worked examples, and searches on several threads compared with searches on one
//! thread.

mod indexes;
mod numbers;
mod searchers;
mod worked;
