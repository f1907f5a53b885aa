//! The split search: finds pairs of groups of a class that a mesher can mesh.
//!
//! A `ClassView` contains the candidates of one class. `class_view` builds it from the index. `search_one` shuffles the
//! candidates and splits the shuffled order into two lists. In each round, it tries candidates of the first list with
//! candidates of the second list. `split_mesh` does the same with a given order instead of a shuffled one.
//!
//! `search` runs each round on several scoped threads, and returns the same pairs as `search_one`. For every view that
//! a heap has, `search_one` is faster. In contracts, a view is the list of its candidates, and a candidate is a number
//! and a set of slots.
#![tactic(auto)]

mod blocks;
mod candidate;
mod faults;
mod from_index;
mod gate;
mod pairs;
mod parallel;
mod parts;
mod picking;
mod rounds;
mod searching;
mod split;
mod view;

pub use candidate::Candidate;
pub use faults::SearchError;
pub use from_index::class_view;
pub use gate::{Actor, Gate, NoGate, Point};
pub use model_words::StepKind;
pub use pairs::Pairs;
pub use parallel::drop_results;
pub use parts::part;
pub use picking::shuffle;
pub use rounds::Found;
pub use searching::search;
pub use split::{search_one, split_mesh};
pub use view::ClassView;
