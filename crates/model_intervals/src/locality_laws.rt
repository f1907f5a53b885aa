//! Why the calls can be judged object by object, and how orders of each object's accesses give an order of all calls.
//! Each lemma is the contract of a function that does nothing.
ghost use Rattle.model_intervals.specs.KeyedOrders.{KeysExplain};
ghost use Rattle.model_intervals.specs.LocalityLaws.{HistoriesAreLocal};

/// Some order of effect explains a history if and only if four conditions hold:
///
/// - For each object, some order of its accesses explains them.
/// - No serial is given twice.
/// - The answer of each `new` fits its length.
/// - If the ranges of two objects meet, the `free` of one object begins no later than the `new` of the other object
///   ends.
pub fn histories_are_local()
    ensures { HistoriesAreLocal }
{}

/// If a history is explained object by object, the calls sorted by the following numbers are an order of effect that
/// explains all calls. For each object, an order that explains its accesses is given.
///
/// - The number of a `new` is 3 * end + 2.
/// - The number of a `free` is 3 * begin.
/// - The number of an access is 3 * b + 1, where b is the latest begin of this access and of those before it in the
///   object's order.
///
/// Accesses to one object with equal numbers must have the order that is given. Other calls with equal numbers may have
/// either order.
pub fn keys_explain()
    ensures { KeysExplain }
{}
