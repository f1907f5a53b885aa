//! Why the rule is right where the groups may be merged before the mesh is over. Each lemma is the contract of a
//! function that does nothing.
ghost use Rattle.model_orders.specs.MergeLaws.{MergeAfterLookIsWrong, MergedListsAreSafe, MergesAreJudged};

/// If the rule allows a list of steps, no interleaving of the steps with stores, frees, new objects and reuses of
/// released pages has a wrong load on either side, and each page is moved when its steps are made.
pub fn merged_lists_are_safe()
    ensures { MergedListsAreSafe }
{}

/// Lists with a look and a merge: two that the rule allows, and one that it forbids, with moves that end in a wrong
/// load.
pub fn merges()
    ensures judged { MergesAreJudged }
    ensures after_look { MergeAfterLookIsWrong }
{}
