//! Lemmas about the rule, and why it is right. Each is the contract of a function that does nothing.
ghost use Rattle.model_orders.specs.RuleLaws.{CopyAfterUnprotectIsWrong, CopyBeforeProtectIsWrong, ListsAreAllowed, ReleaseBeforeRemapIsWrong, ReleaseWithoutCopyIsWrong, RemapBeforeCopyIsWrong, RemapBeforeHideIsWrong, RightListsAreSafe, RuleIsExact, TwoOrdersAreRight, UnprotectBeforeRemapIsWrong};
ghost use Rattle.model_orders.specs.WrongLaws.{FirstWrongIsExact, FirstWrongIsFirst, ReasonsAreGiven};

/// If the rule allows a list of steps, no interleaving of the steps with stores, frees and reuses of released pages has
/// a wrong load, and each page is moved when its steps are made.
pub fn right_lists_are_safe()
    ensures { RightListsAreSafe }
{}

/// The rule allows a list of steps if and only if no interleaving leads to a fault. A fault is a wrong load, a page
/// that isn't moved when its steps are made, or a second release.
pub fn rule_is_exact()
    ensures { RuleIsExact }
{}

/// A list has no wrong step if and only if the rule allows it. The first wrong step is the first one that no right list
/// has there. Each reason has an example.
pub fn first_wrong_is_exact()
    ensures exact { FirstWrongIsExact }
    ensures first { FirstWrongIsFirst }
    ensures reasons { ReasonsAreGiven }
{}

/// Lists of steps that the rule forbids, each with moves that end in a wrong load.
pub fn forbidden_lists()
    ensures copied_early { CopyBeforeProtectIsWrong }
    ensures remapped_early { RemapBeforeCopyIsWrong }
    ensures unprotected_early { UnprotectBeforeRemapIsWrong }
    ensures never_copied { ReleaseWithoutCopyIsWrong }
    ensures copied_late { CopyAfterUnprotectIsWrong }
    ensures hidden_late { RemapBeforeHideIsWrong }
    ensures released_early { ReleaseBeforeRemapIsWrong }
{}

/// Lists of steps that the rule allows.
pub fn allowed_lists()
    ensures { ListsAreAllowed }
{}

/// Of the 120 orders of protect, copy, remap, unprotect and release, the rule allows two.
pub fn orders_of_the_five_steps()
    ensures { TwoOrdersAreRight }
{}
