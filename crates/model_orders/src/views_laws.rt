//! Why the rule is right where several virtual pages share a physical page. The lemma is the contract of a function
//! that does nothing.
ghost use Rattle.model_orders.specs.ViewsLaws.{RowsAreSafe};

/// If the rule allows a list of steps, no interleaving of the steps' moves with stores, frees and reuses of released
/// pages has a wrong load, and each row is moved when its steps are over. A row is a physical page with any number of
/// virtual pages. A copy has any number of pieces.
pub fn rows_are_safe()
    ensures { RowsAreSafe }
{}
