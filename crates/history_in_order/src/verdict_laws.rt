//! Laws of verdicts. Each is the contract of a function that does nothing.
ghost use Rattle.history_in_order.specs.VerdictLaws.{LegalIsLegal, VerdictsAreOne, WrongIsFirst};

/// The verdict on a text is `legal` if and only if the text is a legal history.
pub fn legal_is_legal()
    ensures { LegalIsLegal }
{}

/// If the verdict names the line of a wrong entry, then this entry is the first that is rejected.
pub fn wrong_is_first()
    ensures { WrongIsFirst }
{}

/// A text has at most one verdict.
pub fn verdicts_are_one()
    ensures { VerdictsAreOne }
{}
