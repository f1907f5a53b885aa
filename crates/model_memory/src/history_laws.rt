//! Laws of legal histories. Each law is the contract of a function that does nothing.
ghost use Rattle.model_memory.specs.HistoryLaws.{LegalGoesOn, LegalHasOneEnd};

/// If a reference step starts from the memory after a legal history, the history with the step's entry appended is
/// legal. A legal history has only one final memory.
pub fn legal_histories()
    ensures goes_on { LegalGoesOn }
    ensures one_end { LegalHasOneEnd }
{}
