//! Laws of the definitions. Each is the contract of a function that does nothing.
ghost use Rattle.model_otherwise.specs.AnswerLaws.{AnswersArePlain, BegunChangesNothing, TimedAnswersArePlain, TimedWrongAnswersAreWrong, WrongAnswersAreWrong};
ghost use Rattle.model_otherwise.specs.MoveLaws.{LimitsEndPhases, PagesComeOneByOne, PagesGoThroughMembers, PiecesCoverSlots, RightMovesAreTheHeaps, RightMovesEnd};
ghost use Rattle.model_otherwise.specs.SpotLaws.{CopiedBytesAreFound, CopiesChangeNoOther, StoredBytesAreFound, StoresChangeNoOther, ZeroedBytesAreZero, ZeroesChangeNoOther};
ghost use Rattle.model_otherwise.specs.TimedLaws.{FreesNeedTheirGroup, LoadsEndLate, OthersWait, StoresEndLate};
ghost use Rattle.model_otherwise.specs.StepLaws.{AccessesAreAllowed, CopiesObjects, CopiesPieces, GoesThroughPages, LooksOnce, MergesGroups, OpensGroups, ProtectsOnePage, ReleasesOnePage, RemapsOnePage};

/// An example of each step, which a slip in the step's effect contradicts.
#[tactic(auto, unfolding(model_words::specs::Classes::pages_of, model_words::specs::Classes::slots_of))]
pub fn steps_have_effects()
    ensures protects { ProtectsOnePage }
    ensures remaps { RemapsOnePage }
    ensures copies { CopiesObjects }
    ensures pieces { CopiesPieces }
    ensures releases { ReleasesOnePage }
    ensures merges { MergesGroups }
    ensures opens { OpensGroups }
    ensures looks { LooksOnce }
    ensures accesses { AccessesAreAllowed }
{}

/// An example of the steps in spans of three pages.
#[tactic(auto, unfolding(model_words::specs::Classes::pages_of, model_words::specs::Classes::slots_of))]
pub fn steps_go_through_pages()
    ensures { GoesThroughPages }
{}

/// Examples of moves for some of the pages, and of pieces.
#[tactic(auto, unfolding(model_words::specs::Classes::pages_of, model_words::specs::Classes::slots_of))]
pub fn phases_have_moves()
    ensures limits { LimitsEndPhases }
    ensures pages { PagesGoThroughMembers }
    ensures one_by_one { PagesComeOneByOne }
    ensures pieces { PiecesCoverSlots }
{}

/// The moves of the list protect, copy, remap, unprotect, release are the steps of the heap's own meshes, for every
/// number of members, of pages and of slots.
pub fn right_moves()
    ensures same { RightMovesAreTheHeaps }
    ensures end { RightMovesEnd }
{}

/// Stores, copies and zeroes change the bytes that they should change, and no other.
pub fn bytes_change_alone()
    ensures stored { StoredBytesAreFound }
    ensures stores { StoresChangeNoOther }
    ensures zeroed { ZeroedBytesAreZero }
    ensures zeroes { ZeroesChangeNoOther }
    ensures copied { CopiedBytesAreFound }
    ensures copies { CopiesChangeNoOther }
{}

/// An answer that is a move is one that the reference memory may give. A wrong answer is none of these.
pub fn answers_are_judged()
    ensures right { AnswersArePlain }
    ensures wrong { WrongAnswersAreWrong }
{}

/// The same for commands that may be made in two moves. The first move changes nothing in the reference memory.
pub fn timed_answers_are_judged()
    ensures right { TimedAnswersArePlain }
    ensures begun { BegunChangesNothing }
    ensures wrong { TimedWrongAnswersAreWrong }
{}

/// Examples of commands in two moves.
#[tactic(auto, unfolding(model_words::specs::Classes::pages_of, model_words::specs::Classes::slots_of))]
pub fn commands_take_two_moves()
    ensures stores { StoresEndLate }
    ensures loads { LoadsEndLate }
    ensures others { OthersWait }
    ensures frees { FreesNeedTheirGroup }
{}
