//! Lemmas about both heaps after any calls. Each lemma is the contract of a function that does nothing.
ghost use Rattle.savings_replay.specs.Alike.{ClassesAreAlike, HeapsAreAlike, HeapsAreSound, RunsGoOn};
ghost use Rattle.savings_replay.specs.EmptyPages.{RoundsLeaveNoneEmpty};

/// After any calls, both heaps have the same live objects. Each object has the same serial, length and class in both
/// heaps.
pub fn heaps_are_alike()
    ensures objects { HeapsAreAlike }
    ensures classes { ClassesAreAlike }
{}

/// After any calls, the tables of both heaps are sound.
pub fn heaps_are_sound()
    ensures { HeapsAreSound }
{}

/// Let a list of calls be split into two parts. A run of the first part, continued with the second part, then has the
/// outcome of a run of the whole list.
pub fn runs_go_on()
    ensures { RunsGoOn }
{}

/// After a round, and until the next free of a small object, both heaps have no group without an object.
pub fn rounds_leave_none_empty()
    ensures { RoundsLeaveNoneEmpty }
{}
