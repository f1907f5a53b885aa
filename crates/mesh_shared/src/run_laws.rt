//! Laws of the definitions of runs. Each is the contract of a function that does nothing.
ghost use Rattle.mesh_shared.specs.RunLaws.{ExchangedIsNoBeginning, ExchangedIsNoRun, FirstAloneIsNoRun, NothingIsToldOfNone, StrangerIsNoBeginning, StrangerIsNoRun, ToldIsFirst, ToldIsThere, WholeIsRun, WithoutLastIsBegun, WithoutLastIsNoRun};

/// Examples of histories that are a run of two scripts, and of four histories that aren't. Of these four histories, the
/// first lacks a worker's last command, and in the second only one script is whole. The third has an entry of a worker
/// that doesn't exist, and in the fourth the commands of two workers are exchanged.
pub fn runs_are_whole()
    ensures whole { WholeIsRun }
    ensures begun { WithoutLastIsBegun }
    ensures lacks_last { WithoutLastIsNoRun }
    ensures first_alone { FirstAloneIsNoRun }
    ensures stranger { StrangerIsNoRun }
    ensures stranger_begun { StrangerIsNoBeginning }
    ensures exchanged { ExchangedIsNoRun }
    ensures exchanged_begun { ExchangedIsNoBeginning }
{}

/// If several threads stopped, the reported stop is the first in the order allocation failure, thread fault, full
/// journal. If no stop is reported, no thread was stopped.
pub fn first_stop_is_told()
    ensures there { ToldIsThere }
    ensures first { ToldIsFirst }
    ensures nothing { NothingIsToldOfNone }
{}
