//! Laws of the exit statuses and of the lines of errors. Each is the contract of a function that does nothing.
ghost use Rattle.run_program.specs.StatusLaws.{FaultsAreSpelt, FaultyFilesAreTold, FaultyTextsAreTold, NoErrorIsDone, NoRunErrorIsDone, RunFaultsAreTold, ThreadFaultsAreTold, WantOfMemoryIsTold};

/// No error has status 0. An error has status 2 if and only if the text of the file has a fault or, in a run in
/// threads, its history is too short. A fault of the text is printed as the number of its line and its name.
pub fn statuses_tell_errors_apart()
    ensures done { NoErrorIsDone }
    ensures run_done { NoRunErrorIsDone }
    ensures text { FaultyTextsAreTold }
    ensures file { FaultyFilesAreTold }
    ensures spelt { FaultsAreSpelt }
{}

/// The line of a `RunError` is `out of memory` for `Memory`, and `thread fault` for `Thread`. It is `run fault` for
/// `History` and for every fault of `finish`, including an allocation failure inside `finish`.
pub fn stops_are_told_as_they_are()
    ensures memory { WantOfMemoryIsTold }
    ensures thread { ThreadFaultsAreTold }
    ensures run { RunFaultsAreTold }
{}
