//! What a report means. Each law is the contract of a function that does nothing.
ghost use Rattle.otherwise_report.specs.ClientLaws.{ClientsGetAnswers, ClientsReachStates};
ghost use Rattle.otherwise_report.specs.ReportLaws.{AnswerPlansAreShortest, FaultPlansAreShortest, NoAnswerIsOverlooked, NoFaultIsOverlooked, NoStuckIsOverlooked, StuckPlansAreShortest};

/// What isn't reported isn't there: no reachable state has a fault of a kind of which none is reported, and no command
/// is answered wrongly or blocked for ever if none is reported.
pub fn nothing_is_overlooked()
    ensures faults { NoFaultIsOverlooked }
    ensures answers { NoAnswerIsOverlooked }
    ensures stuck { NoStuckIsOverlooked }
{}

/// The plan of a fault is a shortest one to a fault of its kind, that of a wrong answer a shortest one to a wrong
/// answer, and that of a command that is blocked for ever a shortest one to such a command.
pub fn plans_are_shortest()
    ensures faults { FaultPlansAreShortest }
    ensures answers { AnswerPlansAreShortest }
    ensures stuck { StuckPlansAreShortest }
{}

/// A client covers each job whose commands are among its own and are no more than it may give: it reaches each state
/// that the job's workers reach, and gets each wrong answer that they get.
pub fn clients_cover_jobs()
    ensures states { ClientsReachStates }
    ensures answers { ClientsGetAnswers }
{}
