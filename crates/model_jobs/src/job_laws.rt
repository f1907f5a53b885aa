//! Laws of a job's run: its history is legal, and its page counts add up. Each law is the contract of a function that
//! does nothing.
ghost use Rattle.model_jobs.specs.JobLaws.{AnsweredIsStep, InitialIsRunning, AnswerKeepsRunning, LinesKeepRunning, HistoryIsLegal, RepliesAreRecorded, EntriesBeginScripts, JobsKeepCount, ReportsAddUp};

/// If the table is sound and tied to the memory, the reference memory allows each command's answer and the memory after
/// it.
pub fn answered_is_step()
    ensures { AnsweredIsStep }
{}

/// At the start of a job and after each line of its plan, the table is sound and tied to the memory, and the history is
/// legal.
pub fn jobs_keep_running()
    ensures initial_state { InitialIsRunning }
    ensures answer { AnswerKeepsRunning }
    ensures lines { LinesKeepRunning }
{}

/// The history of a job is legal after any lines of a plan. The replies among the answers to these lines are the
/// replies of the history's entries, with the same workers and in the same order.
pub fn history_is_legal()
    ensures legal { HistoryIsLegal }
    ensures replies { RepliesAreRecorded }
{}

/// The answered commands of a worker are a prefix of its script.
pub fn entries_begin_scripts()
    ensures { EntriesBeginScripts }
{}

/// After any lines of a job's plan, the free pages and the pages of all spans add up to the job's physical pages plus
/// the released pages. In each report, the saved and the taken pages add up to the mapped pages.
pub fn job_pages_are_counted()
    ensures jobs { JobsKeepCount }
    ensures reports { ReportsAddUp }
{}
