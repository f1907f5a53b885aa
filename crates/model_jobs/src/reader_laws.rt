//! Laws of the reader of jobs: a text that is read as a job is the text of that job. Each law is the contract of a
//! function that does nothing.
ghost use Rattle.model_jobs.specs.ReaderLaws.{NumberIsSpelt, AddressIsSpelt, ByteIsSpelt, BytesAreSpelt, ClassIsSpelt, WordsAreSpelt, VersionIsSpelt, PagesAreSpelt, HistoryIsSpelt, WorkersAreSpelt, FirstWorkerIsSpelt, ScriptLineIsSpelt, PlanLineIsSpelt, LineIsInRange, ReadIsText, ExactlyTextsAreRead};

/// If a field is read as a value, the field is the only spelling of that value, and the value is in its range.
pub fn fields_are_spelt()
    ensures number { NumberIsSpelt }
    ensures address { AddressIsSpelt }
    ensures byte { ByteIsSpelt }
    ensures bytes { BytesAreSpelt }
    ensures class { ClassIsSpelt }
    ensures words { WordsAreSpelt }
{}

/// In each section, a line that is accepted is the text of its result. The numbers of an accepted line of a plan are in
/// their ranges.
pub fn lines_are_spelt()
    ensures version { VersionIsSpelt }
    ensures pages { PagesAreSpelt }
    ensures history { HistoryIsSpelt }
    ensures workers { WorkersAreSpelt }
    ensures first_worker { FirstWorkerIsSpelt }
    ensures script { ScriptLineIsSpelt }
    ensures plan { PlanLineIsSpelt }
    ensures ranges { LineIsInRange }
{}

/// A text is read as a job if and only if three conditions hold: it is the text of that job, the job's numbers are in
/// their ranges, and the text has at most 1,048,576 bytes.
pub fn read_is_text()
    ensures converse { ReadIsText }
    ensures exactly { ExactlyTextsAreRead }
{}
