//! Laws of the text of jobs: the text of a job is read back as that job. Each law is the contract of a function that
//! does nothing.
ghost use Rattle.model_jobs.specs.TextLaws.{NumberReadsBack, AddressReadsBack, ByteReadsBack, BytesReadBack, CommandReadsBack, LineReadsBack, JobReadsBack};

/// If a value is in its range, the text of its field is read back as the value.
pub fn fields_read_back()
    ensures number { NumberReadsBack }
    ensures address { AddressReadsBack }
    ensures byte { ByteReadsBack }
    ensures bytes { BytesReadBack }
{}

/// If the numbers of a command or of a line of a plan are in their ranges, its text is read back as that command or
/// line.
pub fn lines_read_back()
    ensures command { CommandReadsBack }
    ensures line { LineReadsBack }
{}

/// If the numbers of a job are in their ranges and its text has at most 1,048,576 bytes, the text is read back as the
/// job.
pub fn job_reads_back()
    ensures { JobReadsBack }
{}
