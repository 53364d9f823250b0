//! The headline and the readings, as laws on functions that do nothing.
ghost use Rattle.report_job.specs.Headlines.{HeadlineFollows, HeadlineSoFar, HeadlineAtFault};
ghost use Rattle.report_job.specs.Headlines.{WholeStreamIsReported, ThinnedFollows};
ghost use Rattle.report_job.specs.Readings.{ReadingsSoFar, ReadingsAtEnd};

/// What a finished report has written of a stream's capture are the lines of what is due at its
/// end, and the END line.
pub fn headline_follows()
    ensures { HeadlineFollows }
{}

/// What a report has written before each call that asks for input, of a stream's capture, are the
/// lines of what is due by then.
pub fn headline_so_far()
    ensures { HeadlineSoFar }
{}

/// What a report has written where a read failed or the input was refused are the lines of what was
/// due by then.
pub fn headline_at_fault()
    ensures { HeadlineAtFault }
{}

/// What a finished report has written of the capture of a whole stream in order are the lines of
/// all its precincts, and the END line.
pub fn whole_stream_is_reported()
    ensures { WholeStreamIsReported }
{}

/// What a report has written before each call that asks for input are the lines of readings of what
/// was read, whatever bytes that are.
pub fn readings_so_far()
    ensures { ReadingsSoFar }
{}

/// What a report has written by its end are the lines of readings of what was read, whatever bytes
/// that are and however it ended; and the END line where it finished.
pub fn readings_at_end()
    ensures { ReadingsAtEnd }
{}

/// What a finished report has written of a capture of what thinning keeps of a cut are the lines of
/// what is reached through it, every precinct of a resolution that the limit leaves among them.
pub fn thinned_follows()
    ensures { ThinnedFollows }
{}
