//! Laws of a receiver, each on a function that does nothing.
ghost use Rattle.scl_run.specs.InputClass.{IsLawful};
ghost use Rattle.recv_job.specs.Headlines.{DueAtEnd, DueSoFar};
ghost use Rattle.recv_job.specs.Job.{recv_job};
ghost use Rattle.recv_job.specs.Settings.{Settings};

/// A receiver reads no input.
pub fn receivers_are_lawful()
    ensures { (settings : Settings) → IsLawful (recv_job settings).inputs }
{}

/// What was written before each call for a datagram are the lines of what is due of a stream by then.
pub fn due_so_far()
    ensures { DueSoFar }
{}

/// What was written by the end are the lines of what is due of a stream at its end, the END line and
/// the last line; and where a call for a datagram failed, those of what was due by then.
pub fn due_at_end()
    ensures { DueAtEnd }
{}
