//! The law of a relay's inputs, on a function that does nothing.
ghost use Rattle.relay_job.specs.Settings.{Settings};
ghost use Rattle.relay_job.specs.Job.{relay_job};
ghost use Rattle.scl_run.specs.InputClass.{IsLawful};

/// A relay reads no input.
pub fn relays_are_lawful()
    ensures { (settings : Settings) → IsLawful (relay_job settings).inputs }
{}
