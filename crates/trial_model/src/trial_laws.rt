//! Laws of the trial, each on a function that does nothing.
ghost use Rattle.trial_model.specs.TrialLaws.{DeliveredAreWithin, TrialCountsWhatIsReceived, TrialsCanBeSent};

/// What is delivered are some of the datagrams.
pub fn delivered_are_within()
    ensures { DeliveredAreWithin }
{}

/// A trial counts what a receiver makes of the thinned list.
pub fn trial_counts_what_is_received()
    ensures { TrialCountsWhatIsReceived }
{}

/// The codestreams of a trial can be sent.
pub fn trials_can_be_sent()
    ensures { TrialsCanBeSent }
{}
