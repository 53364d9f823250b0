//! Laws of the tale, each on a function that does nothing.
ghost use Rattle.relay_model.specs.Laws.{TurnsAreTold, FlushesAreTold, PollsSettle};

/// A poll leaves the queue empty, or the link wasn't ready at its last answer.
pub fn polls_settle()
    ensures { PollsSettle }
{}

/// A turn added to a list of turns adds its answers, and no other.
pub fn turns_are_told()
    ensures { TurnsAreTold }
{}

/// A flush added to turns and flushes is told by the number of flushes that the answers show.
pub fn flushes_are_told()
    ensures { FlushesAreTold }
{}
