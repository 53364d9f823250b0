//! The laws of a cut that is thinned on its way, each on a function that does nothing.
ghost use Rattle.stream_model.specs.ThinnedLaws.{KeptIsInTime, ThinnedKeepsBytes, StartsHaveResyncs, ThinnedIsCounted, ThinnedThenReported, ThinnedIsReached, ThinnedIsDue, ReachedHasLeft, ThinnedGives, ThinnedIsReported};

/// Through what thinning keeps of a cut each precinct of a resolution that is left is reached.
pub fn thinned_is_reached()
    ensures { ThinnedIsReached }
{}

/// So it is due at the end.
pub fn thinned_is_due()
    ensures { ThinnedIsDue }
{}

/// What is reached of a thinned cut has each precinct of a resolution that is left.
pub fn reached_has_left()
    ensures { ReachedHasLeft }
{}

/// The rules give of a thinned cut exactly what is reached.
pub fn thinned_gives()
    ensures { ThinnedGives }
{}

/// A report of a thinned cut writes exactly what is reached.
pub fn thinned_is_reported()
    ensures { ThinnedIsReported }
{}

/// Where exactly what thinning keeps arrives, in order, exactly that is in time.
pub fn kept_is_in_time()
    ensures { KeptIsInTime }
{}

/// Each datagram of a cut that has a byte of a precinct whose resolution is left is kept.
pub fn thinned_keeps_bytes()
    ensures { ThinnedKeepsBytes }
{}

/// The datagram of a cut in which a packet starts has a resync point at or before it.
pub fn starts_have_resyncs()
    ensures { StartsHaveResyncs }
{}

/// What thinning keeps of datagrams is all kept by a receiver.
pub fn thinned_is_counted()
    ensures { ThinnedIsCounted }
{}

/// A report of what thinning a capture of a cut has written writes exactly what is reached.
pub fn thinned_then_reported()
    ensures { ThinnedThenReported }
{}
