//! The laws of the definitions, each on a function that does nothing.

ghost use Rattle.stream_model.specs.Laws.{InTimeIsComputed, InTimeIsListed, RepeatChangesNothing, InTimeStays, OrderedIsInTime, BaseIsLeast, BaseNeverFalls, BelowBaseIsDecided, ThinnedDoesNotArrive, ThinnedThenPicked, ReachedIsComputed, DueGrows, WholeIsDue, PartsAreOfCodestreams, EventsAreOne, BodyHasByte, PrecinctIsFound, StreamIsInOrder, WholeStreamIsDue, WrittenIsDatagram, ChunksAreFull, StretchesAreRuns, PayloadsAreWhole, ClosedStays, CutIsStream};

/// A position is in time exactly where its test says so.
pub fn in_time_is_computed()
    ensures { InTimeIsComputed }
{}

/// A position is listed as in time where it is.
pub fn in_time_is_listed()
    ensures { InTimeIsListed }
{}

/// An arrival after the first of its position changes nothing.
pub fn repeat_changes_nothing()
    ensures { RepeatChangesNothing }
{}

/// What is in time stays in time.
pub fn in_time_stays()
    ensures { InTimeStays }
{}

/// Without loss and in order everything is in time, whatever the window.
pub fn ordered_is_in_time()
    ensures { OrderedIsInTime }
{}

/// The base is the least position, from the floor on, that isn't in time.
pub fn base_is_least()
    ensures { BaseIsLeast }
{}

/// The base never falls as positions arrive.
pub fn base_never_falls()
    ensures { BaseNeverFalls }
{}

/// What is below the base is decided.
pub fn below_base_is_decided()
    ensures { BelowBaseIsDecided }
{}

/// A datagram that is thinned away is a position that doesn't arrive.
pub fn thinned_does_not_arrive()
    ensures { ThinnedDoesNotArrive }
{}

/// Where a source is asked for, thinning and picking can change places.
pub fn thinned_then_picked()
    ensures { ThinnedThenPicked }
{}

/// A precinct is reached exactly where its test says so.
pub fn reached_is_computed()
    ensures { ReachedIsComputed }
{}

/// What is due stays due, and what becomes due comes after it.
pub fn due_grows()
    ensures { DueGrows }
{}

/// Without loss and in order every precinct is due, whatever the window.
pub fn whole_is_due()
    ensures { WholeIsDue }
{}

/// Parts are those of an accepted codestream, and each accepted codestream has parts.
pub fn parts_are_of_codestreams()
    ensures { PartsAreOfCodestreams }
{}

/// Frames are datagrams of a stream at one list of positions at most.
pub fn events_are_one()
    ensures { EventsAreOne }
{}

/// The byte at an offset after SOD is in the Body that is computed.
pub fn body_has_byte()
    ensures { BodyHasByte }
{}

/// Where a packet begins, its precinct is found by its place.
pub fn precinct_is_found()
    ensures { PrecinctIsFound }
{}

/// The packets of a stream are in order.
pub fn stream_is_in_order()
    ensures { StreamIsInOrder }
{}

/// Without loss and in order every precinct of a stream is due, whatever the window.
pub fn whole_stream_is_due()
    ensures { WholeStreamIsDue }
{}

/// What our sender writes is a datagram with the values that it means.
pub fn written_is_datagram()
    ensures { WrittenIsDatagram }
{}

/// The payloads of a stretch, joined, are the stretch, and each but the last is full.
pub fn chunks_are_full()
    ensures { ChunksAreFull }
{}

/// In `split` mode the stretches are the longest runs of packets of one resolution, and else there is one.
pub fn stretches_are_runs()
    ensures { StretchesAreRuns }
{}

/// The payloads of the cut, joined, are the bytes after SOD, and each fits a datagram.
pub fn payloads_are_whole()
    ensures { PayloadsAreWhole }
{}

/// A payload that is closed stays as it is when more of the codestream comes.
pub fn closed_stays()
    ensures { ClosedStays }
{}

/// The cut of codestreams that can be sent is a stream that carries them.
pub fn cut_is_stream()
    ensures { CutIsStream }
{}
