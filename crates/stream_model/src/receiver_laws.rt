//! The laws of a receiver's rules, each on a function that does nothing.
ghost use Rattle.stream_model.specs.DrainLaws.{NextIsDrained, DrainedHasNothing, DrainedTakesFrame, GivenAreWhole, KeptIsNear};
ghost use Rattle.stream_model.specs.ReceiverJoins.{PrecinctsJoin};
ghost use Rattle.stream_model.specs.ReportLaws.{ReportWritesWhatIsDue, ArriveFront, ReceivedGrows, ReportGrows};
ghost use Rattle.stream_model.specs.WindowMaps.{WindowOfFrames};
ghost use Rattle.stream_model.specs.ReceiverLaws.{MalformedFramesAreCountedAlone, EachFrameIsCountedOnce, FoundIsWhatStands};

/// A frame that isn't a well-formed datagram of the payload type changes the count of refused frames alone.
pub fn malformed_frames_are_counted_alone()
    ensures { MalformedFramesAreCountedAlone }
{}

/// Each frame is counted once: kept, old or refused.
pub fn each_frame_is_counted_once()
    ensures { EachFrameIsCountedOnce }
{}

/// What the rules find where a precinct's packet should be is what is there.
pub fn found_is_what_stands()
    ensures { FoundIsWhatStands }
{}

/// The precincts of frames are those of each frame, joined.
pub fn precincts_join()
    ensures { PrecinctsJoin }
{}

/// A window of frames answers, holds and hands on as the window of their datagrams.
pub fn window_of_frames()
    ensures { WindowOfFrames }
{}

/// What the window hands on next is the first of what is drained.
pub fn next_is_drained()
    ensures { NextIsDrained }
{}

/// A drained window has nothing to hand on.
pub fn drained_has_nothing()
    ensures { DrainedHasNothing }
{}

/// A frame that makes numbers due is kept once they are drained.
pub fn drained_takes_frame()
    ensures { DrainedTakesFrame }
{}

/// What is kept is near the base.
pub fn kept_is_near()
    ensures { KeptIsNear }
{}

/// Of a stream `report` writes the lines of what is due, and at the end of what is due at the end.
pub fn report_writes_what_is_due()
    ensures { ReportWritesWhatIsDue }
{}

/// What arrived of the first frames are the first arrivals.
pub fn arrive_front()
    ensures { ArriveFront }
{}

/// Frames are received one after another.
pub fn received_grows()
    ensures { ReceivedGrows }
{}

/// What `report` has written stays.
pub fn report_grows()
    ensures { ReportGrows }
{}

/// What is given are whole precincts.
pub fn given_are_whole()
    ensures { GivenAreWhole }
{}
