//! What `rebuild` promises of streams and of any captures, as laws on functions that do nothing.
ghost use Rattle.rebuild_job.specs.Promises.{StreamIsRebuilt, RebuiltAtEnd};

/// What a finished run has written of a stream's capture are its codestreams of which a precinct is
/// reached, each with the packets that are reached.
pub fn stream_is_rebuilt()
    ensures { StreamIsRebuilt }
{}

/// What a finished run has written of any capture are codestreams, each with a packet of the frames
/// that are kept, or an empty one, for each precinct.
pub fn rebuilt_at_end()
    ensures { RebuiltAtEnd }
{}
