//! The laws of inputs that are sent and of what is written of them, each on a function that does nothing.
ghost use Rattle.stream_model.specs.Cut.{Plan, IsPlan};
ghost use Rattle.scl_run.specs.InputClass.{IsLawful};
ghost use Rattle.pack_job.specs.SentInput.{sent_input};
ghost use Rattle.pack_job.specs.PackedStreams.{StreamIsPacked, PackedSoFar, PackedAtEnd};

/// Inputs that are sent have one verdict each, and are read until it is certain.
pub fn sent_inputs_are_lawful()
    ensures { (p : Plan) → IsPlan p → IsLawful (sent_input p) }
{}

/// What a finished run has written is the capture of a stream that carries the codestreams of its input.
pub fn stream_is_packed()
    ensures { StreamIsPacked }
{}

/// What a run has written before each call that asks for input are the frames of the datagrams that the bytes read fix;
/// at most 90,000 of these bytes are in none of them.
pub fn packed_so_far()
    ensures { PackedSoFar }
{}

/// What a run has written by its end are the frames of the datagrams that the bytes read fix, or a prefix of them where a
/// write failed.
pub fn packed_at_end()
    ensures { PackedAtEnd }
{}
