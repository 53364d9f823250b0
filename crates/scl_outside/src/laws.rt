//! The laws of lists of calls, each on a function that does nothing.
ghost use Rattle.scl_outside.specs.Failures.{FailuresAreCalls, ReadsAreBefore};
ghost use Rattle.scl_outside.specs.ReadBytes.{ReadsAreBytes};

/// What any first calls of a list took of the input are bytes.
pub fn reads_are_bytes()
    ensures { ReadsAreBytes }
{}

/// The effects of calls say that one failed exactly where one of the calls failed.
pub fn failures_are_calls()
    ensures { FailuresAreCalls }
{}

/// What `AtReads` says is what held before each call: its fact before each that asks for input, and that the
/// call may follow what was done by then.
pub fn reads_are_before()
    ensures { ReadsAreBefore }
{}
