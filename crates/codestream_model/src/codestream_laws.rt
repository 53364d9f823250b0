//! The laws of codestreams and of inputs, each on a function that does nothing.

ghost use Rattle.codestream_model.specs.CodestreamLaws.{CodestreamsAreReadOneWay, CodestreamsAreJudged, CodestreamsHaveOneVerdict, InputsAreJudged, InputIsNotRefused, InputIsOne, FaultIsOne, CodestreamRefusalsStay, CodestreamFrontsNeedBytes};

/// Bytes begin with one codestream at most, and it says one thing.
pub fn codestreams_are_read_one_way()
    ensures { CodestreamsAreReadOneWay }
{}

/// Bytes begin with a codestream, or are refused where one should begin, or end inside one.
pub fn codestreams_are_judged()
    ensures { CodestreamsAreJudged }
{}

/// One of these three alone holds of bytes, and a refusal has one place and one reason.
pub fn codestreams_have_one_verdict()
    ensures { CodestreamsHaveOneVerdict }
{}

/// An input is whole codestreams to its end, or has a fault.
pub fn inputs_are_judged()
    ensures { InputsAreJudged }
{}

/// An input that is whole codestreams to its end has no fault.
pub fn input_is_not_refused()
    ensures { InputIsNotRefused }
{}

/// An input is whole codestreams in one way.
pub fn input_is_one()
    ensures { InputIsOne }
{}

/// An input has one fault at most, at one place, for one reason and after the same codestreams.
pub fn fault_is_one()
    ensures { FaultIsOne }
{}

/// A refusal of a codestream stays, whatever follows.
pub fn codestream_refusals_stay()
    ensures { CodestreamRefusalsStay }
{}

/// A codestream without its last bytes is unfinished.
pub fn codestream_fronts_need_bytes()
    ensures { CodestreamFrontsNeedBytes }
{}
