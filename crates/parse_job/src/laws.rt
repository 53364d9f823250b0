//! The law of inputs of codestreams, on a function that does nothing.
ghost use Rattle.scl_run.specs.InputClass.{IsLawful};
ghost use Rattle.parse_job.specs.Inputs.{codestreams_input};

/// Inputs of codestreams have one verdict each, and are read until it is certain.
pub fn codestreams_are_lawful()
    ensures { IsLawful codestreams_input }
{}
