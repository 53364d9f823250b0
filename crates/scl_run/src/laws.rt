//! The laws of each class of input, each on a function that does nothing.
ghost use Rattle.scl_run.specs.InputClass.{IsLawful, no_input};
ghost use Rattle.scl_run.specs.CaptureInput.{capture_input};
ghost use Rattle.scl_run.specs.HeaderInput.{header_input};

/// A capture has one verdict, and is read until the verdict is fixed.
pub fn capture_inputs_are_lawful()
    ensures { IsLawful capture_input }
{}

/// An input that should begin with a main header has one verdict, and is read until the verdict is fixed.
pub fn header_inputs_are_lawful()
    ensures { IsLawful header_input }
{}

/// A job that reads nothing accepts every input.
pub fn no_input_is_lawful()
    ensures { IsLawful no_input }
{}
