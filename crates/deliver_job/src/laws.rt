//! The law of captures that are delivered, on a function that does nothing.
ghost use Rattle.std.specs.Prelude.{List};
ghost use Rattle.delivery_model.specs.Delivering.{Range};
ghost use Rattle.scl_run.specs.InputClass.{IsLawful};
ghost use Rattle.deliver_job.specs.DeliverInput.{delivered_input};

/// A capture that is to be delivered has one verdict, and is read until the verdict is fixed.
pub fn delivered_inputs_are_lawful()
    ensures { (list : List Range) → IsLawful (delivered_input list) }
{}
