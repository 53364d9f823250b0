//! A trial run, and its line written.
ghost use Rattle.std.specs.Prelude.{List};
ghost use Rattle.scl_outside.specs.Events.{Event};
ghost use Rattle.scl_run.specs.Performing.{Performs};
ghost use Rattle.trial_job.specs.Job.{IsTrial, trial_job};

use crate::asked::Trial;
use crate::counting::count_trial;
use crate::line::line_of;
use scl_outside::{Duct, WriteOut};
use scl_run::Ending;
use std::alloc::Global;

/// Runs a trial and writes its line. It reads nothing; `NoMemory` comes only before anything is
/// written.
pub fn write_trial<D: Duct>(alloc: Global, asked: Trial, out: &mut D) -> Ending
    requires { IsTrial asked }
    ensures { (es : List Event)
        × Performs (trial_job asked) (D.meaning out.old) (D.meaning out.new) result es }
{
    let Ok(counts) = count_trial(alloc, asked) else {
        return Ending::NoMemory;
    };
    match out.write(line_of(&counts).as_bytes()) {
        WriteOut::Done => Ending::Done,
        WriteOut::Failed => Ending::WriteFault,
    }
}
