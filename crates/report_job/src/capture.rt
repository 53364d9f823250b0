//! A capture reported.
ghost use Rattle.std.specs.Prelude.{◌≤◌, List};
ghost use Rattle.scl_outside.specs.Events.{Event};
ghost use Rattle.scl_run.specs.Performing.{Performs};
ghost use Rattle.stream_receiver.specs.States.{pick_of};
ghost use Rattle.report_job.specs.Job.{report_job};

use crate::lines::Lines;
use receiving_job::receive_capture;
use scl_outside::Duct;
use scl_run::Ending;
use std::alloc::Global;
use stream_receiver::Pick;

/// Reads a capture to its end, and writes the lines of each precinct of the stream that is picked
/// as soon as it is due; at the end those of what is still held, and the END line. All memory is
/// taken before the first read: `NoMemory` comes only there. The input is refused where it ends
/// inside a frame or passes 1,099,511,627,776 bytes.
pub fn report<D: Duct>(alloc: Global, pick: Pick, out: &mut D) -> Ending
    requires some { 1 ≤ pick.window }
    requires few { pick.window ≤ 16384 }
    ensures { (es : List Event)
        × Performs (report_job (pick_of pick)) (D.meaning out.old) (D.meaning out.new) result es }
{
    receive_capture(alloc, pick, &mut Lines, out)
}
