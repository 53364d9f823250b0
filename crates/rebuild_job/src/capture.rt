//! A capture whose codestreams are built again.
ghost use Rattle.std.specs.Prelude.{◌≤◌, List};
ghost use Rattle.scl_outside.specs.Events.{Event};
ghost use Rattle.scl_run.specs.Performing.{Performs};
ghost use Rattle.stream_receiver.specs.States.{pick_of};
ghost use Rattle.rebuild_job.specs.Job.{rebuild_job};

use crate::codestreams::Codestreams;
use receiving_job::receive_capture;
use scl_outside::Duct;
use scl_run::Ending;
use std::alloc::Global;
use stream_receiver::Pick;

/// Reads a capture to its end, and writes codestreams with the packets of the stream that is
/// picked, each packet as soon as it is due; a precinct of which no packet is released has an empty
/// one. At the capture's end the packets that are still held follow, and the last codestream is
/// closed. All memory is taken before the first read: `NoMemory` comes only there. The input is
/// refused where it ends inside a frame or passes 1,099,511,627,776 bytes.
pub fn rebuild<D: Duct>(alloc: Global, pick: Pick, out: &mut D) -> Ending
    requires some { 1 ≤ pick.window }
    requires few { pick.window ≤ 16384 }
    ensures { (es : List Event)
        × Performs (rebuild_job (pick_of pick)) (D.meaning out.old) (D.meaning out.new) result es }
{
    let Ok(mut codestreams) = Codestreams::new(alloc) else {
        return Ending::NoMemory;
    };
    receive_capture(alloc, pick, &mut codestreams, out)
}
