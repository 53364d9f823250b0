//! A capture delivered.
ghost use Rattle.std.specs.Prelude.{◌≡◌, ◌≤◌, List, None, IfSome, length};
ghost use Rattle.wire_model.specs.Framing.{whole_frames};
ghost use Rattle.scl_outside.specs.Events.{Event};
ghost use Rattle.delivery_model.specs.Delivering.{most_delivered, Delivers};
ghost use Rattle.scl_run.specs.Performing.{Performs};
ghost use Rattle.deliver_job.specs.Items.{ranges_of};
ghost use Rattle.deliver_job.specs.Bounds.{frame_bounds};
ghost use Rattle.deliver_job.specs.DeliverInput.{RefusesDelivery};
ghost use Rattle.deliver_job.specs.DeliverJob.{deliver_job};
ghost use Rattle.deliver_job.specs.Answering.{Answers};

use crate::Item;
use crate::bounds::bounds_of;
use crate::capture::read_capture;
use crate::items::first_missing;
use crate::writing::write_listed;
use scl_outside::{Duct, PutOut};
use scl_run::{Ending, Reason, Refusal};
use std::alloc::Global;

/// Reads a capture to its end, and then writes the frames at the listed positions, unchanged and in
/// the order of the list. The capture is refused where it has more than 268,435,456 bytes or ends
/// inside a frame, and where it has no frame at a listed position: nothing is written then.
/// `NoMemory` comes only before anything is written.
pub fn deliver<D: Duct>(alloc: Global, list: &[Item], out: &mut D) -> Ending
    ensures { (es : List Event)
        × Performs (deliver_job (ranges_of list.now)) (D.meaning out.old) (D.meaning out.new) result es }
{
    match read_capture(alloc, out) {
        Ok(capture) => deliver_frames(alloc, list, &capture, out),
        Err(ending) => ending,
    }
}

/// Writes the listed frames of a capture, or says why it is refused.
fn deliver_frames<D: Duct>(alloc: Global, list: &[Item], capture: &[u8], out: &mut D) -> Ending
    requires { length capture.now ≤ most_delivered }
    ensures { (es : List Event)
        × Answers (ranges_of list.now) capture.now (D.meaning out.old) (D.meaning out.new) result es }
{
    let Ok(bounds) = bounds_of(alloc, capture) else {
        return Ending::NoMemory;
    };
    match refusal_of(list, capture, &bounds) {
        Some(refusal) => Ending::Refused(refusal),
        None => match write_listed(list, capture, &bounds, out) {
            PutOut::Done => Ending::Done,
            PutOut::WriteFault => Ending::WriteFault,
        },
    }
}

/// Why a capture is refused: it ends inside a frame, or has no frame at a listed position.
fn refusal_of(list: &[Item], capture: &[u8], bounds: &[u32]) -> Option<Refusal>
    requires short { length capture.now ≤ most_delivered }
    requires bounds { bounds.now ≡ frame_bounds (whole_frames capture.now) }
    requires some { 1 ≤ length bounds.now }
    ensures refused { IfSome result (λ refusal. RefusesDelivery (ranges_of list.now) capture.now refusal) }
    ensures delivered { result ≡ None → Delivers (ranges_of list.now) capture.now (whole_frames capture.now) }
{
    let frames = bounds.len() - 1;
    let end = bounds[frames];
    if (end as usize) < capture.len() {
        return Some(Refusal {
            at: u64::from(end),
            reason: Reason::CutFrame,
        });
    }
    match first_missing(list, frames as u64) {
        Some(position) => Some(Refusal {
            at: position,
            reason: Reason::NoSuchDatagram,
        }),
        None => None,
    }
}
