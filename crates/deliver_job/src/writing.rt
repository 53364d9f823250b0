//! The listed frames, written.
ghost use Rattle.std.specs.Prelude.{◌≡◌, ◌<◌, ◌+◌, List, length, None, slice_index_or, [], ◌∷◌};
ghost use Rattle.wire_model.specs.Framing.{frame, whole_frames};
ghost use Rattle.scl_outside.specs.Events.{Event};
ghost use Rattle.scl_outside.specs.Writing.{Puts};
ghost use Rattle.delivery_model.specs.Delivering.{first_missing};
ghost use Rattle.deliver_job.specs.Items.{range_of, ranges_of};
ghost use Rattle.deliver_job.specs.Bounds.{frame_bounds};
ghost use Rattle.deliver_job.specs.Writing.{listed};

use crate::Item;
use crate::bounds::frame_at;
use crate::items::{first_of, last_of};
use scl_outside::{Duct, PutOut, WriteOut};

/// Writes the frame at this position.
fn write_frame<D: Duct>(capture: &[u8], bounds: &[u32], position: usize, out: &mut D) -> PutOut
    requires bounds { bounds.now ≡ frame_bounds (whole_frames capture.now) }
    requires there { position + 1 < length bounds.now }
    ensures { (es : List Event)
        × Puts (frame (slice_index_or (whole_frames capture.now) position [])) (D.meaning out.old) (D.meaning out.new) result es }
{
    match out.write(frame_at(capture, bounds, position)) {
        WriteOut::Done => PutOut::Done,
        WriteOut::Failed => PutOut::WriteFault,
    }
}

/// Writes the frames at the positions of an item.
fn write_item<D: Duct>(item: Item, capture: &[u8], bounds: &[u32], out: &mut D) -> PutOut
    requires bounds { bounds.now ≡ frame_bounds (whole_frames capture.now) }
    requires there { first_missing (range_of item ∷ []) (length (whole_frames capture.now)) ≡ None }
    ensures { (es : List Event)
        × Puts (listed (range_of item ∷ []) (whole_frames capture.now)) (D.meaning out.old) (D.meaning out.new) result es }
{
    let mut position = first_of(item) as usize;
    let last = last_of(item) as usize;
    while position <= last {
        match write_frame(capture, bounds, position, out) {
            PutOut::Done => position += 1,
            PutOut::WriteFault => return PutOut::WriteFault,
        }
    }
    PutOut::Done
}

/// Writes the listed frames, in the order of the list.
pub fn write_listed<D: Duct>(list: &[Item], capture: &[u8], bounds: &[u32], out: &mut D) -> PutOut
    requires bounds { bounds.now ≡ frame_bounds (whole_frames capture.now) }
    requires there { first_missing (ranges_of list.now) (length (whole_frames capture.now)) ≡ None }
    ensures { (es : List Event)
        × Puts (listed (ranges_of list.now) (whole_frames capture.now)) (D.meaning out.old) (D.meaning out.new) result es }
{
    for item in list {
        match write_item(*item, capture, bounds, out) {
            PutOut::Done => {}
            PutOut::WriteFault => return PutOut::WriteFault,
        }
    }
    PutOut::Done
}
