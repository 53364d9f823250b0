//! A whole capture, read to its end.
ghost use Rattle.std.specs.Prelude.{◌≡◌, List, MatchResult};
ghost use Rattle.scl_outside.specs.Events.{Event};
ghost use Rattle.scl_outside.specs.Effects.{effects, read_to_end};
ghost use Rattle.delivery_model.specs.Delivering.{most_delivered};
ghost use Rattle.deliver_job.specs.ReadingAll.{Reads, ReadsAll, StopsReading};

use scl_outside::{Duct, ReadOut};
use scl_run::{Ending, Reason, Refusal};
use std::alloc::Global;

/// The greatest number of bytes of a capture that is delivered.
const MOST: usize = 268_435_456;

/// The ending of a run whose capture has more bytes than may be delivered.
fn too_long() -> Ending
    ensures { result ≡ Ending.Refused (record { at = most_delivered; reason = Reason.CaptureTooLong }) }
{
    Ending::Refused(Refusal {
        at: MOST as u64,
        reason: Reason::CaptureTooLong,
    })
}

/// Reads the whole input, at most 268,435,456 bytes of it; one byte more is asked for, and refuses
/// it. Or the ending of a run that stops before: a read failed, or it was out of memory.
pub fn read_capture<D: Duct>(alloc: Global, out: &mut D) -> Result<Vec<u8>, Ending>
    ensures { (es : List Event) × Reads (D.meaning out.old) (D.meaning out.new) es
        × MatchResult result (λ capture. ReadsAll capture.items (effects es)) (λ ending. StopsReading ending (effects es)) }
{
    let mut capture = Vec::new(alloc);
    let mut buf = [0u8; 8192];
    while capture.len() <= MOST {
        let room = (MOST + 1 - capture.len()).min(8192);
        match out.read(&mut buf[..room]) {
            ReadOut::Got(count) => {
                let Ok(()) = capture.extend_from_slice(&buf[..count]) else {
                    return Err(Ending::NoMemory);
                };
            }
            ReadOut::End => return Ok(capture),
            ReadOut::Failed => return Err(Ending::ReadFault),
        }
    }
    Err(too_long())
}
