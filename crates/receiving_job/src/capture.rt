//! A capture received, frame by frame.
ghost use Rattle.std.specs.Prelude.{◌≡◌, ◌≤◌, ◌<◌, ◌^◌, List, [], true};
ghost use Rattle.stream_model.specs.Decoder.{Release};
ghost use Rattle.scl_outside.specs.Events.{Event};
ghost use Rattle.scl_run.specs.Performing.{Performs};
ghost use Rattle.stream_receiver.specs.States.{counted, pick_of};
ghost use Rattle.receiving_job.specs.Giving.{IsReady, Stands};
ghost use Rattle.receiving_job.specs.Job.{receiving_job};
ghost use Rattle.receiving_job.specs.Turns.{Turns};

use crate::giving::{finish, take};
use crate::sink::Sink;
use capture_frames::{FrameOut, Frames};
use scl_outside::{Duct, PutOut, are_bytes};
use scl_run::{Ending, Reason, Refusal};
use std::alloc::Global;
use stream_receiver::{Pick, Receiver};

/// The offset at which an input that is too long is refused.
const INPUT_LIMIT: u64 = 1_099_511_627_776;

/// What one frame came to.
#[derive(Clone, Copy, Debug, PartialEq, Eq)]
enum Turn {
    /// It was taken, and what was due was put out.
    Frame,
    /// The capture ended, or the run must end.
    Stop(Ending),
}

/// A capture that is read, and the receiver that takes its frames.
#[derive(Drop)]
struct Capture {
    frames: Frames,
    receiver: Receiver,
}

/// Reads a capture to its end, and puts out each packet of the stream that is picked as soon as it
/// is due; at the end those that are still held, and what the sink puts out then. The sink is new:
/// nothing was put. The receiver's memory is taken before the first read: `NoMemory` comes only
/// there. The input is refused where it ends inside a frame or passes 1,099,511,627,776 bytes.
pub fn receive_capture<S: Sink, D: Duct>(
    alloc: Global,
    pick: Pick,
    sink: &mut S,
    out: &mut D,
) -> Ending
    requires some { 1 ≤ pick.window }
    requires few { pick.window ≤ 16384 }
    requires none { S.HasPut sink.old [] }
    ensures { (es : List Event)
        × Performs (receiving_job S.made (pick_of pick)) (D.meaning out.old) (D.meaning out.new)
        result es }
{
    let Ok(receiver) = Receiver::new(alloc, pick) else {
        return Ending::NoMemory;
    };
    let frames = Frames::new();
    let mut capture = Capture { frames, receiver };
    let mut buf = [0u8; 9000];
    loop {
        match take_turn(&mut capture, sink, out, &mut buf) {
            Turn::Frame => {}
            Turn::Stop(ending) => return ending,
        }
    }
}

/// Reads one frame and takes it; at the capture's end puts out what is left.
fn take_turn<S: Sink, D: Duct>(
    capture: &mut Capture,
    sink: &mut S,
    out: &mut D,
    buf: &mut [u8; 9000],
) -> Turn
    requires live { capture.old.frames.live ≡ true }
    requires ready { IsReady capture.old.receiver }
    requires few { counted capture.old.receiver.rules < 2 ^ 63 }
    requires stands { (xs : List Release) × Stands (S.HasPut sink.old) capture.old.receiver xs }
    ensures turns { (xs : List Release) → Stands (S.HasPut sink.old) capture.old.receiver xs
        → (es : List Event)
        × Turns S.so_far S.made (S.HasPut sink.new) xs capture.old.receiver capture.new.receiver capture.old.frames capture.new.frames
        (D.meaning out.old) (D.meaning out.new) result es }
    ensures pick { capture.new.receiver.pick ≡ capture.old.receiver.pick }
{
    match capture.frames.next(out, buf) {
        FrameOut::Whole(len) => {
            let frame = &buf[..len];
            are_bytes(frame);
            match take(&mut capture.receiver, sink, out, frame) {
                PutOut::Done => Turn::Frame,
                PutOut::WriteFault => Turn::Stop(Ending::WriteFault),
            }
        }
        FrameOut::Empty => {
            capture.receiver.refuse();
            Turn::Frame
        }
        FrameOut::Oversize(_) => {
            capture.receiver.refuse();
            Turn::Frame
        }
        FrameOut::End => match finish(&mut capture.receiver, sink, out) {
            PutOut::Done => Turn::Stop(Ending::Done),
            PutOut::WriteFault => Turn::Stop(Ending::WriteFault),
        },
        FrameOut::Cut(at) => Turn::Stop(refused(at, Reason::CutFrame)),
        FrameOut::TooLong => Turn::Stop(refused(INPUT_LIMIT, Reason::InputTooLong)),
        FrameOut::ReadFault => Turn::Stop(Ending::ReadFault),
    }
}

/// The ending of a run whose input is refused here.
fn refused(at: u64, reason: Reason) -> Ending
    ensures { result ≡ Ending.Refused (record { at = at; reason = reason }) }
{
    Ending::Refused(Refusal { at, reason })
}
