//! What a receiver gives, put out: after each frame, and at the end.
ghost use Rattle.std.specs.Prelude.{◌≡◌, ◌<◌, ◌^◌, ◌++◌, List, []};
ghost use Rattle.stream_model.specs.Decoder.{Release};
ghost use Rattle.stream_model.specs.Receiver.{take_frame, flushed};
ghost use Rattle.scl_outside.specs.Events.{Event};
ghost use Rattle.stream_receiver.specs.States.{counted, rest};
ghost use Rattle.receiving_job.specs.Sinks.{AreFirst};
ghost use Rattle.receiving_job.specs.Giving.{IsReady, Stands, Gives, Ends};

use crate::sink::Sink;
use scl_outside::{Duct, PutOut, are_bytes};
use stream_receiver::{Receiver, Stepped, Taken};

/// Takes a frame, and puts out each packet that is due then.
pub fn take<S: Sink, D: Duct>(
    receiver: &mut Receiver,
    sink: &mut S,
    out: &mut D,
    frame: &[u8],
) -> PutOut
    requires ready { IsReady receiver.old }
    requires few { counted receiver.old.rules < 2 ^ 63 }
    requires stands { (xs : List Release) × Stands (S.HasPut sink.old) receiver.old xs }
    ensures takes { (xs : List Release) → Stands (S.HasPut sink.old) receiver.old xs
        → (es : List Event)
        × Gives S.so_far (S.HasPut sink.new) xs (take_frame receiver.old.pick receiver.old.rules frame.now) result
        receiver.new (D.meaning out.old) (D.meaning out.new) es }
    ensures pick { receiver.new.pick ≡ receiver.old.pick }
{
    are_bytes(frame);
    match receiver.offer(frame) {
        Taken::Kept => give(receiver, sink, out),
        Taken::Old => PutOut::Done,
        Taken::Refused(_) => PutOut::Done,
        Taken::Drain => {
            match give(receiver, sink, out) {
                PutOut::Done => {}
                PutOut::WriteFault => return PutOut::WriteFault,
            }
            // the window keeps it now
            let _ = receiver.offer(frame);
            give(receiver, sink, out)
        }
    }
}

/// Puts out what the receiver still holds.
pub fn give_rest<S: Sink, D: Duct>(receiver: &mut Receiver, sink: &mut S, out: &mut D) -> PutOut
    requires ready { IsReady receiver.old }
    requires few { counted receiver.old.rules < 2 ^ 63 }
    requires stands { (xs : List Release) × Stands (S.HasPut sink.old) receiver.old xs }
    ensures gives { (xs : List Release) → Stands (S.HasPut sink.old) receiver.old xs
        → (es : List Event)
        × Gives S.so_far (S.HasPut sink.new) xs (flushed receiver.old.rules) result receiver.new
        (D.meaning out.old) (D.meaning out.new) es }
    ensures pick { receiver.new.pick ≡ receiver.old.pick }
{
    receiver.flush();
    give(receiver, sink, out)
}

/// Puts out what the receiver still holds, and what the sink puts out at the end.
pub fn finish<S: Sink, D: Duct>(receiver: &mut Receiver, sink: &mut S, out: &mut D) -> PutOut
    requires ready { IsReady receiver.old }
    requires few { counted receiver.old.rules < 2 ^ 63 }
    requires stands { (xs : List Release) × Stands (S.HasPut sink.old) receiver.old xs }
    ensures ends { (xs : List Release) → Stands (S.HasPut sink.old) receiver.old xs
        → (es : List Event)
        × Ends S.so_far S.made xs receiver.old.rules (D.meaning out.old) (D.meaning out.new) result es }
    ensures pick { receiver.new.pick ≡ receiver.old.pick }
{
    match give_rest(receiver, sink, out) {
        PutOut::Done => {}
        PutOut::WriteFault => return PutOut::WriteFault,
    }
    sink.close(out, receiver)
}

/// Puts out each packet that the receiver can give.
fn give<S: Sink, D: Duct>(receiver: &mut Receiver, sink: &mut S, out: &mut D) -> PutOut
    requires fresh { receiver.old.rules.releases ≡ [] }
    requires first { (xs : List Release) × S.HasPut sink.old xs × AreFirst (xs ++ (rest receiver.old).releases) }
    ensures gives { (xs : List Release) → S.HasPut sink.old xs
        → (es : List Event)
        × Gives S.so_far (S.HasPut sink.new) xs (rest receiver.old) result receiver.new (D.meaning out.old) (D.meaning out.new) es }
    ensures pick { receiver.new.pick ≡ receiver.old.pick }
{
    loop {
        match receiver.step() {
            Stepped::Ready => match sink.put(out, receiver) {
                PutOut::Done => {}
                PutOut::WriteFault => return PutOut::WriteFault,
            },
            Stepped::Idle => return PutOut::Done,
        }
    }
}
