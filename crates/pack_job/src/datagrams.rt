//! The datagrams of an input of codestreams, each written as a frame as soon as the bytes read fix it.
ghost use Rattle.std.specs.Prelude.{◌≡◌, ◌≤◌, List, []};
ghost use Rattle.stream_model.specs.Cut.{Plan};
ghost use Rattle.scl_outside.specs.Events.{Event};
ghost use Rattle.scl_run.specs.Performing.{Performs};
ghost use Rattle.packetiser.specs.Sending.{Sender};
ghost use Rattle.pack_job.specs.PackJob.{pack_job};

use capture_frames::put_frame;
use packetiser::{PackOut, PackPlan, Packetiser};
use parse_job::refusal_of;
use scl_outside::{Duct, PutOut};
use scl_run::{Ending, Reason, Refusal};
use std::alloc::Global;

/// Reads codestreams, one after another, to the end of the input, and writes the datagrams that `plan` makes of them as
/// the frames of a capture (RFC 4571), each as soon as the bytes read fix it. `NoMemory` comes only before anything is
/// read.
pub fn pack<D: Duct>(alloc: Global, plan: PackPlan, out: &mut D) -> Ending
    ensures { (es : List Event)
        × Performs (pack_job plan) (D.meaning out.old) (D.meaning out.new) result es }
{
    match Packetiser::new(alloc, plan) {
        Ok(mut sender) => write_datagrams(&mut sender, out),
        Err(_) => Ending::NoMemory,
    }
}

/// Writes the datagrams of an input from its start on.
fn write_datagrams<D: Duct>(sender: &mut Packetiser, out: &mut D) -> Ending
    requires { Sender sender.old.plan [] [] sender.old }
    ensures { (es : List Event)
        × Performs (pack_job sender.old.plan) (D.meaning out.old) (D.meaning out.new) result es }
{
    loop {
        match sender.step(out) {
            PackOut::Datagram => match put_frame(out, sender.bytes()) {
                PutOut::Done => {}
                PutOut::WriteFault => return Ending::WriteFault,
            },
            PackOut::End => return Ending::Done,
            PackOut::Refused(fault) => return Ending::Refused(refusal_of(fault)),
            PackOut::HeaderTooLong(at) => {
                return refused(at, Reason::HeaderTooLong);
            }
            PackOut::TooManyDatagrams(at) => {
                return refused(at, Reason::TooManyDatagrams);
            }
            PackOut::ReadFault => return Ending::ReadFault,
        }
    }
}

/// The input is refused at this offset.
fn refused(at: u64, reason: Reason) -> Ending
    ensures { result ≡ Ending.Refused (record { at = at; reason = reason }) }
{
    Ending::Refused(Refusal { at, reason })
}
