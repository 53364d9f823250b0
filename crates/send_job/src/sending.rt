//! Codestreams that are sent: each datagram goes out as soon as the bytes read fix it.
ghost use Rattle.std.specs.Prelude.{◌≡◌, ◌≤◌, [], List};
ghost use Rattle.packetiser.specs.Sending.{Sender};
ghost use Rattle.scl_outside.specs.Events.{Event};
ghost use Rattle.scl_run.specs.Performing.{Performs};
ghost use Rattle.send_job.specs.Settings.{AreSettings};
ghost use Rattle.send_job.specs.Linked.{settings_with};
ghost use Rattle.send_job.specs.Offering.{total};
ghost use Rattle.send_job.specs.Sending.{Finishes};
ghost use Rattle.send_job.specs.Job.{send_job};

use crate::counts::{Counts, line_of};
use crate::naming::name;
use crate::offering::offer;
use crate::settings::{Link, Settings};
use packetiser::{PackOut, Packetiser};
use parse_job::refusal_of;
use scl_outside::{BindOut, Outside, WriteOut};
use scl_run::{Ending, Reason, Refusal};
use sender_model::{datagram_is_told, sending_is_told};
use std::alloc::Global;

/// Binds the local address and joins the peer's, reads codestreams, one after another, to the end of the input, and
/// sends the datagrams that the plan makes of them to the peer, each as soon as the bytes read fix it. A datagram is
/// offered until it goes out or fails, and is lost where the link isn't ready as often in a row as the settings say. At
/// the end of the input the SEND line is written. `WireFault` where an address couldn't be named; `NoMemory` only
/// before anything else is done.
pub fn send<O: Outside>(alloc: Global, settings: Settings, out: &mut O) -> Ending
    requires peers { (O.meaning out.old).wire.peers ≡ 0 }
    requires settings { AreSettings settings }
    ensures { (es : List Event)
        × Performs (send_job settings) (O.meaning out.old) (O.meaning out.new) result es }
{
    let Settings { plan, link } = settings;
    match Packetiser::new(alloc, plan) {
        Ok(mut sender) => send_over(&mut sender, &link, out),
        Err(_) => Ending::NoMemory,
    }
}

/// Names the addresses, and sends the datagrams of an input from its start on.
fn send_over<O: Outside>(sender: &mut Packetiser, link: &Link, out: &mut O) -> Ending
    requires peers { (O.meaning out.old).wire.peers ≡ 0 }
    requires sender { Sender sender.old.plan [] [] sender.old }
    requires idle { 1 ≤ link.now.idle }
    ensures { (es : List Event) × Performs (send_job (settings_with sender.old.plan link.now))
        (O.meaning out.old) (O.meaning out.new) result es }
{
    datagram_is_told();
    sending_is_told();
    let mut counts = Counts::new();
    match name(link, out) {
        BindOut::Bound => {}
        BindOut::Failed => return Ending::WireFault,
    }
    loop {
        match sender.step(out) {
            PackOut::Datagram => {
                let fate = offer(sender.bytes(), link.idle(), out);
                counts.count(fate);
            }
            PackOut::End => return finish(&counts, out),
            PackOut::Refused(fault) => return Ending::Refused(refusal_of(fault)),
            PackOut::HeaderTooLong(at) => {
                return refused(at, Reason::HeaderTooLong);
            }
            PackOut::TooManyDatagrams(at) => {
                return refused(at, Reason::TooManyDatagrams);
            }
            PackOut::ReadFault => return Ending::ReadFault,
        }
    }
}

/// Writes the line of a sender with these counts.
fn finish<O: Outside>(counts: &Counts, out: &mut O) -> Ending
    requires { total counts.now ≤ 8388607 }
    ensures { Finishes counts.now result (O.meaning out.old) (O.meaning out.new) }
{
    match out.write(line_of(counts).as_bytes()) {
        WriteOut::Done => Ending::Done,
        WriteOut::Failed => Ending::WriteFault,
    }
}

/// The input is refused at this offset.
fn refused(at: u64, reason: Reason) -> Ending
    ensures { result ≡ Ending.Refused (record { at = at; reason = reason }) }
{
    Ending::Refused(Refusal { at, reason })
}
