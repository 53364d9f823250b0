//! `recv`: datagrams that come, reported.
ghost use Rattle.std.specs.Prelude.{◌≡◌, ◌≤◌, List, IfOk};
ghost use Rattle.scl_outside.specs.Events.{Event};
ghost use Rattle.scl_run.specs.Performing.{Performs};
ghost use Rattle.recv_job.specs.Job.{recv_job};
ghost use Rattle.recv_job.specs.Settings.{AreSettings};
ghost use Rattle.recv_job.specs.Turns.{IsNew, ending_of};

use crate::link::{Link, Turn, take_turn, write_end};
use crate::settings::Settings;
use polled_datagrams::RecvFuture;
use scl_outside::{BindOut, Outside, PutOut};
use scl_run::Ending;
use std::alloc::{AllocError, Global};
use stream_receiver::Receiver;

/// Binds the local address, and takes datagrams of the stream that is picked until an end comes. It
/// writes the lines of each precinct as soon as it is due, and at the end those of what is still
/// held, the END line and its own line. `WireFault` where the address couldn't be had or a call for a
/// datagram failed. All memory is taken before anything else: `NoMemory` comes only there.
pub fn recv<O: Outside>(alloc: Global, settings: &Settings, out: &mut O) -> Ending
    requires { AreSettings settings.now }
    ensures { (es : List Event)
        × Performs (recv_job settings.now) (O.meaning out.old) (O.meaning out.new) result es }
{
    let Ok(mut link) = new_link(alloc, settings) else {
        return Ending::NoMemory;
    };
    match out.bind(settings.local()) {
        BindOut::Bound => {}
        BindOut::Failed => return Ending::WireFault,
    }
    loop {
        match take_turn(&mut link, settings, out) {
            Turn::On => {}
            Turn::Over(why) => return ending_of(write_end(&mut link, why, out)),
            Turn::Stop(ending) => return ending,
        }
    }
}

/// A receiver to which nothing came.
fn new_link(alloc: Global, settings: &Settings) -> Result<Link, AllocError>
    requires some { 1 ≤ settings.now.pick.window }
    requires few { settings.now.pick.window ≤ 16384 }
    ensures { IfOk result (IsNew settings.now) }
{
    let receiver = Receiver::new(alloc, settings.pick())?;
    let datagram = RecvFuture::new(alloc)?;
    Ok(Link {
        receiver,
        datagram,
        came: 0,
        idle: 0,
    })
}

/// The ending of a run by what became of its last lines.
fn ending_of(put: PutOut) -> Ending
    ensures { result ≡ ending_of put }
{
    match put {
        PutOut::Done => Ending::Done,
        PutOut::WriteFault => Ending::WriteFault,
    }
}
