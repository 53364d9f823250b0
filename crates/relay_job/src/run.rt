//! `relay`: datagrams that come in, passed on to each of several receivers.
ghost use Rattle.std.specs.Prelude.{◌≡◌, ◌≤◌, List, length, IfOk, map};
ghost use Rattle.scl_outside.specs.Events.{Event};
ghost use Rattle.scl_run.specs.Performing.{Performs};
ghost use Rattle.thinning_relay.specs.Relaying.{IsNewRelay, receivers_of};
ghost use Rattle.relay_job.specs.Settings.{AreSettings};
ghost use Rattle.relay_job.specs.Held.{peers_of};
ghost use Rattle.relay_job.specs.Job.{relay_job};
ghost use Rattle.relay_job.specs.Ending.{Finishes};

use crate::draining::drain;
use crate::lines::lines_of;
use crate::naming::name_all;
use crate::serving::{End, serve};
use crate::settings::Settings;
use scl_outside::{BindOut, Outside, WriteOut};
use scl_run::Ending;
use std::alloc::{AllocError, Global};
use thinning_relay::Relay;

/// Binds the local address and joins each receiver's, passes on what comes until an end comes, flushes what is left
/// as long as that helps, and writes the lines of what was done. `WireFault` where an address couldn't be named or a
/// call for a datagram failed; `NoMemory` before anything was written.
pub fn relay<O: Outside>(alloc: Global, settings: &Settings, out: &mut O) -> Ending
    requires peers { (O.meaning out.old).wire.peers ≡ 0 }
    requires settings { AreSettings settings.now }
    ensures { (es : List Event)
        × Performs (relay_job settings.now) (O.meaning out.old) (O.meaning out.new) result es }
{
    let Ok(mut relay) = relay_for(alloc, settings) else {
        return Ending::NoMemory;
    };
    match name_all(settings, out) {
        BindOut::Bound => {}
        BindOut::Failed => return Ending::WireFault,
    }
    match serve(&mut relay, settings, out) {
        Ok(end) => finish(&mut relay, settings, end, out),
        Err(ending) => ending,
    }
}

/// A relay with a receiver for each of the settings.
fn relay_for(alloc: Global, settings: &Settings) -> Result<Relay, AllocError>
    requires { AreSettings settings.now }
    ensures { IfOk result (λ r. IsNewRelay (peers_of settings.now.targets) r) }
{
    let mut peers = Vec::with_capacity(alloc, settings.count())?;
    for j in 0..settings.count() {
        peers.push(settings.peer(j))?;
    }
    Relay::new(alloc, peers.as_slice())
}

/// Flushes what is left, and writes the lines of a relay whose turns had this end.
fn finish<O: Outside>(relay: &mut Relay, settings: &Settings, end: End, out: &mut O) -> Ending
    requires peers { length (receivers_of relay.old) ≤ (O.meaning out.old).wire.peers }
    requires count { length settings.now.targets ≡ length (receivers_of relay.old) }
    requires few { length settings.now.targets ≤ 64 }
    ensures { Finishes settings.now relay.old end result (O.meaning out.old) (O.meaning out.new) }
{
    drain(relay, settings.count(), settings.idle(), out);
    match out.write(lines_of(relay, settings.count(), end).as_bytes()) {
        WriteOut::Done => Ending::Done,
        WriteOut::Failed => Ending::WriteFault,
    }
}
