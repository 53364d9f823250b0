//! The turns of a relay, until an end comes.
ghost use Rattle.std.specs.Prelude.{◌≡◌, ◌≤◌, ◌<◌, ◌+◌, length};
ghost use Rattle.thinning_relay.specs.Relaying.{receivers_of};
ghost use Rattle.relay_job.specs.Serving.{IsRound, Rounds, Serves};

use crate::settings::Settings;
use scl_outside::Outside;
use scl_run::Ending;
use thinning_relay::{Relay, Turn};

/// Why the turns of a relay ended.
#[derive(Clone, Copy, Debug, PartialEq, Eq)]
pub enum End {
    /// No datagram will come.
    Closed,
    /// The most datagrams that are taken came.
    Max,
    /// Nothing came, went out or failed for too long.
    Idle,
}

/// What follows a turn.
#[derive(Clone, Copy, Debug, PartialEq, Eq)]
enum Round {
    /// Another turn, after this number of idle turns in a row.
    On(u32),
    /// The turns have ended.
    Over(End),
    /// The run must end.
    Stop(Ending),
}

/// Takes turns until an end comes. The error is the ending of a run that must end before: `WireFault` where a call
/// for a datagram failed, `NoMemory` where a datagram that came found no memory.
pub fn serve<O: Outside>(relay: &mut Relay, settings: &Settings, out: &mut O) -> Result<End, Ending>
    requires peers { length (receivers_of relay.old) ≤ (O.meaning out.old).wire.peers }
    requires few { relay.old.received < settings.now.max }
    requires most { settings.now.max ≤ 8388607 }
    requires idles { 1 ≤ settings.now.idle }
    requires small { settings.now.idle ≤ 4294967295 }
    ensures serves { Serves settings.now relay.old result relay.new (O.meaning out.old) (O.meaning out.new) }
    ensures count { length (receivers_of relay.new) ≡ length (receivers_of relay.old) }
    ensures peers { (O.meaning out.new).wire.peers ≡ (O.meaning out.old).wire.peers }
{
    let mut idle = 0;
    loop {
        match take_turn(relay, settings, idle, out) {
            Round::On(count) => idle = count,
            Round::Over(end) => return Ok(end),
            Round::Stop(ending) => return Err(ending),
        }
    }
}

/// Takes one turn, after this number of idle turns in a row.
fn take_turn<O: Outside>(relay: &mut Relay, settings: &Settings, idle: u32, out: &mut O) -> Round
    requires peers { length (receivers_of relay.old) ≤ (O.meaning out.old).wire.peers }
    requires busy { idle < settings.now.idle }
    requires small { settings.now.idle ≤ 4294967295 }
    ensures { Rounds settings.now relay.old idle result relay.new (O.meaning out.old) (O.meaning out.new) }
{
    match relay.turn(out) {
        Turn::NoMemory => Round::Stop(Ending::NoMemory),
        Turn::Failed => Round::Stop(Ending::WireFault),
        Turn::Ended => Round::Over(End::Closed),
        Turn::Moved => round_after(relay.received(), settings, 0),
        Turn::Idle => round_after(relay.received(), settings, idle + 1),
    }
}

/// What follows a turn after which this number of datagrams came and the last turns, in this number, were idle.
fn round_after(received: u64, settings: &Settings, idle: u32) -> Round
    ensures { IsRound settings.now received idle result }
{
    if received >= u64::from(settings.max()) {
        return Round::Over(End::Max);
    }
    if idle >= settings.idle() {
        return Round::Over(End::Idle);
    }
    Round::On(idle)
}
