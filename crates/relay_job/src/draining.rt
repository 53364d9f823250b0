//! The flushes of a relay once its turns have ended.
ghost use Rattle.std.specs.Prelude.{◌≡◌, ◌≤◌, ◌+◌, true, length, if◌then◌else◌};
ghost use Rattle.thinning_relay.specs.Relaying.{receivers_of};
ghost use Rattle.relay_job.specs.Draining.{AreEmpty, Drains};

use scl_outside::Outside;
use thinning_relay::Relay;

/// Flushes the queues of this number of receivers until all are empty, or until flushes in a row, in the number
/// `limit`, moved nothing.
pub fn drain<O: Outside>(relay: &mut Relay, count: usize, limit: u32, out: &mut O)
    requires peers { length (receivers_of relay.old) ≤ (O.meaning out.old).wire.peers }
    requires count { count ≡ length (receivers_of relay.old) }
    ensures { Drains limit relay.old relay.new (O.meaning out.old) (O.meaning out.new) }
{
    let mut idle = 0;
    while idle < limit {
        if are_empty(relay, count) {
            return;
        }
        idle = after_flush(idle, relay.flush(out));
    }
}

/// Whether the queues of all receivers, of which there are this number, are empty.
fn are_empty(relay: &Relay, count: usize) -> bool
    requires { count ≡ length (receivers_of relay.now) }
    ensures { result ≡ true → AreEmpty (receivers_of relay.now) }
{
    for j in 0..count {
        if relay.queued(j) > 0 {
            return false;
        }
    }
    true
}

/// The number of flushes in a row that moved nothing, after one more.
fn after_flush(idle: u32, moved: bool) -> u32
    requires { idle + 1 ≤ 4294967295 }
    ensures { result ≡ (if moved then 0 else idle + 1) }
{
    if moved { 0 } else { idle + 1 }
}
