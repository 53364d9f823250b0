//! The receivers of a relay, flushed one after another.
ghost use Rattle.std.specs.Prelude.{◌≤◌, length};
ghost use Rattle.thinning_relay.specs.Numbered.{AreNumbered};
ghost use Rattle.thinning_relay.specs.Flushing.{FlushesAll};

use crate::receiver::Receiver;
use scl_outside::Outside;

/// Flushes each receiver once, in their order. Answers whether a datagram was sent or failed.
pub fn flush_all<O: Outside>(receivers: &mut [Receiver], out: &mut O) -> bool
    requires numbered { AreNumbered receivers.old }
    requires peers { length receivers.old ≤ (O.meaning out.old).wire.peers }
    ensures { FlushesAll receivers.old result receivers.new (O.meaning out.old) (O.meaning out.new) }
{
    let mut moved = false;
    for j in 0..receivers.len() {
        let receiver = &mut receivers[j];
        if receiver.flush(out) {
            moved = true;
        }
    }
    moved
}
