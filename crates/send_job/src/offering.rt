//! One datagram, offered to the peer.
ghost use Rattle.std.specs.Prelude.{◌≡◌, ◌≤◌, ◌<◌};
ghost use Rattle.send_job.specs.Offering.{Offers};

use scl_outside::{Outside, SendOut};

/// What became of a datagram.
#[derive(Clone, Copy, Debug, PartialEq, Eq)]
pub enum Fate {
    /// It went out.
    Sent,
    /// The link wasn't ready too often in a row.
    Lost,
    /// The call failed, and nothing went out.
    Failed,
}

/// Offers a datagram to the peer until it goes out, fails, or the link wasn't ready this number of times, at least 1.
pub fn offer<O: Outside>(datagram: &[u8], idle: u32, out: &mut O) -> Fate
    requires { 0 < (O.meaning out.old).wire.peers }
    ensures { Offers idle datagram.now result (O.meaning out.old) (O.meaning out.new) }
{
    let mut waited = 0;
    while waited < idle {
        match out.send(0, datagram) {
            SendOut::Sent => return Fate::Sent,
            SendOut::Failed => return Fate::Failed,
            SendOut::NotReady => waited += 1,
        }
    }
    Fate::Lost
}
