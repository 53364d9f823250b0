//! What the words of a sender ask for.
ghost use Rattle.std.specs.Prelude.{◌≡◌, ◌≤◌, length};
ghost use Rattle.stream_model.specs.Cut.{Plan};

use arrayvec::ArrayString;
use packetiser::PackPlan;
use std::marker::Model;

/// A plan for datagrams, the number of times in a row that the link to the peer isn't ready after which a datagram is
/// given up, the local address and the peer's, each of at most 64 bytes.
#[derive(Drop)]
pub struct Settings {
    pub(crate) plan: PackPlan,
    pub(crate) link: Link,
}

/// The number of times in a row that a link isn't ready after which a datagram is given up, and two addresses.
#[derive(Drop)]
pub struct Link {
    idle: u32,
    local: ArrayString<64>,
    peer: ArrayString<64>,
}

impl Model for Settings {
    ghost use Rattle.send_job.specs.Settings as values;

    ghost Value = { values.Settings };

    ghost view = { λ s. record {
      plan = s.plan;
      idle = s.link.idle;
      local = s.link.local.bytes;
      peer = s.link.peer.bytes;
    } };
}

impl Settings {
    /// The settings of a sender.
    pub fn new(plan: PackPlan, idle: u32, local: &str, peer: &str) -> Settings
        requires local { length local.now ≤ 64 }
        requires peer { length peer.now ≤ 64 }
        ensures { result ≡ record { plan = plan; idle = idle; local = local.now; peer = peer.now } }
    {
        let mut local_text = ArrayString::new();
        local_text.push_str(local);
        let mut peer_text = ArrayString::new();
        peer_text.push_str(peer);
        Settings {
            plan,
            link: Link {
                idle,
                local: local_text,
                peer: peer_text,
            },
        }
    }
}

impl Link {
    /// The number of times in a row that the link isn't ready after which a datagram is given up.
    pub fn idle(&self) -> u32
        ensures { result ≡ self.now.idle }
    {
        self.idle
    }

    /// The local address.
    pub fn local(&self) -> &str
        ensures { result.now ≡ self.now.local.bytes }
    {
        self.local.as_str()
    }

    /// The peer's address.
    pub fn peer(&self) -> &str
        ensures { result.now ≡ self.now.peer.bytes }
    {
        self.peer.as_str()
    }
}
