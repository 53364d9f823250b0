//! What the words of `recv` ask for.
ghost use Rattle.std.specs.Prelude.{◌≡◌, ◌≤◌, length};
ghost use Rattle.stream_receiver.specs.States.{pick_of};

use arrayvec::ArrayString;
use std::marker::Model;
use stream_receiver::Pick;

/// The stream that is picked, the most datagrams that are taken, the number of calls in a row without
/// a datagram that it ends after, and the local address, of at most 64 bytes.
#[derive(Drop)]
pub struct Settings {
    pick: Pick,
    max: u32,
    idle: u32,
    local: ArrayString<64>,
}

impl Model for Settings {
    ghost use Rattle.recv_job.specs.Settings as values;
    ghost use Rattle.stream_receiver.specs.States.{pick_of};

    ghost Value = { values.Settings };

    ghost view = { λ s. record {
      pick = pick_of s.pick;
      max = s.max;
      idle = s.idle;
      local = s.local.bytes;
    } };
}

impl Settings {
    /// These settings.
    pub fn new(pick: Pick, max: u32, idle: u32, local: &str) -> Settings
        requires { length local.now ≤ 64 }
        ensures { result ≡ record { pick = pick_of pick; max = max; idle = idle; local = local.now } }
    {
        let mut text = ArrayString::new();
        text.push_str(local);
        Settings {
            pick,
            max,
            idle,
            local: text,
        }
    }

    /// The stream that is picked.
    pub fn pick(&self) -> Pick
        ensures { pick_of result ≡ self.now.pick }
    {
        self.pick
    }

    /// The most datagrams that are taken.
    pub fn max(&self) -> u32
        ensures { result ≡ self.now.max }
    {
        self.max
    }

    /// The number of calls in a row without a datagram that it ends after.
    pub fn idle(&self) -> u32
        ensures { result ≡ self.now.idle }
    {
        self.idle
    }

    /// The local address.
    pub fn local(&self) -> &str
        ensures { result.now ≡ self.now.local }
    {
        self.local.as_str()
    }
}
