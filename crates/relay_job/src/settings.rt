//! What the words of a relay ask for.
ghost use Rattle.std.specs.Prelude.{◌≡◌, ◌≤◌, ◌<◌, ◌++◌, [], ◌∷◌, length, slice_get, Some};

use arrayvec::{ArrayString, ArrayVec};
use std::marker::Model;
use thinning_relay::Peer;

/// What is held of one receiver.
#[derive(Clone, Copy, Default, Drop)]
pub struct Held {
    address: ArrayString<64>,
    limit: u8,
    depth: u16,
}

/// The most datagrams that a relay takes, the number of idle turns in a row that it ends after, its local
/// address, and its receivers: at most 64, each with an address of at most 64 bytes.
#[derive(Drop)]
pub struct Settings {
    max: u32,
    idle: u32,
    local: ArrayString<64>,
    held: ArrayVec<Held, 64>,
}

impl Model for Settings {
    ghost use Rattle.relay_job.specs.Settings as values;
    ghost use Rattle.relay_job.specs.Held.{targets_of};

    ghost Value = { values.Settings };

    ghost view = { λ s. record {
      max = s.max;
      idle = s.idle;
      local = s.local.bytes;
      targets = targets_of s.held.items;
    } };
}

impl Settings {
    ghost use Rattle.relay_job.specs.Settings.{Target};

    /// The settings of a relay without receivers.
    pub fn new(max: u32, idle: u32, local: &str) -> Settings
        requires { length local.now ≤ 64 }
        ensures { result ≡ record { max = max; idle = idle; local = local.now; targets = [] } }
    {
        let mut text = ArrayString::new();
        text.push_str(local);
        Settings {
            max,
            idle,
            local: text,
            held: ArrayVec::new(),
        }
    }

    /// Adds a receiver after the others.
    pub fn add(&mut self, address: &str, limit: u8, depth: u16)
        requires room { length self.old.targets < 64 }
        requires short { length address.now ≤ 64 }
        ensures { self.new ≡ record self.old {
          targets = self.old.targets ++ record { address = address.now; limit = limit; depth = depth } ∷ [];
        } }
    {
        let mut text = ArrayString::new();
        text.push_str(address);
        self.held.push(Held {
            address: text,
            limit,
            depth,
        });
    }

    /// The most datagrams that are taken.
    pub fn max(&self) -> u32
        ensures { result ≡ self.now.max }
    {
        self.max
    }

    /// The number of idle turns in a row that it ends after.
    pub fn idle(&self) -> u32
        ensures { result ≡ self.now.idle }
    {
        self.idle
    }

    /// The local address.
    pub fn local(&self) -> &str
        ensures { result.now ≡ self.now.local }
    {
        self.local.as_str()
    }

    /// The number of receivers.
    pub fn count(&self) -> usize
        ensures { result ≡ length self.now.targets }
    {
        self.held.len()
    }

    /// The address of receiver `j`, which is below `count`.
    pub fn address(&self, j: usize) -> &str
        requires { j < length self.now.targets }
        ensures { (r : Target) → slice_get self.now.targets j ≡ Some r → result.now ≡ r.address }
    {
        self.held[j].address.as_str()
    }

    /// The limit and the depth of receiver `j`, which is below `count`.
    pub fn peer(&self, j: usize) -> Peer
        requires { j < length self.now.targets }
        ensures { (r : Target) → slice_get self.now.targets j ≡ Some r
            → result ≡ record { limit = r.limit; depth = r.depth } }
    {
        Peer {
            limit: self.held[j].limit,
            depth: self.held[j].depth,
        }
    }
}
