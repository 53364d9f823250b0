//! The addresses of a wire in memory: which calls are to fail, and records of those that didn't.
ghost use Rattle.std.specs.Prelude.{◌≡◌, ◌≤◌, ◌<◌, ◌+◌, ◌-◌, ◌^◌, ◌↔◌, [], Contains, min, IfOk, IsTrue, IsSome, Some, true};
ghost use Rattle.scl_outside.specs.Texts.{texts_of, texts_room};

use crate::BindOut;
use crate::texts::Texts;
use std::alloc::{AllocError, Global};

/// The numbers of calls that are to fail, the number of the next call, and the addresses named so far.
#[derive(Drop)]
pub struct Addresses {
    bad: Vec<u64>,
    calls: u64,
    bound: Texts,
    joined: Texts,
    peers: usize,
    ghost few: { peers ≤ 64 },
}

impl Addresses {
    ghost use Rattle.scl_outside.specs.Addresses.{addresses_of, BindsNext, JoinsNext};

    /// No address yet. Calls are numbered from 0, those in `bad` fail, and each of the two records has room
    /// for `room` texts of together `room` bytes. `AllocError` where memory ran out.
    pub fn new(alloc: Global, bad: &[u64], room: usize) -> Result<Addresses, AllocError>
        ensures bad { IfOk result (λ a. a.bad.items ≡ bad.now) }
        ensures calls { IfOk result (λ a. a.calls ≡ 0) }
        ensures told { IfOk result (λ a. (addresses_of a.bound ≡ Some []) × (addresses_of a.joined ≡ Some [])) }
        ensures room { IfOk result (λ a. (texts_room a.bound ≡ room) × (texts_room a.joined ≡ room)) }
        ensures peers { IfOk result (λ a. a.peers ≡ 0) }
    {
        Ok(Addresses {
            bad: bad.to_vec(alloc)?,
            calls: 0,
            bound: Texts::new(alloc, room)?,
            joined: Texts::new(alloc, room)?,
            peers: 0,
        })
    }

    /// Forgets all addresses, and numbers the calls anew.
    pub fn clear(&mut self)
        ensures bad { self.new.bad ≡ self.old.bad }
        ensures calls { self.new.calls ≡ 0 }
        ensures told { (addresses_of self.new.bound ≡ Some []) × (addresses_of self.new.joined ≡ Some []) }
        ensures room_bound { texts_room self.new.bound ≡ texts_room self.old.bound }
        ensures room_joined { texts_room self.new.joined ≡ texts_room self.old.joined }
        ensures peers { self.new.peers ≡ 0 }
    {
        self.calls = 0;
        self.bound.clear();
        self.joined.clear();
        self.peers = 0;
    }

    /// Names the local address.
    pub fn bind(&mut self, local: &str) -> BindOut
        ensures { BindsNext self.old local.now result self.new }
    {
        if self.next_fails() {
            return BindOut::Failed;
        }
        self.bound.push(0, local.as_bytes());
        BindOut::Bound
    }

    /// Adds a peer, whose number is the number of peers before.
    pub fn join(&mut self, peer: &str) -> BindOut
        requires { self.old.peers < 64 }
        ensures { JoinsNext self.old peer.now result self.new }
    {
        if self.next_fails() {
            return BindOut::Failed;
        }
        self.joined.push(0, peer.as_bytes());
        self.peers += 1;
        BindOut::Bound
    }

    /// Whether the next call is to fail. It is numbered.
    fn next_fails(&mut self) -> bool
        ensures fails { (result ≡ true) ↔ Contains self.old.bad.items self.old.calls }
        ensures calls { self.new.calls ≡ min (self.old.calls + 1) (2 ^ 64 - 1) }
        ensures bad { self.new.bad ≡ self.old.bad }
        ensures bound { self.new.bound ≡ self.old.bound }
        ensures joined { self.new.joined ≡ self.old.joined }
        ensures peers { self.new.peers ≡ self.old.peers }
    {
        let number = self.calls;
        self.calls = number.saturating_add(1);
        self.bad.contains(&number)
    }

    /// Whether all addresses that were named are recorded.
    pub fn told(&self) -> bool
        ensures { IsTrue result ↔ (IsSome (addresses_of self.now.bound) × IsSome (addresses_of self.now.joined)) }
    {
        self.bound.told() && self.joined.told()
    }

    /// The number of peers.
    pub fn peers(&self) -> usize
        ensures { result ≡ self.now.peers }
    {
        self.peers
    }
}
