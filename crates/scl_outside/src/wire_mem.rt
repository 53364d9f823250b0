//! A wire in memory: a way in, links and addresses, which tell all they do as long as it fits their records.
ghost use Rattle.std.specs.Prelude.{◌≡◌, ◌<◌, ◌↔◌, [], length, slice_get, IfOk, IfSome, IsTrue, IsSome, Some};
ghost use Rattle.scl_outside.specs.Record.{room_of};
ghost use Rattle.scl_outside.specs.Texts.{texts_of, kept_texts, texts_room};
ghost use Rattle.scl_outside.specs.Steps.{WireStep};
ghost use Rattle.scl_outside.specs.Events.{Bound, Joined, Offered, Received};
ghost use Rattle.scl_outside.specs.Inbound.{IsCount};
ghost use Rattle.scl_outside.specs.Inbox.{recv_fails};
ghost use Rattle.scl_outside.specs.WireAnswers.{FitsDatagram, is_bound, answer_of, parcel};

use crate::addresses::Addresses;
use crate::inbox::{Inbound, Inbox};
use crate::links::{LinkPlan, Links};
use crate::{BindOut, RecvOut, SendOut};
use std::alloc::{AllocError, Global};

/// Whether a call for a datagram failed.
fn recv_fails(out: RecvOut) -> bool
    ensures { result ≡ recv_fails out }
{
    match out {
        RecvOut::Failed => true,
        RecvOut::Got(_) | RecvOut::NotReady | RecvOut::Closed => false,
    }
}

/// Whether a call named an address.
fn is_bound(out: BindOut) -> bool
    ensures { result ≡ is_bound out }
{
    match out {
        BindOut::Bound => true,
        BindOut::Failed => false,
    }
}

/// A way in, links to peers, addresses, and the number of calls that failed, those to peers left out.
#[derive(Drop)]
pub struct WireMem {
    inbox: Inbox,
    links: Links,
    addresses: Addresses,
    faults: u64,
}

impl WireMem {
    ghost use Rattle.scl_outside.specs.Inbox.{entries_left, next_reception, received_of};
    ghost use Rattle.scl_outside.specs.WireMemory.{wire_of, ReceivesInMemory, SendsInMemory, BindsInMemory, JoinsInMemory, StartsWire, PlansWire, CountsFault, TellsWire};

    /// A wire on which nothing comes in, every link sends, and the calls with these numbers fail to name an
    /// address; where `never_fails`, planned failures are read as not ready. Each record has room for
    /// `room` items, and those of datagrams and texts for `room` bytes too. `AllocError` where memory ran
    /// out.
    pub fn new(
        alloc: Global,
        bad_binds: &[u64],
        never_fails: bool,
        room: usize,
    ) -> Result<WireMem, AllocError>
        ensures { IfOk result (λ w. StartsWire bad_binds.now never_fails room w) }
    {
        Ok(WireMem {
            inbox: Inbox::new(alloc, never_fails, room)?,
            links: Links::new(alloc, never_fails, room)?,
            addresses: Addresses::new(alloc, bad_binds, room)?,
            faults: 0,
        })
    }

    /// Plans what comes in and what the links answer, and forgets all that was there.
    pub fn plan(&mut self, inbound: Vec<Inbound>, links: Vec<LinkPlan>)
        ensures { PlansWire self.old inbound.items links.items self.new }
    {
        self.inbox.plan(inbound);
        self.links.plan(links);
        self.addresses.clear();
        self.faults = 0;
    }

    /// Gives the next datagram.
    pub fn recv(&mut self, buf: &mut [u8]) -> RecvOut
        ensures fits { FitsDatagram result (length buf.old) }
        ensures step { WireStep (wire_of self.old)
            (Received (next_reception self.old.inbox)) (wire_of self.new) }
        ensures memory { ReceivesInMemory self.old result buf.new self.new }
    {
        let out = self.inbox.recv(buf);
        self.count(recv_fails(out));
        out
    }

    /// Sends a datagram to a peer.
    pub fn send(&mut self, peer: usize, bytes: &[u8]) -> SendOut
        requires { peer < self.old.addresses.peers }
        ensures step { WireStep (wire_of self.old)
            (Offered (parcel peer bytes.now) (answer_of result)) (wire_of self.new) }
        ensures memory { SendsInMemory self.old peer bytes.now result self.new }
    {
        self.links.send(peer, bytes)
    }

    /// Names the local address.
    pub fn bind(&mut self, local: &str) -> BindOut
        ensures step { WireStep (wire_of self.old) (Bound local.now (is_bound result)) (wire_of self.new) }
        ensures memory { BindsInMemory self.old local.now result self.new }
    {
        let out = self.addresses.bind(local);
        self.count(!is_bound(out));
        out
    }

    /// Adds a peer.
    pub fn join(&mut self, peer: &str) -> BindOut
        requires { self.old.addresses.peers < 64 }
        ensures step { WireStep (wire_of self.old) (Joined peer.now (is_bound result)) (wire_of self.new) }
        ensures memory { JoinsInMemory self.old peer.now result self.new }
    {
        let out = self.addresses.join(peer);
        self.count(!is_bound(out));
        out
    }

    /// Counts a failure.
    fn count(&mut self, failed: bool)
        ensures { CountsFault self.old failed self.new }
    {
        if failed {
            self.faults = self.faults.saturating_add(1);
        }
    }

    /// Whether all that was received, sent, answered and named fitted its record.
    pub fn told(&self) -> bool
        ensures { IsTrue result ↔ TellsWire (wire_of self.now) }
    {
        self.inbox.told() && self.links.told() && self.addresses.told()
    }

    /// The number of datagrams that were received, where the answers are told.
    pub fn received_count(&self) -> usize
        ensures { IsCount result (wire_of self.now).received }
    {
        self.inbox.arrived()
    }

    /// The number of datagrams in the record of those sent.
    pub fn sent_count(&self) -> usize
        ensures kept { result ≡ length (kept_texts self.now.links.sent) }
        ensures told { IfSome (wire_of self.now).sent (λ parcels. result ≡ length parcels) }
    {
        self.links.sent_count()
    }

    /// The peer and the bytes of a datagram in the record of those sent, counted from 0 in order of sending.
    pub fn sent(&self, index: usize) -> (usize, &[u8])
        requires { index < length (kept_texts self.now.links.sent) }
        ensures { slice_get (kept_texts self.now.links.sent) index ≡ Some (parcel result.0 result.1.now) }
    {
        self.links.sent(index)
    }

    /// The number of peers.
    pub fn peers(&self) -> usize
        ensures { result ≡ self.now.addresses.peers }
    {
        self.addresses.peers()
    }
}
