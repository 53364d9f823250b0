//! An outside in memory: a duct and a wire, which tell all they do as long as it fits the room of their
//! records.
ghost use Rattle.std.specs.Prelude.{◌≡◌, ◌≤◌, ◌<◌, ◌↔◌, false, length, slice_get, IfOk, IfSome, IsTrue, Some};
ghost use Rattle.scl_outside.specs.Answers.{FitsBuffer, Writes, read_event};
ghost use Rattle.scl_outside.specs.Events.{Noted};
ghost use Rattle.scl_outside.specs.Steps.{Step};
ghost use Rattle.scl_outside.specs.WireAnswers.{FitsDatagram, Receives, Binds, Joins, Sends, parcel};

use crate::wire_mem::WireMem;
use crate::{
    BindOut, Duct, DuctMem, Inbound, LinkPlan, Outside, ReadOut, RecvOut, SendOut, WriteOut,
    are_bytes,
};
use std::alloc::{AllocError, Global};

/// An outside whose input and wire are planned, and whose calls fail where they are told to.
#[derive(Drop)]
pub struct OutsideMem {
    pub(crate) duct: DuctMem,
    pub(crate) wire: WireMem,
}

impl OutsideMem {
    ghost use Rattle.scl_outside.specs.Inbound.{datagrams_in};
    ghost use Rattle.scl_outside.specs.WireMemory.{wire_of, fresh_wire, IsPlanned, HasRoom};
    ghost use Rattle.scl_outside.specs.Memory.{outside_meaning, meaning_of, kept_written, kept_noted, kept_sent, TellsAll, MarksOutside};

    /// An outside over a duct, which keeps all that it has and tells. Call `i` of `recv` gives entry `i` of
    /// `inbound`; after `Closed` it answers `Closed`, and after the last entry `NotReady`. The link of peer
    /// `j` answers as `links[j]` plans, and always sends where there is no plan. Calls of `bind` and `join`
    /// are numbered together from 0, and those in `bad_binds` fail. Each record of the wire has room for
    /// `room` items, at most 16,777,216, and those of datagrams and addresses for `room` bytes too.
    /// `AllocError` where memory ran out; no later call takes any.
    pub fn new(
        alloc: Global,
        duct: DuctMem,
        inbound: Vec<Inbound>,
        links: Vec<LinkPlan>,
        bad_binds: &[u64],
        room: usize,
    ) -> Result<OutsideMem, AllocError>
        requires room { room ≤ 16777216 }
        ensures duct { IfOk result (λ o. o.duct ≡ duct) }
        ensures wire { IfOk result (λ o. wire_of o.wire ≡ fresh_wire (datagrams_in inbound.items)) }
        ensures planned { IfOk result (λ o. IsPlanned inbound.items links.items bad_binds.now false o.wire) }
        ensures rooms { IfOk result (λ o. HasRoom o.wire room) }
    {
        let mut wire = WireMem::new(alloc, bad_binds, false, room)?;
        wire.plan(inbound, links);
        Ok(OutsideMem { duct, wire })
    }

    /// Whether all that was written, noted, marked, received, sent, answered and named fitted its record.
    pub fn told(&self) -> bool
        ensures { IsTrue result ↔ TellsAll (outside_meaning self.now) }
    {
        self.duct.told() && self.wire.told()
    }

    /// What was written, as far as it was kept.
    pub fn written(&self) -> &[u8]
        ensures kept { result.now ≡ kept_written self.now.duct }
        ensures told { IfSome (outside_meaning self.now).written (λ bytes. result.now ≡ bytes) }
    {
        self.duct.written()
    }

    /// What was noted, as far as it was kept.
    pub fn noted(&self) -> &[u8]
        ensures kept { result.now ≡ kept_noted self.now.duct }
        ensures told { IfSome (outside_meaning self.now).noted (λ bytes. result.now ≡ bytes) }
    {
        self.duct.noted()
    }

    /// The number of datagrams in the record of those sent.
    pub fn sent_count(&self) -> usize
        ensures kept { result ≡ length (kept_sent self.now) }
        ensures told { IfSome (outside_meaning self.now).wire.sent (λ parcels. result ≡ length parcels) }
    {
        self.wire.sent_count()
    }

    /// The peer and the bytes of datagram `i` in the record of those sent, counted from 0 in order of
    /// sending; `i` is below `sent_count`.
    pub fn sent(&self, i: usize) -> (usize, &[u8])
        requires { i < length (kept_sent self.now) }
        ensures { slice_get (kept_sent self.now) i ≡ Some (parcel result.0 result.1.now) }
    {
        self.wire.sent(i)
    }

    /// Marks how far the object is.
    fn mark(&mut self)
        ensures { MarksOutside self.old self.new }
    {
        let received = self.wire.received_count();
        let sent = self.wire.sent_count();
        self.duct.mark(received, sent);
    }
}

impl Duct for OutsideMem {
    ghost use Rattle.scl_outside.specs.Memory.{outside_meaning, ReadsInMemory, WritesInMemory, NotesInMemory};

    ghost meaning = { outside_meaning };

    fn read(&mut self, buf: &mut [u8]) -> ReadOut
        requires { 0 < length buf.old }
        ensures fits { FitsBuffer result (length buf.old) }
        ensures step { Step (outside_meaning self.old) (read_event result buf.new) (outside_meaning self.new) }
        ensures memory { ReadsInMemory self.old.duct result (length buf.old) self.new.duct }
        ensures wire { self.new.wire ≡ self.old.wire }
    {
        self.mark();
        let out = self.duct.take(buf);
        are_bytes(buf);
        out
    }

    fn write(&mut self, bytes: &[u8]) -> WriteOut
        ensures step { Writes (outside_meaning self.old) result bytes.now (outside_meaning self.new) }
        ensures memory { WritesInMemory self.old.duct result bytes.now self.new.duct }
        ensures wire { self.new.wire ≡ self.old.wire }
    {
        self.duct.write(bytes)
    }

    fn note(&mut self, line: &[u8])
        ensures step { Step (outside_meaning self.old) (Noted line.now) (outside_meaning self.new) }
        ensures memory { NotesInMemory self.old.duct line.now self.new.duct }
        ensures wire { self.new.wire ≡ self.old.wire }
    {
        self.duct.note(line)
    }
}

impl Outside for OutsideMem {
    ghost use Rattle.scl_outside.specs.Memory.{outside_meaning, MarksInMemory};
    ghost use Rattle.scl_outside.specs.WireMemory.{ReceivesInMemory, SendsInMemory, BindsInMemory, JoinsInMemory};

    fn bind(&mut self, local: &str) -> BindOut
        ensures step { Binds (outside_meaning self.old) local.now result (outside_meaning self.new) }
        ensures memory { BindsInMemory self.old.wire local.now result self.new.wire }
        ensures duct { self.new.duct ≡ self.old.duct }
    {
        self.wire.bind(local)
    }

    fn join(&mut self, peer: &str) -> BindOut
        requires { (outside_meaning self.old).wire.peers < 64 }
        ensures step { Joins (outside_meaning self.old) peer.now result (outside_meaning self.new) }
        ensures memory { JoinsInMemory self.old.wire peer.now result self.new.wire }
        ensures duct { self.new.duct ≡ self.old.duct }
    {
        self.wire.join(peer)
    }

    fn recv(&mut self, buf: &mut [u8]) -> RecvOut
        ensures fits { FitsDatagram result (length buf.old) }
        ensures step { Receives (outside_meaning self.old) result buf.new (outside_meaning self.new) }
        ensures memory { ReceivesInMemory self.old.wire result buf.new self.new.wire }
        ensures marks { MarksInMemory self.old.duct self.new.duct }
    {
        self.mark();
        self.wire.recv(buf)
    }

    fn send(&mut self, peer: usize, bytes: &[u8]) -> SendOut
        requires { peer < (outside_meaning self.old).wire.peers }
        ensures step { Sends (outside_meaning self.old) peer bytes.now result (outside_meaning self.new) }
        ensures memory { SendsInMemory self.old.wire peer bytes.now result self.new.wire }
        ensures duct { self.new.duct ≡ self.old.duct }
    {
        self.wire.send(peer, bytes)
    }

    fn peers(&self) -> usize
        ensures { result ≡ (outside_meaning self.now).wire.peers }
    {
        self.wire.peers()
    }
}
