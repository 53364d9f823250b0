//! An outside in memory that never fails: its counts of faults are the constant 0.
ghost use Rattle.std.specs.Prelude.{◌≡◌, ◌≤◌, ◌<◌, ◌↔◌, [], ℕ, All, length, slice_get, true, IfOk, IfSome, IsTrue, Some};
ghost use Rattle.scl_outside.specs.Answers.{FitsBuffer, Writes, read_event};
ghost use Rattle.scl_outside.specs.Events.{Noted};
ghost use Rattle.scl_outside.specs.Steps.{Step};
ghost use Rattle.scl_outside.specs.WireAnswers.{FitsDatagram, Receives, Binds, Joins, Sends, parcel};

use crate::wire_mem::WireMem;
use crate::{
    BindOut, Duct, DuctMem, Inbound, LinkPlan, Outside, OutsideMem, ReadOut, RecvOut, SendOut,
    WriteOut,
};
use std::alloc::{AllocError, Global};

/// An outside whose input and wire are planned, and of which no call fails.
#[derive(Drop)]
pub struct NeverFails {
    inner: OutsideMem,
    ghost reads_pass: { length inner.duct.bad_reads.items ≡ 0 },
    ghost writes_pass: { length inner.duct.bad_writes.items ≡ 0 },
    ghost binds_pass: { length inner.wire.addresses.bad.items ≡ 0 },
    ghost inbox_passes: { inner.wire.inbox.never_fails ≡ true },
    ghost links_pass: { inner.wire.links.never_fails ≡ true },
}

impl NeverFails {
    ghost use Rattle.scl_outside.specs.Inbound.{datagrams_in};
    ghost use Rattle.scl_outside.specs.WireMemory.{fresh_wire, IsPlanned, HasRoom};
    ghost use Rattle.scl_outside.specs.Memory.{sure_meaning, new_meaning, kept_written, kept_noted, kept_sent, HasDuctRoom, chunks_of, next_read, next_write, TellsAll};

    /// An outside over a copy of `input`, as `DuctMem::new` with no read or write that fails, and with a
    /// wire on which nothing comes in and every link sends. Each record has room for `room` items, and
    /// those of datagrams and addresses for `room` bytes too. `AllocError` where memory ran out; no later
    /// call takes any.
    pub fn new(
        alloc: Global,
        input: &[u8],
        chunks: &[usize],
        room: usize,
    ) -> Result<NeverFails, AllocError>
        requires chunks { All (λ chunk. 1 ≤ chunk) chunks.now }
        requires room { room ≤ 16777216 }
        ensures meaning { IfOk result (λ d. sure_meaning d ≡ new_meaning input.now) }
        ensures rooms { IfOk result (λ d. HasDuctRoom d.inner.duct room) }
        ensures chunks { IfOk result (λ d. chunks_of d.inner.duct ≡ chunks.now) }
        ensures numbers { IfOk result (λ d. (next_read d.inner.duct ≡ 0) × (next_write d.inner.duct ≡ 0)) }
        ensures planned { IfOk result (λ d. IsPlanned [] [] [] true d.inner.wire) }
        ensures wire_rooms { IfOk result (λ d. HasRoom d.inner.wire room) }
    {
        let duct = DuctMem::new(alloc, input, chunks, &[], &[], room)?;
        let wire = WireMem::new(alloc, &[], true, room)?;
        Ok(NeverFails {
            inner: OutsideMem { duct, wire },
        })
    }

    /// The same outside with a new wire, on which these come in and the links answer as planned, as in
    /// `OutsideMem::new`, with each planned failure read as not ready. Takes no memory.
    pub fn with_wire(mut self, inbound: Vec<Inbound>, links: Vec<LinkPlan>) -> NeverFails
        ensures duct { result.inner.duct ≡ self.inner.duct }
        ensures wire { (sure_meaning result).wire ≡ fresh_wire (datagrams_in inbound.items) }
        ensures planned { IsPlanned inbound.items links.items
            self.inner.wire.addresses.bad.items true result.inner.wire }
        ensures rooms { (room : ℕ) → HasRoom self.inner.wire room → HasRoom result.inner.wire room }
    {
        self.inner.wire.plan(inbound, links);
        self
    }

    /// Whether all that was written, noted, marked, received, sent, answered and named fitted its record.
    pub fn told(&self) -> bool
        ensures { IsTrue result ↔ TellsAll (sure_meaning self.now) }
    {
        self.inner.told()
    }

    /// What was written, as far as it was kept.
    pub fn written(&self) -> &[u8]
        ensures kept { result.now ≡ kept_written self.now.inner.duct }
        ensures told { IfSome (sure_meaning self.now).written (λ bytes. result.now ≡ bytes) }
    {
        self.inner.written()
    }

    /// What was noted, as far as it was kept.
    pub fn noted(&self) -> &[u8]
        ensures kept { result.now ≡ kept_noted self.now.inner.duct }
        ensures told { IfSome (sure_meaning self.now).noted (λ bytes. result.now ≡ bytes) }
    {
        self.inner.noted()
    }

    /// The number of datagrams in the record of those sent.
    pub fn sent_count(&self) -> usize
        ensures kept { result ≡ length (kept_sent self.now.inner) }
        ensures told { IfSome (sure_meaning self.now).wire.sent (λ parcels. result ≡ length parcels) }
    {
        self.inner.sent_count()
    }

    /// The peer and the bytes of datagram `i` in the record of those sent, counted from 0 in order of
    /// sending; `i` is below `sent_count`.
    pub fn sent(&self, i: usize) -> (usize, &[u8])
        requires { i < length (kept_sent self.now.inner) }
        ensures { slice_get (kept_sent self.now.inner) i ≡ Some (parcel result.0 result.1.now) }
    {
        self.inner.sent(i)
    }
}

impl Duct for NeverFails {
    ghost use Rattle.scl_outside.specs.Memory.{sure_meaning, ReadsInMemory, WritesInMemory, NotesInMemory};

    ghost meaning = { sure_meaning };

    fn read(&mut self, buf: &mut [u8]) -> ReadOut
        requires { 0 < length buf.old }
        ensures fits { FitsBuffer result (length buf.old) }
        ensures step { Step (sure_meaning self.old) (read_event result buf.new) (sure_meaning self.new) }
        ensures memory { ReadsInMemory self.old.inner.duct result (length buf.old) self.new.inner.duct }
        ensures wire { self.new.inner.wire ≡ self.old.inner.wire }
    {
        self.inner.read(buf)
    }

    fn write(&mut self, bytes: &[u8]) -> WriteOut
        ensures step { Writes (sure_meaning self.old) result bytes.now (sure_meaning self.new) }
        ensures done { result ≡ WriteOut.Done }
        ensures memory { WritesInMemory self.old.inner.duct result bytes.now self.new.inner.duct }
        ensures wire { self.new.inner.wire ≡ self.old.inner.wire }
    {
        self.inner.write(bytes)
    }

    fn note(&mut self, line: &[u8])
        ensures step { Step (sure_meaning self.old) (Noted line.now) (sure_meaning self.new) }
        ensures memory { NotesInMemory self.old.inner.duct line.now self.new.inner.duct }
        ensures wire { self.new.inner.wire ≡ self.old.inner.wire }
    {
        self.inner.note(line)
    }
}

impl Outside for NeverFails {
    ghost use Rattle.scl_outside.specs.Memory.{sure_meaning, MarksInMemory};
    ghost use Rattle.scl_outside.specs.WireMemory.{ReceivesInMemory, SendsInMemory, BindsInMemory, JoinsInMemory};

    fn bind(&mut self, local: &str) -> BindOut
        ensures step { Binds (sure_meaning self.old) local.now result (sure_meaning self.new) }
        ensures memory { BindsInMemory self.old.inner.wire local.now result self.new.inner.wire }
        ensures duct { self.new.inner.duct ≡ self.old.inner.duct }
    {
        self.inner.bind(local)
    }

    fn join(&mut self, peer: &str) -> BindOut
        requires { (sure_meaning self.old).wire.peers < 64 }
        ensures step { Joins (sure_meaning self.old) peer.now result (sure_meaning self.new) }
        ensures memory { JoinsInMemory self.old.inner.wire peer.now result self.new.inner.wire }
        ensures duct { self.new.inner.duct ≡ self.old.inner.duct }
    {
        self.inner.join(peer)
    }

    fn recv(&mut self, buf: &mut [u8]) -> RecvOut
        ensures fits { FitsDatagram result (length buf.old) }
        ensures step { Receives (sure_meaning self.old) result buf.new (sure_meaning self.new) }
        ensures memory { ReceivesInMemory self.old.inner.wire result buf.new self.new.inner.wire }
        ensures marks { MarksInMemory self.old.inner.duct self.new.inner.duct }
    {
        self.inner.recv(buf)
    }

    fn send(&mut self, peer: usize, bytes: &[u8]) -> SendOut
        requires { peer < (sure_meaning self.old).wire.peers }
        ensures step { Sends (sure_meaning self.old) peer bytes.now result (sure_meaning self.new) }
        ensures memory { SendsInMemory self.old.inner.wire peer bytes.now result self.new.inner.wire }
        ensures duct { self.new.inner.duct ≡ self.old.inner.duct }
    {
        self.inner.send(peer, bytes)
    }

    fn peers(&self) -> usize
        ensures { result ≡ (sure_meaning self.now).wire.peers }
    {
        self.inner.peers()
    }
}
