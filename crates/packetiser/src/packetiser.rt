//! The sender: one datagram a step.
ghost use Rattle.std.specs.Prelude.{◌≡◌, ◌≤◌, ◌<◌, ◌+◌, ◌-◌, ◌%◌, ◌^◌, [], true, false, ℕ, List, length, Some, IfOk, if◌then◌else◌, ◌==◌};
ghost use Rattle.codestream_model.specs.Values.{Head};
ghost use Rattle.stream_model.specs.Cut.{room, rtp_at, number_at};
ghost use Rattle.rtp_header.specs.Reading.{fields_of};
ghost use Rattle.packetiser.specs.Filling.{empty};
ghost use Rattle.packetiser.specs.Packing.{putting, put_count, filled, is_last, is_closed};
ghost use Rattle.packetiser.specs.Packing.{payload_at, begun, ends_before, IsStarted};
ghost use Rattle.packetiser.specs.Packing.{Closes, Mains, Starts, Puts, Takes, Advances};
ghost use Rattle.packetiser.specs.Sending.{Sender, IsSender, Sends};
ghost use Rattle.scl_outside.specs.Events.{Event};

use crate::payload::Payload;
use crate::plan::PackPlan;
use codestream_walk::{PieceOut, Pieces, WalkFault};
use rtp_header::Rtp;
use scl_outside::Duct;
use std::alloc::{AllocError, Global};
use std::marker::Model;

/// The greatest number of datagrams of a run.
const MOST_DATAGRAMS: u32 = 8_388_607;

/// The progression order RPCL (T.800 Table A.16), and ORDH of it and of PCRL (RFC 9828).
const RPCL: u8 = 2;

const ORDH_OF_RPCL: u8 = 3;

const ORDH_OF_PCRL: u8 = 4;

/// What a step answers.
#[derive(Clone, Copy, Debug, PartialEq, Eq)]
pub enum PackOut {
    /// The next datagram of the cut.
    Datagram,
    /// The input was read to its end, and all datagrams were given.
    End,
    /// The input is refused.
    Refused(WalkFault),
    /// The main header at this offset has no room in a datagram.
    HeaderTooLong(u64),
    /// One datagram more than a run may have is due. Its codestream bytes begin at this offset.
    TooManyDatagrams(u64),
    /// A read failed in this call.
    ReadFault,
}

/// A sender of codestreams: it reads them, and cuts them into datagrams.
#[derive(Drop)]
pub struct Packetiser {
    plan: PackPlan,
    pieces: Pieces,
    payload: Payload,
    /// How many of the bytes that `pieces` gave last are in a payload.
    from: usize,
    /// The PID of the packet that was begun last, where none of its bytes is in a payload.
    begins: Option<u32>,
    /// Whether the bytes that `pieces` gave last are EOC.
    eoc: bool,
    /// The resolution of the packet that was begun last.
    resolution: u8,
    /// The number of decomposition levels of its codestream.
    levels: u8,
    /// The timestamp of the codestream.
    stamp: u32,
    /// How many datagrams were given.
    given: u32,
    live: bool,
}

impl Model for Packetiser {
    ghost use Rattle.std.specs.Prelude.{◌≡◌, ◌≤◌, ◌<◌, drop, length, IfSome};
    ghost use Rattle.stream_model.specs.Cut.{room};
    ghost use Rattle.packetiser.specs.Packing.{Packing};

    ghost Value = { Packing };

    ghost view = { λ p. record {
      plan = p.plan;
      seen = p.pieces;
      filling = p.payload.filling;
      shown = p.payload.shown;
      rest = drop p.from p.pieces.given;
      begins = p.begins;
      eoc = p.eoc;
      resolution = p.resolution;
      levels = p.levels;
      stamp = p.stamp;
      given = p.given;
      live = p.live;
    } };

    ghost invariant = { λ p. (p.from ≤ length p.pieces.given)
        × (length p.payload.filling.payload ≤ room p.plan) × (p.given ≤ 8388607)
        × (p.resolution ≤ p.levels) × IfSome p.payload.filling.lowest (λ r. r ≤ p.levels)
        × IfSome p.begins (λ id. id < 1048576) };
}

impl Packetiser {
    /// A sender at the start of an input. `AllocError` where there is no memory for its buffers; `step` takes none.
    pub fn new(alloc: Global, plan: PackPlan) -> Result<Packetiser, AllocError>
        ensures { IfOk result (λ v. (v.plan ≡ plan) × Sender plan [] [] v) }
    {
        plan.is_plan();
        let stamp = plan.stamp();
        let pieces = Pieces::new(alloc)?;
        let payload = Payload::new(alloc)?;
        let from = pieces.bytes().len();
        Ok(Packetiser {
            plan,
            pieces,
            payload,
            from,
            begins: None,
            eoc: false,
            resolution: 0,
            levels: 0,
            stamp,
            given: 0,
            live: true,
        })
    }

    /// Whether a step may be asked for: each answer before was `Datagram`.
    pub fn live(&self) -> bool
        ensures { result ≡ self.now.live }
    {
        self.live
    }

    /// The datagram that was given last, where the last answer was `Datagram`.
    pub fn bytes(&self) -> &[u8]
        ensures bytes { result.now ≡ self.now.shown }
        ensures few { length result.now ≤ 4116 }
    {
        self.payload.shown()
    }

    /// Gives the next datagram as soon as the bytes read fix it: no byte is read while they do. The other answers end
    /// the input: `End` where it is over and all datagrams were given; `Refused` where it is refused, `HeaderTooLong`
    /// where a main header has no room in a datagram, and `TooManyDatagrams` where more datagrams are due than a run may
    /// have, after all datagrams that the bytes before the fault fix; `ReadFault` where a read failed in this call. At
    /// each read, at most 90,000 of the bytes that were read are in no datagram.
    pub fn step<D: Duct>(&mut self, duct: &mut D) -> PackOut
        requires { IsSender self.old }
        ensures { (es : List Event)
            × Sends self.old (D.meaning duct.old) (D.meaning duct.new) result self.new es }
    {
        loop {
            match self.advance(duct) {
                Some(out) => return out,
                None => {}
            }
        }
    }

    /// Puts in what is left of the bytes that were read last, or, where nothing is, reads on.
    fn advance<D: Duct>(&mut self, duct: &mut D) -> Option<PackOut>
        requires { IsSender self.old }
        ensures { (es : List Event)
            × Advances self.old (D.meaning duct.old) (D.meaning duct.new) result self.new es }
    {
        if self.left() > 0 {
            self.put()
        } else {
            self.take(duct)
        }
    }

    /// How many of the bytes that were read last aren't in a payload.
    fn left(&self) -> usize
        ensures { result ≡ length self.now.rest }
    {
        self.pieces.bytes().len() - self.from
    }

    /// Reads the next piece of a codestream.
    fn take<D: Duct>(&mut self, duct: &mut D) -> Option<PackOut>
        requires none { self.old.rest ≡ [] }
        requires sender { IsSender self.old }
        ensures { (es : List Event)
            × Takes self.old (D.meaning duct.old) (D.meaning duct.new) result self.new es }
    {
        self.from = 0;
        match self.pieces.step(duct) {
            PieceOut::Head => Some(self.main()),
            PieceOut::Start => self.start(),
            PieceOut::More => None,
            PieceOut::FrameEnd => {
                self.eoc = true;
                None
            }
            PieceOut::End => Some(self.end(PackOut::End)),
            PieceOut::Refused(fault) => Some(self.end(PackOut::Refused(fault))),
            PieceOut::ReadFault => Some(self.end(PackOut::ReadFault)),
        }
    }

    /// Nothing more is to come.
    fn end(&mut self, out: PackOut) -> PackOut
        ensures out { result ≡ out }
        ensures done { self.new ≡ record self.old { live = false } }
    {
        self.live = false;
        out
    }

    /// Gives the Main of the main header that was read last.
    fn main(&mut self) -> PackOut
        requires none { self.old.filling ≡ empty }
        requires shown { (h : Head) × (self.old.seen.head ≡ Some h) }
        requires within { length self.old.seen.given ≤ self.old.seen.walk.offset }
        ensures { (h : Head) → self.old.seen.head ≡ Some h → Mains h self.old result self.new }
    {
        let len = self.pieces.bytes().len();
        let at = self.pieces.offset() - len as u64;
        if len > self.plan.room() {
            return self.end(PackOut::HeaderTooLong(at));
        }
        if self.given == MOST_DATAGRAMS {
            return self.end(PackOut::TooManyDatagrams(at));
        }
        let head = self.pieces.geometry().head();
        self.levels = head.levels();
        self.resolution = 0;
        self.from = len;
        let ordh = ordh_of(head.order());
        let number = self.plan.number_at(self.given);
        let rtp = rtp_of(&self.plan, self.stamp, number, false);
        self.payload
            .main(&rtp, (number / 65_536) as u8, ordh, self.pieces.bytes());
        self.given += 1;
        PackOut::Datagram
    }

    /// Begins the packet whose header was read last, after a payload that it ends.
    fn start(&mut self) -> Option<PackOut>
        requires started { (h : Head) × IsStarted h self.old }
        requires within { length self.old.rest + length self.old.filling.payload ≤ self.old.seen.walk.offset }
        ensures { (h : Head) → self.old.seen.head ≡ Some h → Starts h self.old result self.new }
    {
        let place = self.pieces.place();
        let pid = self.pieces.geometry().pid(place);
        let ends = self.ends_before(place.r);
        self.begins = Some(pid);
        self.resolution = place.r;
        if ends { Some(self.close(false)) } else { None }
    }

    /// Whether a packet of resolution `r` ends the payload before it.
    fn ends_before(&self, r: u8) -> bool
        requires { r ≡ self.now.seen.place.r }
        ensures { result ≡ ends_before self.now }
    {
        self.plan.split() && 0 < self.payload.len() && !(self.resolution == r)
    }

    /// Puts in bytes as far as there is room, and gives the payload that they close.
    fn put(&mut self) -> Option<PackOut>
        requires some { 1 ≤ length self.old.rest }
        requires room { length self.old.filling.payload < room self.old.plan }
        requires within { length self.old.rest + length self.old.filling.payload ≤ self.old.seen.walk.offset }
        ensures { Puts self.old result self.new }
    {
        let count = self.count();
        if self.eoc {
            self.put_eoc(count);
        } else {
            self.put_packet(count);
        }
        if self.is_closed() {
            let last = self.is_last();
            return Some(self.close(last));
        }
        None
    }

    /// How many bytes of what is left there is room for.
    fn count(&self) -> usize
        ensures count { result ≡ put_count self.now }
        ensures within { result ≤ length self.now.rest }
        ensures fits { length self.now.filling.payload + result ≤ room self.now.plan }
        ensures some { 1 ≤ length self.now.rest → length self.now.filling.payload < room self.now.plan → 1 ≤ result }
    {
        self.left().min(self.plan.room() - self.payload.len())
    }

    /// Puts in the first `count` bytes of what is left of EOC.
    fn put_eoc(&mut self, count: usize)
        requires within { count ≤ length self.old.rest }
        requires fits { length self.old.filling.payload + count ≤ room self.old.plan }
        ensures { self.new ≡ putting true count self.old }
    {
        self.room_is_small();
        let bytes = &self.pieces.bytes()[self.from..];
        self.payload.put_eoc(&bytes[..count]);
        self.from += count;
        self.begins = None;
    }

    /// Puts in the first `count` bytes of what is left of a packet.
    fn put_packet(&mut self, count: usize)
        requires some { 1 ≤ count }
        requires within { count ≤ length self.old.rest }
        requires fits { length self.old.filling.payload + count ≤ room self.old.plan }
        ensures { self.new ≡ putting false count self.old }
    {
        self.room_is_small();
        let bytes = &self.pieces.bytes()[self.from..];
        self.payload
            .put(self.resolution, self.begins, &bytes[..count]);
        self.from += count;
        self.begins = None;
    }

    /// Proof only: the room for codestream bytes.
    fn room_is_small(&self)
        ensures { room self.now.plan ≤ 4096 }
    {
        let _ = self.plan.room();
    }

    /// Whether all of EOC is in a payload.
    fn is_last(&self) -> bool
        ensures { result ≡ is_last self.now }
    {
        self.eoc && self.left() == 0
    }

    /// Whether the payload is closed by what is in it.
    fn is_closed(&self) -> bool
        ensures { result ≡ is_closed self.now }
    {
        self.is_last() || self.payload.len() == self.plan.room()
    }

    /// The offset in the input of the payload's first byte.
    fn payload_at(&self) -> u64
        requires { length self.now.rest + length self.now.filling.payload ≤ self.now.seen.walk.offset }
        ensures { result ≡ payload_at self.now }
    {
        self.pieces.offset() - self.left() as u64 - self.payload.len() as u64
    }

    /// Gives the Body of the payload. M is set, and the next timestamp is due, where it is the last of a codestream.
    fn close(&mut self, marker: bool) -> PackOut
        requires { length self.old.rest + length self.old.filling.payload ≤ self.old.seen.walk.offset }
        ensures { Closes marker self.old result self.new }
    {
        if self.given == MOST_DATAGRAMS {
            let at = self.payload_at();
            return self.end(PackOut::TooManyDatagrams(at));
        }
        let number = self.plan.number_at(self.given);
        let rtp = rtp_of(&self.plan, self.stamp, number, marker);
        self.payload
            .close(&rtp, (number / 65_536) as u8, self.levels);
        self.given += 1;
        self.eoc = self.eoc && !marker;
        self.stamp = self.stamp_after(marker);
        PackOut::Datagram
    }

    /// The timestamp after a datagram: that of the next codestream after the last one.
    fn stamp_after(&self, marker: bool) -> u32
        ensures { result ≡ (if marker then (self.now.stamp + self.now.plan.step) % 2 ^ 32 else self.now.stamp) }
    {
        if marker {
            self.plan.next_stamp(self.stamp)
        } else {
            self.stamp
        }
    }
}

/// ORDH of a progression order.
fn ordh_of(order: u8) -> u8
    ensures ordh { result ≡ (if order == 2 then 3 else 4) }
    ensures within { result ≤ 7 }
{
    if order == RPCL {
        ORDH_OF_RPCL
    } else {
        ORDH_OF_PCRL
    }
}

/// The RTP header of a datagram with this extended number.
fn rtp_of(plan: &PackPlan, stamp: u32, number: u32, marker: bool) -> Rtp
    ensures fields { fields_of result ≡ record { marker = marker; kind = plan.now.kind; number = number % 65536; stamp = stamp; source = plan.now.source } }
    ensures kind { result.kind < 128 }
{
    Rtp {
        marker,
        kind: plan.kind(),
        number: (number % 65_536) as u16,
        stamp,
        source: plan.source(),
        body_from: 12,
        body_to: 12,
    }
}
