//! The links of a wire in memory: what each is planned to answer, and records of the answers and of what
//! was sent.
ghost use Rattle.std.specs.Prelude.{◌≡◌, ◌<◌, ◌∷◌, ◌↔◌, [], length, replicate, slice_get, IfOk, IfSome, IsTrue, IsSome, Some};
ghost use Rattle.scl_outside.specs.Record.{told_of, room_of};
ghost use Rattle.scl_outside.specs.Texts.{texts_of, kept_texts, texts_room};
ghost use Rattle.scl_outside.specs.WireAnswers.{parcel};

use crate::SendOut;
use crate::record::Record;
use crate::texts::Texts;
use std::alloc::{AllocError, Global};

/// What the link to a peer is to answer.
#[derive(Debug, Drop)]
pub struct LinkPlan {
    /// The first answers, in order.
    pub first: Vec<SendOut>,
    /// The answer to all calls after these.
    pub later: SendOut,
}

/// An answer of a peer's link.
#[derive(Clone, Copy)]
struct LinkReply {
    peer: usize,
    answer: SendOut,
}

/// The greatest number of peers.
pub const MAX_PEERS: usize = 64;

/// Planned answers of each link, the number of answers that each gave, and what was answered and sent so far.
#[derive(Drop)]
pub struct Links {
    plans: Vec<LinkPlan>,
    never_fails: bool,
    asked: [usize; 64],
    faults: [u64; 64],
    replies: Record<LinkReply>,
    sent: Texts,
}

impl Links {
    ghost use Rattle.scl_outside.specs.LinkPlans.{next_answer, replies_of, SendsNext};

    /// Links without plans, and records with room for `room` answers, and for `room` datagrams of together
    /// `room` bytes; where `never_fails`, planned failures are read as not ready. `AllocError` where memory
    /// ran out.
    pub fn new(alloc: Global, never_fails: bool, room: usize) -> Result<Links, AllocError>
        ensures plans { IfOk result (λ l. l.plans.items ≡ []) }
        ensures asked { IfOk result (λ l. l.asked ≡ replicate 64 0) }
        ensures faults { IfOk result (λ l. l.faults ≡ replicate 64 0) }
        ensures told { IfOk result (λ l. (texts_of l.sent ≡ Some []) × (replies_of l ≡ Some [])) }
        ensures room { IfOk result (λ l. (texts_room l.sent ≡ room) × (room_of l.replies ≡ room)) }
        ensures mode { IfOk result (λ l. l.never_fails ≡ never_fails) }
    {
        Ok(Links {
            plans: Vec::new(alloc),
            never_fails,
            asked: [0; 64],
            faults: [0; 64],
            replies: Record::new(alloc, room)?,
            sent: Texts::new(alloc, room)?,
        })
    }

    /// Plans these links in place of all that was there, with no answer given, nothing sent and no failure
    /// counted yet.
    pub fn plan(&mut self, plans: Vec<LinkPlan>)
        ensures plans { self.new.plans ≡ plans }
        ensures asked { self.new.asked ≡ replicate 64 0 }
        ensures faults { self.new.faults ≡ replicate 64 0 }
        ensures told { (texts_of self.new.sent ≡ Some []) × (replies_of self.new ≡ Some []) }
        ensures room { texts_room self.new.sent ≡ texts_room self.old.sent }
        ensures replies_room { room_of self.new.replies ≡ room_of self.old.replies }
        ensures mode { self.new.never_fails ≡ self.old.never_fails }
    {
        self.plans = plans;
        self.asked = [0; 64];
        self.faults = [0; 64];
        self.replies.clear();
        self.sent.clear();
    }

    /// Answers a call to a peer as its link is planned.
    pub fn send(&mut self, peer: usize, bytes: &[u8]) -> SendOut
        requires { peer < 64 }
        ensures { SendsNext self.old peer bytes.now result self.new }
    {
        let answer = self.next_answer(peer);
        self.asked[peer] = self.asked[peer].saturating_add(1);
        self.replies.push(LinkReply { peer, answer });
        match answer {
            SendOut::Sent => self.sent.push(peer, bytes),
            SendOut::NotReady => {}
            SendOut::Failed => self.faults[peer] = self.faults[peer].saturating_add(1),
        }
        answer
    }

    /// The answer of the next call to a peer.
    fn next_answer(&self, peer: usize) -> SendOut
        requires { peer < 64 }
        ensures { result ≡ next_answer self.now peer }
    {
        let answer = match self.plans.get(peer) {
            Some(plan) => match plan.first.get(self.asked[peer]) {
                Some(answer) => *answer,
                None => plan.later,
            },
            None => SendOut::Sent,
        };
        match answer {
            SendOut::Failed if self.never_fails => SendOut::NotReady,
            other => other,
        }
    }

    /// Whether all answers, and all that was sent, were recorded.
    pub fn told(&self) -> bool
        ensures { IsTrue result ↔ (IsSome (texts_of self.now.sent) × IsSome (replies_of self.now)) }
    {
        self.sent.told() && self.replies.told()
    }

    /// The number of datagrams in the record of those sent.
    pub fn sent_count(&self) -> usize
        ensures kept { result ≡ length (kept_texts self.now.sent) }
        ensures told { IfSome (texts_of self.now.sent) (λ parcels. result ≡ length parcels) }
    {
        self.sent.len()
    }

    /// The peer and the bytes of a datagram in the record of those sent, counted from 0 in order of sending.
    pub fn sent(&self, index: usize) -> (usize, &[u8])
        requires { index < length (kept_texts self.now.sent) }
        ensures { slice_get (kept_texts self.now.sent) index ≡ Some (parcel result.0 result.1.now) }
    {
        self.sent.get(index)
    }
}
