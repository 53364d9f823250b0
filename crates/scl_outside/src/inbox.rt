//! The way in of a wire in memory: what is planned to come, and a record of what the calls answered.
ghost use Rattle.std.specs.Prelude.{◌≡◌, ◌≤◌, ◌+◌, ◌-◌, ◌^◌, ◌∷◌, ◌↔◌, [], length, min, IfOk, IfSome, IsTrue, IsSome, Some, slice_get};
ghost use Rattle.std.proofs.Props.{props};
ghost use Rattle.scl_outside.specs.Record.{told_of, room_of};
ghost use Rattle.scl_outside.specs.Inbound.{IsCount, received_in, recorded, bytes_of, after_first};
ghost use Rattle.scl_outside.specs.WireAnswers.{IsAtFront, FitsDatagram};

use crate::RecvOut;
use crate::record::Record;
use std::alloc::{AllocError, Global};

/// What a call for a datagram is to answer.
#[derive(Debug, Drop)]
pub enum Inbound {
    /// This datagram comes.
    Datagram(Vec<u8>),
    /// None is there at this call.
    NotReady,
    /// None will come, at this call and all after it.
    Closed,
    /// The call fails.
    Failed,
}

/// What a call for a datagram answered.
#[derive(Clone, Copy)]
enum Answer {
    /// The datagram at this index among the entries.
    Arrived(usize),
    NotReady,
    Closed,
    Failed,
}

/// Copies as much of a datagram as fits to the front of `buf`, and answers how many bytes it copied.
fn copy_front(datagram: &[u8], buf: &mut [u8]) -> usize
    ensures { IsAtFront datagram.now result buf.new }
{
    let count = datagram.len().min(buf.len());
    buf[..count].copy_from_slice(&datagram[..count]);
    count
}

/// Planned entries, the next one, and the answers given so far.
#[derive(Drop)]
pub struct Inbox {
    entries: Vec<Inbound>,
    next: usize,
    never_fails: bool,
    answers: Record<Answer>,
    arrived: usize,
    ghost within: { next ≤ length entries.items },
    ghost counted: { IsCount arrived (received_in entries.items answers) } by { Prim.hlevel props },
}

impl Inbox {
    ghost use Rattle.scl_outside.specs.Inbox.{entries_left, next_reception, received_of, received_after, IsReception, TakesNext};

    /// An inbox with no entries, and a record with room for `room` answers; where `never_fails`, planned
    /// failures are read as not ready. `AllocError` where memory ran out.
    pub fn new(alloc: Global, never_fails: bool, room: usize) -> Result<Inbox, AllocError>
        ensures left { IfOk result (λ i. entries_left i ≡ []) }
        ensures told { IfOk result (λ i. received_of i ≡ Some []) }
        ensures room { IfOk result (λ i. room_of i.answers ≡ room) }
        ensures mode { IfOk result (λ i. i.never_fails ≡ never_fails) }
    {
        Ok(Inbox {
            entries: Vec::new(alloc),
            next: 0,
            never_fails,
            answers: Record::new(alloc, room)?,
            arrived: 0,
        })
    }

    /// Plans these entries in place of all that was there, with no answer given yet.
    pub fn plan(&mut self, entries: Vec<Inbound>)
        ensures left { entries_left self.new ≡ entries.items }
        ensures told { received_of self.new ≡ Some [] }
        ensures room { room_of self.new.answers ≡ room_of self.old.answers }
        ensures mode { self.new.never_fails ≡ self.old.never_fails }
    {
        self.entries = entries;
        self.next = 0;
        self.answers.clear();
        self.arrived = 0;
    }

    /// Gives the next entry, with its datagram at the front of `buf`, as much of it as fits.
    pub fn recv(&mut self, buf: &mut [u8]) -> RecvOut
        ensures fits { FitsDatagram result (length buf.old) }
        ensures takes { TakesNext self.old result buf.new self.new }
    {
        let answer = self.next_answer();
        let out = self.show(answer, buf);
        self.keep(answer);
        self.pass();
        out
    }

    /// The answer of the next call.
    fn next_answer(&self) -> Answer
        ensures { recorded self.now.entries.items result ≡ next_reception self.now }
    {
        match self.entries.get(self.next) {
            Some(Inbound::Datagram(_)) => Answer::Arrived(self.next),
            Some(Inbound::Closed) => Answer::Closed,
            Some(Inbound::Failed) if !self.never_fails => Answer::Failed,
            Some(_) | None => Answer::NotReady,
        }
    }

    /// The bytes of an entry, none where it has no datagram.
    fn datagram(&self, index: usize) -> &[u8]
        ensures { result.now ≡ bytes_of (slice_get self.now.entries.items index) }
    {
        match self.entries.get(index) {
            Some(Inbound::Datagram(bytes)) => bytes,
            Some(_) | None => &[],
        }
    }

    /// Shows an answer as a caller sees it.
    fn show(&self, answer: Answer, buf: &mut [u8]) -> RecvOut
        ensures fits { FitsDatagram result (length buf.old) }
        ensures gives { IsReception result buf.new (recorded self.now.entries.items answer) }
    {
        match answer {
            Answer::Arrived(index) => RecvOut::Got(copy_front(self.datagram(index), buf)),
            Answer::NotReady => RecvOut::NotReady,
            Answer::Closed => RecvOut::Closed,
            Answer::Failed => RecvOut::Failed,
        }
    }

    /// Records an answer.
    fn keep(&mut self, answer: Answer)
        ensures told { received_of self.new ≡ received_after self.old (recorded self.old.entries.items answer) }
        ensures room { room_of self.new.answers ≡ room_of self.old.answers }
        ensures mode { self.new.never_fails ≡ self.old.never_fails }
        ensures entries { self.new.entries ≡ self.old.entries }
        ensures next { self.new.next ≡ self.old.next }
    {
        self.answers.push(answer);
        if let Answer::Arrived(_) = answer {
            self.arrived = self.arrived.saturating_add(1);
        }
    }

    /// Goes on to the next entry.
    fn pass(&mut self)
        ensures left { entries_left self.new ≡ after_first (entries_left self.old) }
        ensures told { received_of self.new ≡ received_of self.old }
        ensures room { room_of self.new.answers ≡ room_of self.old.answers }
        ensures mode { self.new.never_fails ≡ self.old.never_fails }
    {
        match self.entries.get(self.next) {
            Some(Inbound::Closed) | None => {}
            Some(_) => self.next += 1,
        }
    }

    /// Whether all answers were recorded.
    pub fn told(&self) -> bool
        ensures { IsTrue result ↔ IsSome (received_of self.now) }
    {
        self.answers.told()
    }

    /// The number of datagrams that arrived, where the answers are told.
    pub fn arrived(&self) -> usize
        ensures { IsCount result (received_of self.now) }
    {
        self.arrived
    }
}
