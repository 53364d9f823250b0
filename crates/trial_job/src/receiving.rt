//! Datagrams that are thinned and received, and what is counted of them.
ghost use Rattle.std.specs.Prelude.{◌≡◌, ◌≤◌, ◌<◌, ◌+◌, ◌-◌, ◌^◌, ◌++◌, ℕ, List, [], ◌∷◌, map, min, length, IfOk, refl};
ghost use Rattle.std.specs.List.{AllByRecursion};
ghost use Rattle.wire_model.specs.Thinning.{kept};
ghost use Rattle.stream_model.specs.Arrivals.{datagram_at};
ghost use Rattle.trial_job.specs.Receiving.{HasTaken, HasCounted};

use crate::datagrams::Datagrams;
use receiving_job::{Sink, give_rest, take};
use scl_outside::{Duct, NeverFails, PutOut, are_bytes};
use std::alloc::{AllocError, Global};
use stream_receiver::{Pick, Receiver};
use thinning_relay::level_of;

/// What a receiver wants of a stream.
#[derive(Clone, Copy, Debug, PartialEq, Eq)]
pub struct Wanted {
    /// The size of the reassembly window, 1 to 16,384.
    pub window: u16,
    /// The limit of thinning: the greatest RES of a Body that is kept.
    pub limit: u8,
}

/// What was counted of a stream that was thinned and received.
#[derive(Clone, Copy, Debug, PartialEq, Eq)]
pub struct Received {
    /// The datagrams that thinning kept.
    pub thinned: u64,
    /// The datagrams that the reassembly window kept.
    pub kept: u64,
    /// The packets that were released. The count stays at 2^64 - 1.
    pub released: u64,
}

/// Counts the packets that a receiver releases, and writes nothing.
#[derive(Clone, Copy, Debug, Drop)]
struct Counter {
    /// It stays at 2^64 - 1.
    released: u64,
}

impl Sink for Counter {
    ghost made = { λ r ended. [] };

    ghost so_far = { λ packets. [] };

    ghost HasPut = { λ c packets. c.released ≡ min (length packets) (2 ^ 64 - 1) };

    fn put<D: Duct>(&mut self, out: &mut D, receiver: &Receiver) -> PutOut {
        let _ = out;
        let _ = receiver;
        self.released = self.released.saturating_add(1);
        PutOut::Done
    }

    fn close<D: Duct>(&mut self, out: &mut D, receiver: &Receiver) -> PutOut {
        let _ = out;
        let _ = receiver;
        PutOut::Done
    }

    ghost starts = { refl };

    ghost grows = { λ xs ys. ([], refl) };

    ghost before_end = { λ r. refl };

    ghost at_end = { λ r. ([], refl) };
}

/// A receiver whose packets are counted, and the number of frames that it has taken.
#[derive(Drop)]
struct Link {
    receiver: Receiver,
    counter: Counter,
    out: NeverFails,
    thinned: u64,
}

/// Thins the datagrams at these positions, in this order, and gives what is kept to a receiver.
/// `AllocError` where memory runs out.
pub fn receive(
    alloc: Global,
    wanted: Wanted,
    datagrams: &Datagrams,
    positions: &[usize],
) -> Result<Received, AllocError>
    requires some { 1 ≤ wanted.window }
    requires most { wanted.window ≤ 16384 }
    requires within { AllByRecursion (λ i. i < length datagrams.now) positions.now }
    requires few { length positions.now < 2 ^ 63 }
    ensures { IfOk result (HasCounted wanted.window
        (kept wanted.limit (map (datagram_at datagrams.now) positions.now))) }
{
    let mut link = Link::new(alloc, wanted.window)?;
    for position in positions {
        link.pass(wanted.limit, datagrams.get(*position));
    }
    Ok(link.end())
}

impl Link {
    /// A new receiver of the stream of a trial.
    fn new(alloc: Global, window: u16) -> Result<Link, AllocError>
        requires some { 1 ≤ window }
        requires most { window ≤ 16384 }
        ensures { IfOk result (HasTaken window []) }
    {
        let pick = Pick {
            kind: 96,
            source: Some(1),
            window,
        };
        Ok(Link {
            receiver: Receiver::new(alloc, pick)?,
            counter: Counter { released: 0 },
            out: NeverFails::new(alloc, &[], &[], 0)?,
            thinned: 0,
        })
    }

    /// Gives a frame to the receiver where thinning keeps it.
    fn pass(&mut self, limit: u8, frame: &[u8])
        requires taken { (window : ℕ) × (frames : List (List ℕ)) × HasTaken window frames self.old }
        requires few { self.old.thinned < 2 ^ 63 }
        ensures taken { (window : ℕ) (frames : List (List ℕ)) → HasTaken window frames self.old
            → HasTaken window (frames ++ kept limit (frame.now ∷ [])) self.new }
        ensures few { self.new.thinned ≤ self.old.thinned + 1 }
    {
        match level_of(frame) {
            Some(level) if level <= limit => self.take(frame),
            _ => {}
        }
    }

    /// Gives a frame to the receiver.
    fn take(&mut self, frame: &[u8])
        requires taken { (window : ℕ) × (frames : List (List ℕ)) × HasTaken window frames self.old }
        requires few { self.old.thinned < 2 ^ 63 }
        ensures taken { (window : ℕ) (frames : List (List ℕ)) → HasTaken window frames self.old
            → HasTaken window (frames ++ frame.now ∷ []) self.new }
        ensures few { self.new.thinned ≡ self.old.thinned + 1 }
    {
        are_bytes(frame);
        let _ = take(&mut self.receiver, &mut self.counter, &mut self.out, frame);
        self.thinned += 1;
    }

    /// Gives the receiver its end.
    fn end(mut self) -> Received
        requires taken { (window : ℕ) × (frames : List (List ℕ)) × HasTaken window frames self }
        requires few { self.thinned < 2 ^ 63 }
        ensures { (window : ℕ) (frames : List (List ℕ)) → HasTaken window frames self
            → HasCounted window frames result }
    {
        let _ = give_rest(&mut self.receiver, &mut self.counter, &mut self.out);
        Received {
            thinned: self.thinned,
            kept: self.receiver.tally().kept,
            released: self.counter.released,
        }
    }
}
