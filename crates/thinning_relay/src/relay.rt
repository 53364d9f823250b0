//! A relay: one way in, and a queue to each receiver.
ghost use Rattle.std.specs.Prelude.{◌≡◌, ◌≤◌, ◌<◌, ℕ, All, length, slice_get, Some, IfOk, if◌then◌else◌};
ghost use Rattle.thinning_relay.specs.Numbered.{AreNumbered};
ghost use Rattle.thinning_relay.specs.declared.relay.Turn.TheVariants.{Moved, Idle};

use crate::passing::{Accepted, accept};
use crate::receiver::Receiver;
use crate::receivers::flush_all;
use polled_datagrams::{Polled, RecvFuture};
use scl_outside::Outside;
use std::alloc::{AllocError, Global};

/// What is kept for a receiver, and how much waits for it.
#[derive(Clone, Copy, Debug, PartialEq, Eq)]
pub struct Peer {
    /// The greatest RES of a Body that is kept for it, at most 7; each Main is kept.
    pub limit: u8,
    /// The greatest number of datagrams in its queue, 1 to 4,096.
    pub depth: u16,
}

/// The answer of a turn.
#[derive(Clone, Copy, Debug, PartialEq, Eq)]
pub enum Turn {
    /// There was no memory for the copies of the datagram that came, which some receiver's limit keeps: it
    /// reached no queue, and no receiver was polled.
    NoMemory,
    /// The call for a datagram failed.
    Failed,
    /// No datagram will come.
    Ended,
    /// A datagram was received, sent or failed.
    Moved,
    /// Nothing was received, sent or failed.
    Idle,
}

/// What came in at the start of a turn.
#[derive(Clone, Copy, Debug, PartialEq, Eq)]
pub enum Received {
    NoMemory,
    Failed,
    Ended,
    Nothing,
    Datagram,
}

/// A relay with its receivers. Receiver j sends to the peer with number j.
#[derive(Drop)]
pub struct Relay {
    alloc: Global,
    receive: RecvFuture,
    pub(crate) receivers: Vec<Receiver>,
    received: u64,
    refused: u64,
    ghost numbered: { AreNumbered receivers.items },
}

impl Relay {
    ghost use Rattle.polled_datagrams.specs.Sending.{depth_of};
    ghost use Rattle.thinning_relay.specs.Receivers.{queued};
    ghost use Rattle.thinning_relay.specs.Relaying.{IsNewRelay, AreNew, TakesIn, Turns, Flushes, receivers_of};

    /// A relay with a receiver for each of these peers, at most 64, of limits of at most 7 and depths of 1
    /// to 4,096. `AllocError` where memory ran out.
    pub fn new(alloc: Global, peers: &[Peer]) -> Result<Relay, AllocError>
        requires count { length peers.now ≤ 64 }
        requires limits { All (λ p. p.limit ≤ 7) peers.now }
        requires some { All (λ p. 1 ≤ p.depth) peers.now }
        requires most { All (λ p. p.depth ≤ 4096) peers.now }
        ensures { IfOk result (λ r. IsNewRelay peers.now r) }
    {
        let mut receivers = Vec::with_capacity(alloc, peers.len())?;
        for j in 0..peers.len() {
            let receiver = Receiver::new(alloc, j, peers[j].limit, peers[j].depth)?;
            receivers.push(receiver)?;
        }
        Ok(Relay {
            alloc,
            receive: RecvFuture::new(alloc)?,
            receivers,
            received: 0,
            refused: 0,
        })
    }

    /// Receives once, puts what came into the queue of each receiver whose limit keeps it, and then flushes
    /// each receiver once, in their order. `out.peers()` is at least the number of receivers.
    pub fn turn<O: Outside>(&mut self, out: &mut O) -> Turn
        requires { length (receivers_of self.old) ≤ (O.meaning out.old).wire.peers }
        ensures { Turns self.old result self.new (O.meaning out.old) (O.meaning out.new) }
    {
        match self.take_in(out) {
            Received::NoMemory => Turn::NoMemory,
            Received::Failed => {
                self.flush(out);
                Turn::Failed
            }
            Received::Ended => {
                self.flush(out);
                Turn::Ended
            }
            Received::Datagram => {
                self.flush(out);
                Turn::Moved
            }
            Received::Nothing => turn_of(self.flush(out)),
        }
    }

    /// Receives once, and passes on what came.
    fn take_in<O: Outside>(&mut self, out: &mut O) -> Received
        ensures { TakesIn self.old result self.new (O.meaning out.old) (O.meaning out.new) }
    {
        match self.receive.poll(out) {
            Polled::Failed => Received::Failed,
            Polled::Ended => Received::Ended,
            Polled::Pending => Received::Nothing,
            Polled::Ready(_) => {
                self.received = self.received.saturating_add(1);
                match accept(self.alloc, &mut self.receivers, self.receive.bytes()) {
                    Accepted::Kept => Received::Datagram,
                    Accepted::Refused => {
                        self.refused = self.refused.saturating_add(1);
                        Received::Datagram
                    }
                    Accepted::NoMemory => Received::NoMemory,
                }
            }
        }
    }

    /// Flushes each receiver once, in their order. Answers whether a datagram was sent or failed.
    /// `out.peers()` is at least the number of receivers.
    pub fn flush<O: Outside>(&mut self, out: &mut O) -> bool
        requires { length (receivers_of self.old) ≤ (O.meaning out.old).wire.peers }
        ensures { Flushes self.old result self.new (O.meaning out.old) (O.meaning out.new) }
    {
        flush_all(&mut self.receivers, out)
    }

    /// The number of datagrams received.
    pub fn received(&self) -> u64
        ensures { result ≡ self.now.received }
    {
        self.received
    }

    /// The number of datagrams received that aren't well formed.
    pub fn refused(&self) -> u64
        ensures { result ≡ self.now.refused }
    {
        self.refused
    }

    /// The number of datagrams sent to receiver `j`, which is below the number of receivers.
    pub fn sent(&self, j: usize) -> u64
        requires { j < length (receivers_of self.now) }
        ensures { (r : Receiver) → slice_get (receivers_of self.now) j ≡ Some r → result ≡ r.sent }
    {
        self.receivers[j].sent
    }

    /// The number of datagrams lost for receiver `j`, which is below the number of receivers, since its
    /// queue was full.
    pub fn lost(&self, j: usize) -> u64
        requires { j < length (receivers_of self.now) }
        ensures { (r : Receiver) → slice_get (receivers_of self.now) j ≡ Some r → result ≡ r.lost }
    {
        self.receivers[j].lost
    }

    /// The number of sends to receiver `j`, which is below the number of receivers, that failed.
    pub fn failed(&self, j: usize) -> u64
        requires { j < length (receivers_of self.now) }
        ensures { (r : Receiver) → slice_get (receivers_of self.now) j ≡ Some r → result ≡ r.failed }
    {
        self.receivers[j].failed
    }

    /// The number of datagrams in the queue of receiver `j`, which is below the number of receivers.
    pub fn queued(&self, j: usize) -> u64
        requires { j < length (receivers_of self.now) }
        ensures { (r : Receiver) → slice_get (receivers_of self.now) j ≡ Some r → result ≡ length (queued r) }
    {
        u64::from(self.receivers[j].queue.queued())
    }
}

/// The answer of a turn in which nothing came.
fn turn_of(moved: bool) -> Turn
    ensures { result ≡ (if moved then Moved else Idle) }
{
    if moved { Turn::Moved } else { Turn::Idle }
}
