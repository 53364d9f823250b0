//! Datagrams on their way to one peer.
ghost use Rattle.std.specs.Prelude.{◌≡◌, ◌≤◌, ◌<◌, ◌↔◌, ◌++◌, ◌∷◌, [], false, length, IsOk, OnOk, IfOk, IfErr};
ghost use Rattle.std.specs.Rc.{rc_slice_items};

use circular_buffer::HeapCircularBuffer;
use scl_outside::{Outside, SendOut};
use std::alloc::{AllocError, Global};
use std::rc::RcSlice;

/// What a poll of a queue did.
#[derive(Clone, Copy, Debug, PartialEq, Eq)]
pub struct Flushed {
    /// The link wasn't ready in this call.
    pub pending: bool,
    /// The number of datagrams that were sent.
    pub sent: u32,
    /// The number of sends that failed, each of which dropped its datagram.
    pub failed: u32,
}

/// A queue of datagrams to one peer.
#[derive(Drop)]
pub struct SendFuture {
    pub(crate) peer: usize,
    queue: HeapCircularBuffer<RcSlice<u8>>,
    ghost within: { length queue.items ≤ queue.capacity },
    ghost depth: { queue.capacity ≤ 4096 },
}

impl SendFuture {
    ghost use Rattle.polled_datagrams.specs.Sending.{queue_of, depth_of, KeepsPeer, Polls, drop_front};

    /// An empty queue to this peer, which holds at most `depth` datagrams, 1 to 4,096. `AllocError` where
    /// memory ran out; no later call takes any.
    pub fn new(alloc: Global, peer: usize, depth: u16) -> Result<SendFuture, AllocError>
        requires some { 1 ≤ depth }
        requires most { depth ≤ 4096 }
        ensures { IfOk result (λ f. (f.peer ≡ peer) × (depth_of f ≡ depth) × (queue_of f ≡ [])) }
    {
        Ok(SendFuture {
            peer,
            queue: HeapCircularBuffer::with_capacity(alloc, usize::from(depth))?,
        })
    }

    /// Puts a datagram at the end of the queue. Gives it back where the queue holds `depth` datagrams, and
    /// the queue is then as before.
    pub fn try_put(&mut self, datagram: RcSlice<u8>) -> Result<(), RcSlice<u8>>
        ensures variant { IsOk result ↔ (length (queue_of self.old) < depth_of self.old) }
        ensures put { OnOk result (queue_of self.new ≡ queue_of self.old ++ rc_slice_items datagram ∷ []) }
        ensures full { IfErr result (λ back. (back ≡ datagram) × (queue_of self.new ≡ queue_of self.old)) }
        ensures keeps { KeepsPeer self.old self.new }
    {
        self.queue.try_push_back(datagram)
    }

    /// Sends from the front of the queue until it is empty or the link isn't ready. The peer's number is
    /// below `out.peers()`.
    pub fn poll<O: Outside>(&mut self, out: &mut O) -> Flushed
        requires { self.old.peer < (O.meaning out.old).wire.peers }
        ensures polled { Polls self.old.peer (queue_of self.old) result (queue_of self.new)
            (O.meaning out.old) (O.meaning out.new) }
        ensures keeps { KeepsPeer self.old self.new }
    {
        let mut flushed = Flushed {
            pending: false,
            sent: 0,
            failed: 0,
        };
        while let Some(datagram) = self.queue.front() {
            match out.send(self.peer, datagram.as_slice()) {
                SendOut::Sent => flushed.sent += 1,
                SendOut::Failed => flushed.failed += 1,
                SendOut::NotReady => {
                    flushed.pending = true;
                    return flushed;
                }
            }
            self.queue.pop_front();
        }
        flushed
    }

    /// The number of datagrams in the queue.
    pub fn queued(&self) -> u16
        ensures { result ≡ length (queue_of self.now) }
    {
        self.queue.len() as u16
    }

    /// Drops the datagram at the front of the queue unsent; false where there is none.
    pub fn skip(&mut self) -> bool
        ensures none { (result ≡ false) ↔ (queue_of self.old ≡ []) }
        ensures dropped { queue_of self.new ≡ drop_front (queue_of self.old) }
        ensures keeps { KeepsPeer self.old self.new }
    {
        self.queue.pop_front().is_some()
    }
}
