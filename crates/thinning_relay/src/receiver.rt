//! One receiver of a relay.
ghost use Rattle.std.specs.Prelude.{◌≡◌, ◌≤◌, ◌<◌, [], IfOk};

use polled_datagrams::SendFuture;
use scl_outside::Outside;
use std::alloc::{AllocError, Global};
use std::rc::RcSlice;

/// What is kept for a receiver, its queue, its share of the datagram that came, and its counts.
#[derive(Drop)]
pub struct Receiver {
    pub limit: u8,
    pub queue: SendFuture,
    pub share: Option<RcSlice<u8>>,
    pub sent: u64,
    pub lost: u64,
    pub failed: u64,
}

impl Receiver {
    ghost use Rattle.polled_datagrams.specs.Sending.{depth_of};
    ghost use Rattle.thinning_relay.specs.Receivers.{queued, FlushesOne, PutsShare};

    /// A receiver with this number, an empty queue and no counts. `AllocError` where memory ran out.
    pub fn new(alloc: Global, peer: usize, limit: u8, depth: u16) -> Result<Receiver, AllocError>
        requires some { 1 ≤ depth }
        requires most { depth ≤ 4096 }
        ensures number { IfOk result (λ r. r.queue.peer ≡ peer) }
        ensures limit { IfOk result (λ r. r.limit ≡ limit) }
        ensures queue { IfOk result (λ r. (depth_of r.queue ≡ depth) × (queued r ≡ [])) }
        ensures counts { IfOk result (λ r. (r.sent ≡ 0) × (r.lost ≡ 0) × (r.failed ≡ 0)) }
    {
        Ok(Receiver {
            limit,
            queue: SendFuture::new(alloc, peer, depth)?,
            share: None,
            sent: 0,
            lost: 0,
            failed: 0,
        })
    }

    /// Puts its share of a datagram into its queue, or loses it where the queue is full.
    pub fn put_share(&mut self)
        ensures { PutsShare self.old self.new }
    {
        let Some(datagram) = self.share.take() else {
            return;
        };
        match self.queue.try_put(datagram) {
            Ok(()) => {}
            Err(_) => self.lost = self.lost.saturating_add(1),
        }
    }

    /// Sends from its queue until that is empty or its link isn't ready. Answers whether a datagram was
    /// sent or failed.
    pub fn flush<O: Outside>(&mut self, out: &mut O) -> bool
        requires { self.old.queue.peer < (O.meaning out.old).wire.peers }
        ensures { FlushesOne self.old result self.new (O.meaning out.old) (O.meaning out.new) }
    {
        let flushed = self.queue.poll(out);
        self.sent = self.sent.saturating_add(u64::from(flushed.sent));
        self.failed = self.failed.saturating_add(u64::from(flushed.failed));
        flushed.sent > 0 || flushed.failed > 0
    }
}
