//! A datagram on its way in.
ghost use Rattle.std.specs.Prelude.{◌≡◌, ◌≤◌, [], length, IfOk};

use scl_outside::{Outside, RecvOut};
use std::alloc::{AllocError, Global};

/// One byte more than the longest datagram that is read.
const BUFFER_LEN: usize = 9001;

/// The answer of a poll for a datagram.
#[derive(Clone, Copy, Debug, PartialEq, Eq)]
pub enum Polled {
    /// A datagram of this number of bytes; 9,001 represents any longer one.
    Ready(usize),
    /// None is there now.
    Pending,
    /// None will come.
    Ended,
    /// The call failed.
    Failed,
}

/// Room for one datagram.
#[derive(Drop)]
pub struct RecvFuture {
    buffer: Vec<u8>,
    len: usize,
    ghost room: { length buffer.items ≡ 9001 },
    ghost within: { len ≤ 9001 },
}

impl RecvFuture {
    ghost use Rattle.polled_datagrams.specs.Receiving.{bytes_of, PollsOne};

    /// Room for one datagram, and none there. `AllocError` where memory ran out; no later call takes any.
    pub fn new(alloc: Global) -> Result<RecvFuture, AllocError>
        ensures { IfOk result (λ f. bytes_of f ≡ []) }
    {
        Ok(RecvFuture {
            buffer: vec![in alloc; 0u8; BUFFER_LEN]?,
            len: 0,
        })
    }

    /// Makes one call for a datagram.
    pub fn poll<O: Outside>(&mut self, out: &mut O) -> Polled
        ensures polled { PollsOne (O.meaning out.old) result (bytes_of self.new) (O.meaning out.new) }
    {
        self.len = 0;
        match out.recv(&mut self.buffer) {
            RecvOut::Got(len) => {
                self.len = len;
                Polled::Ready(len)
            }
            RecvOut::NotReady => Polled::Pending,
            RecvOut::Closed => Polled::Ended,
            RecvOut::Failed => Polled::Failed,
        }
    }

    /// The datagram that the last poll got, of a longer one its first 9,001 bytes, and nothing where it got
    /// none.
    pub fn bytes(&self) -> &[u8]
        ensures { result.now ≡ bytes_of self.now }
    {
        &self.buffer[..self.len]
    }
}
