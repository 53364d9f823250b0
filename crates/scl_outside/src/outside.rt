//! A way in, a way out and a wire.
ghost use Rattle.std.specs.Prelude.{◌≡◌, ◌<◌, ◌≤◌, length};
ghost use Rattle.scl_outside.specs.WireAnswers.{FitsDatagram, Receives, Binds, Joins, Sends};

use crate::Duct;

/// The answer of a call that names an address.
#[derive(Clone, Copy, Debug, PartialEq, Eq)]
pub enum BindOut {
    /// The address was named.
    Bound,
    /// It couldn't be named.
    Failed,
}

/// The answer of a call for a datagram.
#[derive(Clone, Copy, Debug, PartialEq, Eq)]
pub enum RecvOut {
    /// A datagram came: this many bytes of it are at the front of the buffer.
    Got(usize),
    /// None is there now.
    NotReady,
    /// None will come.
    Closed,
    /// The call failed, and took nothing.
    Failed,
}

/// The answer of a call that sends a datagram.
#[derive(Clone, Copy, Debug, PartialEq, Eq, Drop)]
pub enum SendOut {
    /// The datagram went out.
    Sent,
    /// The link isn't ready, and nothing went out.
    NotReady,
    /// The call failed, and nothing went out.
    Failed,
}

/// The outside of a program that also receives and sends datagrams.
pub trait Outside: Duct {
    /// Names the local address.
    fn bind(&mut self, local: &str) -> BindOut
        ensures step { Binds (Self.meaning self.old) local.now result (Self.meaning self.new) };

    /// Adds a peer, whose number is the number of peers before, at most 64 in all.
    fn join(&mut self, peer: &str) -> BindOut
        requires { (Self.meaning self.old).wire.peers < 64 }
        ensures step { Joins (Self.meaning self.old) peer.now result (Self.meaning self.new) };

    /// Takes the next datagram into the front of `buf`, as much of it as fits; the rest of a longer one is
    /// lost.
    fn recv(&mut self, buf: &mut [u8]) -> RecvOut
        ensures fits { FitsDatagram result (length buf.old) }
        ensures step { Receives (Self.meaning self.old) result buf.new (Self.meaning self.new) };

    /// Sends these bytes to a peer, as one datagram. The peer's number is below `peers`.
    fn send(&mut self, peer: usize, bytes: &[u8]) -> SendOut
        requires { peer < (Self.meaning self.old).wire.peers }
        ensures step { Sends (Self.meaning self.old) peer bytes.now result (Self.meaning self.new) };

    /// The number of peers.
    fn peers(&self) -> usize
        ensures { result ≡ (Self.meaning self.now).wire.peers };
}
