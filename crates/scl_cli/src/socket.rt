//! The UDP socket of the real outside. No call of it waits for a peer; one that finds no datagram waits up to a
//! millisecond for the next.
ghost use Rattle.std.specs.Prelude.{◌≤◌, length, IfOk};

use mio::net::UdpSocket;
use mio::{Events, Interest, Poll, Token};
use std::alloc::Global;
use std::io::{self, ErrorKind};
use std::net::{self, Net, SocketAddr};
use std::time::Duration;

/// How many milliseconds a call for a datagram waits for one: an idle program makes about a thousand such calls a second.
const PATIENCE: u64 = 1;

/// How many events one wait takes: the socket is the only source.
const EVENTS: usize = 1;

/// The events of a wait: the only memory that the socket takes. `AllocError` where there is none.
pub fn events_for(alloc: Global) -> io::Result<Events<Global>> {
    Ok(Events::with_capacity(alloc, EVENTS)?)
}

/// A socket that doesn't block, and the wait for its next datagram.
#[derive(Drop)]
pub struct Socket {
    udp: UdpSocket,
    poll: Poll,
}

impl Socket {
    /// A socket with this local address: an IP address or a host's name, and a port. An error where the system refuses
    /// one of the calls.
    pub fn bind<N: Net>(net: &N, local: &str) -> io::Result<Socket> {
        let inner = net::UdpSocket::bind(net, local)?;
        inner.set_nonblocking(true)?;
        let mut udp = UdpSocket::from_std(inner);
        let poll = Poll::new(net)?;
        poll.registry()
            .register(&mut udp, Token(0), Interest::READABLE)?;
        Ok(Socket { udp, poll })
    }

    /// The next datagram, as much of it as fits the buffer. `WouldBlock` where none came within a millisecond.
    pub fn receive(&mut self, events: &mut Events<Global>, buf: &mut [u8]) -> io::Result<usize>
        ensures { IfOk result (λ n. n ≤ length buf.new) }
    {
        match self.take(buf) {
            Err(error) if error.kind() == ErrorKind::WouldBlock => {
                self.poll
                    .poll(events, Some(Duration::from_millis(PATIENCE)))?;
                self.take(buf)
            }
            answer => answer,
        }
    }

    /// The next datagram, if one is there; a call that a signal interrupted is made again.
    fn take(&self, buf: &mut [u8]) -> io::Result<usize>
        ensures { IfOk result (λ n. n ≤ length buf.new) }
    {
        for _ in 0..u64::MAX {
            match self.udp.recv_from(buf) {
                Ok((count, _)) => return Ok(count),
                Err(error) if error.kind() == ErrorKind::Interrupted => {}
                Err(error) => return Err(error),
            }
        }
        Err(io::Error::from(ErrorKind::Interrupted))
    }

    /// Sends these bytes as one datagram. `WouldBlock` where the system has no room for it now.
    pub fn send(&self, bytes: &[u8], peer: SocketAddr) -> io::Result<()> {
        for _ in 0..u64::MAX {
            match self.udp.send_to(bytes, peer) {
                Ok(_) => return Ok(()),
                Err(error) if error.kind() == ErrorKind::Interrupted => {}
                Err(error) => return Err(error),
            }
        }
        Err(io::Error::from(ErrorKind::Interrupted))
    }
}
