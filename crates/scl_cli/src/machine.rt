//! The real outside: standard input, output and error, and one UDP socket. It tells no content, and counts its faults.
//!
//! It reads through a buffer, and gathers what is written: what is gathered goes out before the system is asked for
//! input or for a datagram, and at the end, so nothing is kept back while the program waits.
ghost use Rattle.std.specs.Prelude.{◌≡◌, ◌⊎◌, ◌≤◌, ◌<◌, ◌==◌, ℕ, true, [], length, IfOk};
ghost use Rattle.scl_outside.specs.Steps.{Counts};
ghost use Rattle.scl_cli.specs.MachineMeaning.{faults_at};

use crate::socket::{Socket, events_for};
use mio::Events;
use scl_outside::{BindOut, Duct, Outside, ReadOut, RecvOut, SendOut, WriteOut, are_bytes};
use std::alloc::Global;
use std::io::{self, BufReader, BufWriter, ErrorKind, Read, Write};
use std::net::{Net, SocketAddr, ToSocketAddrs};

/// How many bytes a read asks the system for.
const READ_LEN: usize = 65_536;

/// How many written bytes are gathered: more than what one read and a frame begun before it can give.
const WRITE_LEN: usize = 131_072;

/// The line for a write that failed.
const WRITE_FAULT: &[u8; 17] = b"scl: write fault\n";

/// Whether the output still takes bytes.
#[derive(Clone, Copy, Debug, PartialEq, Eq)]
enum Flow {
    Open,
    /// Gathered bytes couldn't be sent, and nobody was told yet.
    Broken,
    /// Bytes couldn't be sent, and the run or the user was told.
    Told,
}

/// The most peers that a run can have.
const MOST_PEERS: usize = 64;

/// A peer, and how many sends to it failed.
#[derive(Clone, Copy, Drop)]
pub struct Peer {
    address: SocketAddr,
    faults: u64,
}

/// The outside over a reader, a writer, a place for notes and a network.
#[derive(Drop)]
pub struct Machine<I, O: Write + Drop, E, N> {
    input: BufReader<I>,
    output: BufWriter<O>,
    notes: E,
    net: N,
    socket: Option<Socket>,
    events: Events<Global>,
    peers: Vec<Peer>,
    read_faults: u64,
    write_faults: u64,
    wire_faults: u64,
    flow: Flow,
}

impl<I: Read + Drop, O: Write + Drop, E: Write + Drop, N: Net + Drop> Machine<I, O, E, N> {
    /// The outside over these, without a socket and without peers, with a buffer of 65,536 bytes for reading and one of
    /// 131,072 for writing. An error where there is no memory; no later call takes any.
    pub fn new(alloc: Global, input: I, output: O, notes: E, net: N) -> io::Result<Self>
        ensures { IfOk result (λ m. m.peers.items ≡ []) }
    {
        Ok(Machine {
            input: BufReader::with_capacity(alloc, READ_LEN, input)?,
            output: BufWriter::with_capacity(alloc, WRITE_LEN, output)?,
            notes,
            net,
            socket: None,
            events: events_for(alloc)?,
            peers: Vec::with_capacity(alloc, MOST_PEERS)?,
            read_faults: 0,
            write_faults: 0,
            wire_faults: 0,
            flow: Flow::Open,
        })
    }

    /// Sends what was gathered, and answers the status of the program whose run ended with this one: 4, with its line
    /// noted, where bytes couldn't be sent and the run didn't know it.
    pub fn finish(&mut self, status: u8) -> u8
        ensures { (result ≡ status) ⊎ (result ≡ 4) }
    {
        self.flush();
        if self.flow == Flow::Broken {
            let _ = self.notes.write_all(WRITE_FAULT);
            self.flow = Flow::Told;
        }
        match self.flow {
            Flow::Open => status,
            Flow::Broken | Flow::Told => 4,
        }
    }
}

impl<I, O: Write + Drop, E, N> Machine<I, O, E, N> {
    /// Sends what was gathered. The next write tells the run that this failed, or else the end does.
    fn flush(&mut self)
        ensures read_faults { self.new.read_faults ≡ self.old.read_faults }
        ensures write_faults { self.new.write_faults ≡ self.old.write_faults }
        ensures wire_faults { self.new.wire_faults ≡ self.old.wire_faults }
        ensures peers { self.new.peers.items ≡ self.old.peers.items }
    {
        if self.flow == Flow::Open && self.output.flush().is_err() {
            self.flow = Flow::Broken;
        }
    }

    /// Counts an address that the system refused.
    fn fail_bind(&mut self) -> BindOut
        ensures failed { result ≡ BindOut.Failed }
        ensures read_faults { self.new.read_faults ≡ self.old.read_faults }
        ensures write_faults { self.new.write_faults ≡ self.old.write_faults }
        ensures wire_faults { Counts true self.old.wire_faults self.new.wire_faults }
        ensures peers { self.new.peers.items ≡ self.old.peers.items }
    {
        self.wire_faults = self.wire_faults.saturating_add(1);
        BindOut::Failed
    }
}

impl<I: Read, O: Write + Drop, E: Write, N> Duct for Machine<I, O, E, N> {
    ghost use Rattle.scl_cli.specs.MachineMeaning.{machine_meaning};

    ghost meaning = { λ m. machine_meaning m.read_faults m.write_faults m.wire_faults m.peers.items };

    fn read(&mut self, buf: &mut [u8]) -> ReadOut {
        if self.input.buffer().is_empty() {
            self.flush();
        }
        match read_through(&mut self.input, buf) {
            Ok(0) => ReadOut::End,
            Ok(count) => {
                are_bytes(buf);
                ReadOut::Got(count)
            }
            Err(_) => {
                self.read_faults = self.read_faults.saturating_add(1);
                ReadOut::Failed
            }
        }
    }

    fn write(&mut self, bytes: &[u8]) -> WriteOut {
        if self.flow != Flow::Open || self.output.write_all(bytes).is_err() {
            self.flow = Flow::Told;
            self.write_faults = self.write_faults.saturating_add(1);
            return WriteOut::Failed;
        }
        WriteOut::Done
    }

    fn note(&mut self, line: &[u8]) {
        if self.flow == Flow::Broken {
            self.flow = Flow::Told;
            let _ = self.notes.write_all(WRITE_FAULT);
        } else {
            let _ = self.notes.write_all(line);
        }
    }
}

impl<I: Read, O: Write + Drop, E: Write, N: Net> Outside for Machine<I, O, E, N> {
    fn bind(&mut self, local: &str) -> BindOut {
        match Socket::bind(&self.net, local) {
            Ok(socket) => {
                self.socket = Some(socket);
                BindOut::Bound
            }
            Err(_) => self.fail_bind(),
        }
    }

    fn join(&mut self, peer: &str) -> BindOut {
        let Some(address) = first_address(&self.net, peer) else {
            return self.fail_bind();
        };
        match self.peers.push(Peer { address, faults: 0 }) {
            Ok(()) => BindOut::Bound,
            Err(_) => self.fail_bind(),
        }
    }

    fn recv(&mut self, buf: &mut [u8]) -> RecvOut {
        self.flush();
        match receive(&mut self.socket, &mut self.events, buf) {
            Ok(count) => RecvOut::Got(count),
            Err(error) if error.kind() == ErrorKind::WouldBlock => RecvOut::NotReady,
            Err(_) => {
                self.wire_faults = self.wire_faults.saturating_add(1);
                RecvOut::Failed
            }
        }
    }

    fn send(&mut self, peer: usize, bytes: &[u8]) -> SendOut {
        match send(&self.socket, bytes, self.peers[peer].address) {
            Ok(()) => SendOut::Sent,
            Err(error) if error.kind() == ErrorKind::WouldBlock => SendOut::NotReady,
            Err(_) => {
                count_fault(&mut self.peers, peer);
                SendOut::Failed
            }
        }
    }

    fn peers(&self) -> usize {
        self.peers.len()
    }
}

/// Reads what one call of the system gives; a call that a signal interrupted is made again.
fn read_through<R: Read>(input: &mut R, buf: &mut [u8]) -> io::Result<usize>
    ensures { IfOk result (λ n. n ≤ length buf.new) }
{
    for _ in 0..u64::MAX {
        match input.read(buf) {
            Err(error) if error.kind() == ErrorKind::Interrupted => {}
            answer => return answer,
        }
    }
    Err(io::Error::from(ErrorKind::Interrupted))
}

/// The first address that a text names: an IP address or a host's name, and a port. None where it names none.
fn first_address<N: Net>(net: &N, text: &str) -> Option<SocketAddr> {
    text.to_socket_addrs(net).ok()?.next()
}

/// The next datagram of the socket; an error where none is bound.
fn receive(
    socket: &mut Option<Socket>,
    events: &mut Events<Global>,
    buf: &mut [u8],
) -> io::Result<usize>
    ensures { IfOk result (λ n. n ≤ length buf.new) }
{
    match socket {
        Some(socket) => socket.receive(events, buf),
        None => Err(io::Error::from(ErrorKind::NotConnected)),
    }
}

/// Counts a send to this peer that failed.
fn count_fault(peers: &mut Vec<Peer>, peer: usize)
    requires { peer < length peers.old.items }
    ensures count { length peers.new.items ≡ length peers.old.items }
    ensures faults { (j : ℕ) → Counts (peer == j) (faults_at peers.old.items j) (faults_at peers.new.items j) }
{
    let faults = peers[peer].faults;
    peers[peer].faults = faults.saturating_add(1);
}

/// Sends a datagram by the socket; an error where none is bound.
fn send(socket: &Option<Socket>, bytes: &[u8], peer: SocketAddr) -> io::Result<()> {
    match socket {
        Some(socket) => socket.send(bytes, peer),
        None => Err(io::Error::from(ErrorKind::NotConnected)),
    }
}
