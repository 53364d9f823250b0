//! The machine over readers and writers in memory: what waits, what is sent when, and what a broken output ends with.
use super::*;
use scl_outside::{BindOut, Outside, RecvOut, SendOut};
use std::cell::Cell;
use std::io::{self, ErrorKind, Read, Write};

/// A reader that gives one part a call, and notes how much had been sent when it was asked.
#[derive(Drop)]
struct Parts<'a> {
    parts: &'a [&'a [u8]],
    next: usize,
    sent: &'a Cell<usize>,
    sent_before_last: &'a Cell<usize>,
}

impl Read for Parts<'_> {
    fn read(&mut self, buf: &mut [u8]) -> io::Result<usize> {
        self.sent_before_last.set(self.sent.get());
        let Some(part) = self.parts.get(self.next) else {
            return Ok(0);
        };
        if part.len() > buf.len() {
            return Err(io::Error::from(ErrorKind::InvalidInput));
        }
        buf[..part.len()].copy_from_slice(part);
        self.next = self.next.saturating_add(1);
        Ok(part.len())
    }
}

/// A writer that counts the bytes that reach it, up to a limit.
#[derive(Drop)]
struct Counter<'a> {
    sent: &'a Cell<usize>,
    limit: usize,
}

impl Write for Counter<'_> {
    fn write(&mut self, bytes: &[u8]) -> io::Result<usize> {
        let sent = self.sent.get();
        if bytes.len() > self.limit.saturating_sub(sent) {
            return Err(io::Error::from(ErrorKind::BrokenPipe));
        }
        self.sent.set(sent.saturating_add(bytes.len()));
        Ok(bytes.len())
    }

    fn flush(&mut self) -> io::Result<()> {
        Ok(())
    }
}

#[test]
fn what_was_written_is_sent_before_the_input_is_waited_for(rt: HostRuntime) -> Result<(), Fail> {
    let sent = Cell::new(0);
    let seen = Cell::new(0);
    let parts: [&[u8]; 3] = [&CAPTURE_A[..50], &CAPTURE_A[50..115], &CAPTURE_A[115..]];
    for (count, wanted) in [(1, 0), (2, 111), (3, 139)] {
        sent.set(0);
        let input = Parts {
            parts: &parts[..count],
            next: 0,
            sent: &sent,
            sent_before_last: &seen,
        };
        let output = Counter {
            sent: &sent,
            limit: 1_000,
        };
        let mut machine = Machine::new(rt.alloc(), input, output, Vec::new(rt.alloc()), rt)?;
        let words = words_of(rt.alloc(), &["thin", "7"])?;
        let _ = run(rt.alloc(), &words, &mut machine);
        assert_eq!(rt; seen.get(), wanted, "after {count} parts");
    }
    Ok(())
}

#[test]
fn a_broken_output_ends_with_status_4(rt: HostRuntime) -> Result<(), Fail> {
    for (input, limit, wanted) in [
        (&CAPTURE_A[..], 1_000, 0),
        (&CAPTURE_A[..], 138, 4),
        (&CAPTURE_A[..120], 100, 4),
        (&CAPTURE_A[..120], 111, 6),
    ] {
        let sent = Cell::new(0);
        let output = Counter { sent: &sent, limit };
        let mut machine = Machine::new(rt.alloc(), input, output, Vec::new(rt.alloc()), rt)?;
        let words = words_of(rt.alloc(), &["thin", "7"])?;
        let status = run(rt.alloc(), &words, &mut machine);
        assert_eq!(rt; machine.finish(status), wanted, "at limit {limit}");
    }
    Ok(())
}

#[test]
fn a_socket_sends_and_receives_and_never_blocks(rt: HostRuntime) -> Result<(), Fail> {
    let input: &[u8] = &[];
    let alloc = rt.alloc();
    let mut machine = Machine::new(alloc, input, Vec::new(alloc), Vec::new(alloc), rt)?;
    assert_eq!(rt; machine.bind("no address"), BindOut::Failed);
    assert_eq!(rt; machine.bind("127.0.0.1:40917"), BindOut::Bound);
    assert!(rt; machine.peers() < 64);
    assert_eq!(rt; machine.join("no address"), BindOut::Failed);
    assert!(rt; machine.peers() < 64);
    assert_eq!(rt; machine.join("127.0.0.1:40917"), BindOut::Bound);
    assert_eq!(rt; machine.peers(), 1);
    let mut buf = [0u8; 4];
    assert_eq!(rt; machine.recv(&mut buf), RecvOut::NotReady);
    for (bytes, len) in [(&b"abc"[..], 3), (&b"defghi"[..], 4), (&b""[..], 0)] {
        assert!(rt; machine.peers() > 0);
        assert_eq!(rt; machine.send(0, bytes), SendOut::Sent);
        assert_eq!(rt; machine.recv(&mut buf), RecvOut::Got(len));
        assert!(rt; buf[..len] == bytes[..len]);
    }
    assert_eq!(rt; machine.recv(&mut buf), RecvOut::NotReady);
    let mut second = Machine::new(alloc, input, Vec::new(alloc), Vec::new(alloc), rt)?;
    assert_eq!(rt; second.bind("127.0.0.1:40917"), BindOut::Failed);
    Ok(())
}
