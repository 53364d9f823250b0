//! Codestreams that are sent, over an outside in memory.
use super::*;
use packetiser::PackPlan;
use scl_outside::{DuctMem, LinkPlan, Outside, OutsideMem, SendOut};
use scl_run::finish;
use std::alloc::Global;
use std::process::Abort;
use std::test::Fail;

/// The main header of a 3 × 1 image with three precincts of one code-block each, with Psot 0.
const HEAD: [u8; 90] = [
    0xFF, 0x4F, 0xFF, 0x51, 0x00, 0x29, 0x40, 0x00, 0x00, 0x00, 0x00, 0x03, 0x00, 0x00, 0x00, 0x01,
    0x00, 0x00, 0x00, 0x00, 0x00, 0x00, 0x00, 0x00, 0x00, 0x00, 0x00, 0x03, 0x00, 0x00, 0x00, 0x01,
    0x00, 0x00, 0x00, 0x00, 0x00, 0x00, 0x00, 0x00, 0x00, 0x01, 0x07, 0x01, 0x01, 0xFF, 0x50, 0x00,
    0x08, 0x00, 0x02, 0x00, 0x00, 0x00, 0x00, 0xFF, 0x52, 0x00, 0x0D, 0x01, 0x03, 0x00, 0x01, 0x00,
    0x00, 0x04, 0x04, 0x40, 0x01, 0x00, 0xFF, 0x5C, 0x00, 0x04, 0x40, 0x48, 0xFF, 0x90, 0x00, 0x0A,
    0x00, 0x00, 0x00, 0x00, 0x00, 0x00, 0x00, 0x01, 0xFF, 0x93,
];

/// A codestream of three packets of 102 bytes each, with these bytes after them.
fn three(alloc: Global, end: &[u8]) -> Result<Vec<u8>, Fail> {
    let mut bytes = Vec::from_slice(alloc, &HEAD)?;
    for fill in [0x11u8, 0x22, 0x33] {
        bytes.extend_from_slice(&[0xEF, 0x64])?;
        for _ in 0..100 {
            bytes.push(fill)?;
        }
    }
    bytes.extend_from_slice(end)?;
    Ok(bytes)
}

/// How a run is tried: the answers of the link, first some and then one for all others, and the reads and the calls that
/// name an address that fail; and what it must do: its status, its line, what is noted, and how many datagrams go out.
#[derive(Drop)]
struct Case {
    first: &'static [SendOut],
    later: SendOut,
    bad_reads: &'static [u64],
    bad_binds: &'static [u64],
    status: u8,
    line: &'static str,
    noted: &'static str,
    sent: usize,
}

/// A run to the end of its input.
fn finished(first: &'static [SendOut], later: SendOut, line: &'static str, sent: usize) -> Case {
    Case {
        first,
        later,
        bad_reads: &[],
        bad_binds: &[],
        status: 0,
        line,
        noted: "",
        sent,
    }
}

/// A run that ends before it, over a link that is always ready.
fn stopped(
    bad_reads: &'static [u64],
    bad_binds: &'static [u64],
    (status, noted): (u8, &'static str),
    sent: usize,
) -> Case {
    Case {
        first: &[],
        later: SendOut::Sent,
        bad_reads,
        bad_binds,
        status,
        line: "",
        noted,
        sent,
    }
}

/// The status of a run and the object that it was made over. Datagrams have at most 110 bytes, and are given up after
/// three times.
fn run_on(alloc: Global, input: &[u8], case: &Case) -> Result<(u8, OutsideMem), Fail> {
    let duct = DuctMem::new(alloc, input, &[7, 90], case.bad_reads, &[], 100_000)?;
    let mut links = Vec::new(alloc);
    links.push(LinkPlan {
        first: case.first.to_vec(alloc)?,
        later: case.later,
    })?;
    let inbound = Vec::new(alloc);
    let mut out = OutsideMem::new(alloc, duct, inbound, links, case.bad_binds, 100_000)?;
    let plan = PackPlan::new(110, false, 96, 1, 0, 0, 3600).ok_or("a plan")?;
    plan.is_plan();
    if out.peers() != 0 {
        return Ok((u8::MAX, out));
    }
    let ending = send(alloc, Settings::new(plan, 3, "l", "a"), &mut out);
    let status = finish(ending, &mut out);
    Ok((status, out))
}

/// Whether the datagrams that went out to the peer have these codestream bytes at the front of the input.
fn carry_front(out: &OutsideMem, input: &[u8]) -> bool {
    let mut at = 0;
    for i in 0..out.sent_count() {
        let (to, bytes) = out.sent(i);
        if to != 0 || bytes.len() < 20 || input.len() - at < bytes.len() - 20 {
            return false;
        }
        let end = at + (bytes.len() - 20);
        if input[at..end] != bytes[20..] {
            return false;
        }
        at = end;
    }
    true
}

/// Tries a run.
fn tries(rt: &impl Abort, alloc: Global, input: &[u8], case: &Case) -> Result<OutsideMem, Fail> {
    let (status, out) = run_on(alloc, input, case)?;
    assert_eq!(rt; status, case.status);
    assert!(rt; out.written() == case.line.as_bytes());
    assert!(rt; out.noted() == case.noted.as_bytes());
    assert_eq!(rt; out.sent_count(), case.sent);
    assert!(rt; out.told());
    Ok(out)
}

const WAITS: [SendOut; 14] = [
    SendOut::NotReady,
    SendOut::NotReady,
    SendOut::Sent,
    SendOut::NotReady,
    SendOut::NotReady,
    SendOut::Sent,
    SendOut::NotReady,
    SendOut::NotReady,
    SendOut::Sent,
    SendOut::NotReady,
    SendOut::NotReady,
    SendOut::Sent,
    SendOut::NotReady,
    SendOut::NotReady,
];

const LOSES_AND_FAILS: [SendOut; 5] = [
    SendOut::NotReady,
    SendOut::NotReady,
    SendOut::NotReady,
    SendOut::NotReady,
    SendOut::Failed,
];

#[test]
fn each_datagram_is_counted_by_its_answers(rt: HostRuntime) -> Result<(), Fail> {
    let alloc = rt.alloc();
    let whole = three(alloc, &[0xFF, 0xD9])?;
    let all = "SEND datagrams=5 sent=5 lost=0 failed=0\n";
    let none = "SEND datagrams=5 sent=0 lost=5 failed=0\n";
    let some = "SEND datagrams=5 sent=3 lost=1 failed=1\n";
    let out = tries(&rt, alloc, &whole, &finished(&[], SendOut::Sent, all, 5))?;
    assert!(rt; carry_front(&out, &whole));
    tries(
        &rt,
        alloc,
        &whole,
        &finished(&[], SendOut::NotReady, none, 0),
    )?;
    tries(&rt, alloc, &whole, &finished(&WAITS, SendOut::Sent, all, 5))?;
    tries(
        &rt,
        alloc,
        &whole,
        &finished(&LOSES_AND_FAILS, SendOut::Sent, some, 3),
    )?;
    Ok(())
}

#[test]
fn what_was_fixed_before_a_fault_is_sent(rt: HostRuntime) -> Result<(), Fail> {
    let alloc = rt.alloc();
    let whole = three(alloc, &[0xFF, 0xD9])?;
    let wire_fault = (5, "scl: wire fault\n");
    let read_fault = (3, "scl: read fault\n");
    tries(&rt, alloc, &whole, &stopped(&[], &[0], wire_fault, 0))?;
    tries(&rt, alloc, &whole, &stopped(&[], &[1], wire_fault, 0))?;
    tries(&rt, alloc, &whole, &stopped(&[0], &[], read_fault, 0))?;
    tries(&rt, alloc, &whole, &stopped(&[2], &[], read_fault, 1))?;
    let cut = three(alloc, &[0xFF])?;
    let refused = (6, "scl: refused at 397: cut\n");
    let out = tries(&rt, alloc, &cut, &stopped(&[], &[], refused, 4))?;
    assert!(rt; carry_front(&out, &cut));
    Ok(())
}
