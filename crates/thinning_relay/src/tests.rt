//! Relays over an outside in memory.
use super::*;
use scl_outside::{BindOut, DuctMem, Inbound, LinkPlan, Outside, OutsideMem, SendOut};
use std::alloc::Global;
use std::test::Fail;

/// The first byte of the payload header of a Main. That of a Body is its RES.
const MAIN: u8 = 0xC4;

/// A well-formed datagram with this first byte of its payload header, and one codestream byte.
fn datagram(first: u8) -> [u8; 21] {
    [
        0x80, 0x60, 0, 1, 0, 0, 0, 0, 0, 0, 0, 1, first, 0, 0, 0, 0, 0, 0, 0, 0x55,
    ]
}

/// Entries for a Main and four Bodies of RES 7.
fn five(alloc: Global) -> Result<Vec<Inbound>, Fail> {
    let mut inbound = Vec::new(alloc);
    for first in [MAIN, 7, 7, 7, 7] {
        inbound.push(Inbound::Datagram(datagram(first).to_vec(alloc)?))?;
    }
    Ok(inbound)
}

/// A link that gives these answers and then this one.
fn link(alloc: Global, first: &[SendOut], later: SendOut) -> Result<LinkPlan, Fail> {
    Ok(LinkPlan {
        first: first.to_vec(alloc)?,
        later,
    })
}

/// An outside with these plans, and a peer for each of `count`.
fn outside_of(
    alloc: Global,
    inbound: Vec<Inbound>,
    links: Vec<LinkPlan>,
    count: usize,
) -> Result<OutsideMem, Fail> {
    let duct = DuctMem::new(alloc, &[], &[], &[], &[], 10_000)?;
    let mut out = OutsideMem::new(alloc, duct, inbound, links, &[], 10_000)?;
    for _ in 0..count {
        if out.peers() < 64 && out.join("peer") == BindOut::Failed {
            return Ok(out);
        }
    }
    Ok(out)
}

/// Takes a turn, where there is a peer for each receiver.
fn turn(relay: &mut Relay, out: &mut OutsideMem) -> Turn {
    if relay.receivers.len() <= out.peers() {
        relay.turn(out)
    } else {
        Turn::NoMemory
    }
}

/// Flushes each receiver, where there is a peer for each.
fn flush(relay: &mut Relay, out: &mut OutsideMem) -> bool {
    relay.receivers.len() <= out.peers() && relay.flush(out)
}

/// What was sent to, lost for, failed for and is queued for a receiver.
fn counts(relay: &Relay, j: usize) -> [u64; 4] {
    if j < relay.receivers.len() {
        [
            relay.sent(j),
            relay.lost(j),
            relay.failed(j),
            relay.queued(j),
        ]
    } else {
        [u64::MAX; 4]
    }
}

/// Whether this was the datagram sent at this index.
fn has_sent(out: &OutsideMem, i: usize, peer: usize, bytes: &[u8]) -> bool {
    i < out.sent_count() && out.sent(i) == (peer, bytes)
}

#[test]
fn each_receiver_is_served_by_its_own_link(rt: HostRuntime) -> Result<(), Fail> {
    let alloc = rt.alloc();
    let mut links = Vec::new(alloc);
    links.push(link(alloc, &[], SendOut::NotReady)?)?;
    links.push(link(alloc, &[], SendOut::Sent)?)?;
    links.push(link(alloc, &[SendOut::Sent, SendOut::Failed], SendOut::Sent)?)?;
    let mut out = outside_of(alloc, five(alloc)?, links, 3)?;
    let peer = Peer { limit: 7, depth: 1 };
    let mut relay = Relay::new(alloc, &[peer, peer, peer])?;
    for _ in 0..5 {
        assert_eq!(rt; turn(&mut relay, &mut out), Turn::Moved);
    }
    assert!(rt; !flush(&mut relay, &mut out));
    assert_eq!(rt; counts(&relay, 0), [0, 4, 0, 1]);
    assert_eq!(rt; counts(&relay, 1), [5, 0, 0, 0]);
    assert_eq!(rt; counts(&relay, 2), [4, 0, 1, 0]);
    assert_eq!(rt; relay.received(), 5);
    assert_eq!(rt; relay.refused(), 0);
    assert_eq!(rt; out.sent_count(), 9);
    assert!(rt; out.told());
    Ok(())
}

#[test]
fn each_receiver_gets_what_its_limit_keeps(rt: HostRuntime) -> Result<(), Fail> {
    let alloc = rt.alloc();
    let mut inbound = Vec::new(alloc);
    for first in [MAIN, 0, 5, 6, 7] {
        inbound.push(Inbound::Datagram(datagram(first).to_vec(alloc)?))?;
    }
    inbound.push(Inbound::Datagram([1, 2, 3].to_vec(alloc)?))?;
    let mut out = outside_of(alloc, inbound, Vec::new(alloc), 3)?;
    let mut relay = Relay::new(
        alloc,
        &[
            Peer { limit: 5, depth: 9 },
            Peer { limit: 7, depth: 9 },
            Peer { limit: 0, depth: 9 },
        ],
    )?;
    for _ in 0..6 {
        assert_eq!(rt; turn(&mut relay, &mut out), Turn::Moved);
    }
    assert_eq!(rt; turn(&mut relay, &mut out), Turn::Idle);
    for (j, sent) in [(0, 3), (1, 5), (2, 2)] {
        assert_eq!(rt; counts(&relay, j), [sent, 0, 0, 0]);
    }
    assert_eq!(rt; relay.received(), 6);
    assert_eq!(rt; relay.refused(), 1);
    assert!(rt; has_sent(&out, 2, 2, &datagram(MAIN)));
    assert!(rt; out.told());
    Ok(())
}

#[test]
fn a_turn_polls_each_queue_whatever_came(rt: HostRuntime) -> Result<(), Fail> {
    let alloc = rt.alloc();
    let mut inbound = Vec::new(alloc);
    inbound.push(Inbound::Datagram(datagram(MAIN).to_vec(alloc)?))?;
    inbound.push(Inbound::NotReady)?;
    inbound.push(Inbound::Failed)?;
    inbound.push(Inbound::NotReady)?;
    inbound.push(Inbound::NotReady)?;
    inbound.push(Inbound::Closed)?;
    let mut links = Vec::new(alloc);
    let busy = [SendOut::NotReady, SendOut::NotReady, SendOut::NotReady];
    links.push(link(alloc, &busy, SendOut::Sent)?)?;
    let mut out = outside_of(alloc, inbound, links, 1)?;
    let mut relay = Relay::new(alloc, &[Peer { limit: 7, depth: 1 }])?;
    let wanted = [
        (Turn::Moved, 1),
        (Turn::Idle, 1),
        (Turn::Failed, 1),
        (Turn::Moved, 0),
        (Turn::Idle, 0),
        (Turn::Ended, 0),
        (Turn::Ended, 0),
    ];
    for (answer, queued) in wanted {
        assert_eq!(rt; turn(&mut relay, &mut out), answer);
        assert_eq!(rt; counts(&relay, 0)[3], queued);
    }
    assert_eq!(rt; counts(&relay, 0), [1, 0, 0, 0]);
    assert!(rt; out.told());
    Ok(())
}
