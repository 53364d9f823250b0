//! Outsides in memory: what comes in, what links answer, and which addresses are named.
use super::*;
use std::alloc::Global;

/// Adds a peer, where there is room for one more.
fn join<O: Outside>(out: &mut O, peer: &str) -> BindOut {
    if out.peers() < 64 {
        out.join(peer)
    } else {
        BindOut::Failed
    }
}

/// Sends a datagram to a peer, where there is one with this number.
fn send<O: Outside>(out: &mut O, peer: usize, bytes: &[u8]) -> SendOut {
    if peer < out.peers() {
        out.send(peer, bytes)
    } else {
        SendOut::Failed
    }
}

/// Reads into one byte.
fn read_one<O: Outside>(out: &mut O) -> ReadOut {
    out.read(&mut [0; 1])
}

/// Whether this was the datagram sent at this index.
fn has_sent(out: &OutsideMem, i: usize, peer: usize, bytes: &[u8]) -> bool {
    i < out.sent_count() && out.sent(i) == (peer, bytes)
}

/// The same of an outside that never fails.
fn has_surely_sent(out: &NeverFails, i: usize, peer: usize, bytes: &[u8]) -> bool {
    i < out.sent_count() && out.sent(i) == (peer, bytes)
}

/// A datagram, a moment without one, a failure, a datagram of two bytes, and the end; more is planned after
/// it.
fn inbound_of(alloc: Global) -> Result<Vec<Inbound>, Fail> {
    let mut inbound = Vec::new(alloc);
    inbound.push(Inbound::Datagram([1, 2, 3].to_vec(alloc)?))?;
    inbound.push(Inbound::NotReady)?;
    inbound.push(Inbound::Failed)?;
    inbound.push(Inbound::Datagram([4, 5].to_vec(alloc)?))?;
    inbound.push(Inbound::Closed)?;
    inbound.push(Inbound::Datagram([6].to_vec(alloc)?))?;
    Ok(inbound)
}

/// A link that isn't ready at first, then fails once, and sends from then on.
fn links_of(alloc: Global) -> Result<Vec<LinkPlan>, Fail> {
    let mut first = Vec::new(alloc);
    first.push(SendOut::NotReady)?;
    first.push(SendOut::Failed)?;
    let mut links = Vec::new(alloc);
    links.push(LinkPlan {
        first,
        later: SendOut::Sent,
    })?;
    Ok(links)
}

/// An outside with these plans, of whose calls that name an address the second fails.
fn outside_of(alloc: Global) -> Result<OutsideMem, Fail> {
    let duct = DuctMem::new(alloc, &[9], &[], &[], &[], 9)?;
    Ok(OutsideMem::new(alloc, duct, inbound_of(alloc)?, links_of(alloc)?, &[1], 9)?)
}

#[test]
fn datagrams_come_in_order_until_the_wire_is_closed(rt: HostRuntime) -> Result<(), Fail> {
    let mut outside = outside_of(rt.alloc())?;
    let wanted = [
        (RecvOut::Got(2), [1, 2]),
        (RecvOut::NotReady, [0, 0]),
        (RecvOut::Failed, [0, 0]),
        (RecvOut::Got(2), [4, 5]),
        (RecvOut::Closed, [0, 0]),
        (RecvOut::Closed, [0, 0]),
    ];
    for (answer, bytes) in wanted {
        let mut buf = [0u8; 2];
        assert_eq!(rt; outside.recv(&mut buf), answer);
        assert_eq!(rt; buf, bytes);
    }
    assert_eq!(rt; read_one(&mut outside), ReadOut::Got(1));
    assert!(rt; outside.told());
    Ok(())
}

#[test]
fn each_link_answers_as_it_is_planned(rt: HostRuntime) -> Result<(), Fail> {
    let mut outside = outside_of(rt.alloc())?;
    let named = [
        outside.bind("a"),
        join(&mut outside, "b"),
        join(&mut outside, "c"),
        join(&mut outside, "d"),
    ];
    assert_eq!(rt;
        named,
        [
            BindOut::Bound,
            BindOut::Failed,
            BindOut::Bound,
            BindOut::Bound
        ]
    );
    assert_eq!(rt; outside.peers(), 2);
    let wanted = [
        (0, SendOut::NotReady),
        (1, SendOut::Sent),
        (0, SendOut::Failed),
        (0, SendOut::Sent),
        (0, SendOut::Sent),
        (1, SendOut::Sent),
    ];
    for (number, (peer, answer)) in wanted.iter().enumerate() {
        assert_eq!(rt; send(&mut outside, *peer, &[number as u8, 7]), *answer);
    }
    let sent = [(1, 1), (0, 3), (0, 4), (1, 5)];
    assert_eq!(rt; outside.sent_count(), sent.len());
    for (i, (peer, number)) in sent.iter().enumerate() {
        assert!(rt; has_sent(&outside, i, *peer, &[*number, 7]));
    }
    assert!(rt; outside.told());
    Ok(())
}

#[test]
fn what_fails_in_a_plan_is_not_ready_where_nothing_fails(rt: HostRuntime) -> Result<(), Fail> {
    let alloc = rt.alloc();
    let mut outside = NeverFails::new(alloc, &[9], &[], 8)?.with_wire(
        inbound_of(alloc)?,
        links_of(alloc)?,
    );
    let wanted = [
        RecvOut::Got(3),
        RecvOut::NotReady,
        RecvOut::NotReady,
        RecvOut::Got(2),
        RecvOut::Closed,
    ];
    for answer in wanted {
        assert_eq!(rt; outside.recv(&mut [0; 4]), answer);
    }
    assert_eq!(rt; outside.bind("a"), BindOut::Bound);
    assert_eq!(rt; join(&mut outside, "b"), BindOut::Bound);
    for answer in [SendOut::NotReady, SendOut::NotReady, SendOut::Sent] {
        assert_eq!(rt; send(&mut outside, 0, &[5]), answer);
    }
    assert_eq!(rt; outside.sent_count(), 1);
    assert!(rt; has_surely_sent(&outside, 0, 0, &[5]));
    assert!(rt; outside.told());
    Ok(())
}

#[test]
fn without_a_plan_nothing_comes_and_all_is_sent(rt: HostRuntime) -> Result<(), Fail> {
    let mut outside = NeverFails::new(rt.alloc(), &[], &[], 4)?;
    assert_eq!(rt; outside.recv(&mut [0; 4]), RecvOut::NotReady);
    assert_eq!(rt; join(&mut outside, "b"), BindOut::Bound);
    assert_eq!(rt; send(&mut outside, 0, &[5, 6]), SendOut::Sent);
    assert!(rt; has_surely_sent(&outside, 0, 0, &[5, 6]));
    assert!(rt; outside.told());
    Ok(())
}

/// Makes one call of a kind, with a text or a datagram of one byte.
fn call(outside: &mut OutsideMem, kind: u8) -> bool {
    match kind {
        0 => outside.bind("a") == BindOut::Bound,
        1 => join(outside, "b") == BindOut::Bound,
        2 => outside.recv(&mut [0; 4]) == RecvOut::NotReady,
        _ => send(outside, 0, &[1]) == SendOut::Sent,
    }
}

#[test]
fn one_item_past_the_room_of_a_record_ends_the_telling(rt: HostRuntime) -> Result<(), Fail> {
    let alloc = rt.alloc();
    for kind in 0..4 {
        let duct = DuctMem::new(alloc, &[], &[], &[], &[], 4)?;
        let mut outside = OutsideMem::new(alloc, duct, Vec::new(alloc), Vec::new(alloc), &[], 2)?;
        if kind == 3 {
            assert_eq!(rt; join(&mut outside, "b"), BindOut::Bound);
        }
        for told in [true, true, false] {
            assert!(rt; call(&mut outside, kind), "at kind {kind}");
            assert_eq!(rt; outside.told(), told, "at kind {kind}");
        }
        assert_eq!(rt; outside.sent_count(), if kind == 3 { 2 } else { 0 });
    }
    Ok(())
}

#[test]
fn one_byte_past_the_room_of_a_record_ends_the_telling(rt: HostRuntime) -> Result<(), Fail> {
    let alloc = rt.alloc();
    for (bytes, told) in [([1, 2].as_slice(), true), ([1, 2, 3].as_slice(), false)] {
        let duct = DuctMem::new(alloc, &[], &[], &[], &[], 4)?;
        let mut outside = OutsideMem::new(alloc, duct, Vec::new(alloc), Vec::new(alloc), &[], 3)?;
        assert_eq!(rt; join(&mut outside, "b"), BindOut::Bound);
        assert_eq!(rt; send(&mut outside, 0, &[9]), SendOut::Sent);
        assert_eq!(rt; send(&mut outside, 0, bytes), SendOut::Sent);
        assert_eq!(rt; outside.told(), told);
        assert!(rt; has_sent(&outside, 0, 0, &[9]));
    }
    Ok(())
}
