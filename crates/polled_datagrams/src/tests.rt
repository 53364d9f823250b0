//! Both states over an outside in memory.
use super::*;
use scl_outside::{BindOut, DuctMem, Inbound, LinkPlan, Outside, OutsideMem, SendOut};
use std::alloc::Global;
use std::rc::RcSlice;
use std::test::Fail;

/// An outside on which these come in and whose first link answers so.
fn outside_of(alloc: Global, inbound: Vec<Inbound>, first: &[SendOut]) -> Result<OutsideMem, Fail> {
    let mut links = Vec::new(alloc);
    links.push(LinkPlan {
        first: first.to_vec(alloc)?,
        later: SendOut::Sent,
    })?;
    let duct = DuctMem::new(alloc, &[], &[], &[], &[], 20_000)?;
    Ok(OutsideMem::new(alloc, duct, inbound, links, &[], 20_000)?)
}

/// Adds the first peer.
fn join(out: &mut OutsideMem) -> bool {
    out.peers() < 64 && out.join("a") == BindOut::Bound
}

/// Polls a queue to the first peer, where there is one.
fn poll(queue: &mut SendFuture, out: &mut OutsideMem) -> Flushed {
    if queue.peer < out.peers() {
        return queue.poll(out);
    }
    Flushed {
        pending: false,
        sent: 0,
        failed: 0,
    }
}

/// Whether this was the datagram sent at this index.
fn has_sent(out: &OutsideMem, i: usize, peer: usize, bytes: &[u8]) -> bool {
    i < out.sent_count() && out.sent(i) == (peer, bytes)
}

#[test]
fn a_poll_answers_as_the_wire_does(rt: HostRuntime) -> Result<(), Fail> {
    let alloc = rt.alloc();
    let mut inbound = Vec::new(alloc);
    inbound.push(Inbound::Datagram([1, 2, 3].to_vec(alloc)?))?;
    inbound.push(Inbound::NotReady)?;
    inbound.push(Inbound::Datagram([5; 9001].to_vec(alloc)?))?;
    inbound.push(Inbound::Datagram([5; 9002].to_vec(alloc)?))?;
    inbound.push(Inbound::Datagram(Vec::new(alloc)))?;
    inbound.push(Inbound::Failed)?;
    inbound.push(Inbound::Closed)?;
    let mut out = outside_of(alloc, inbound, &[])?;
    let mut receive = RecvFuture::new(alloc)?;
    let wanted = [
        (Polled::Ready(3), 3),
        (Polled::Pending, 0),
        (Polled::Ready(9001), 9001),
        (Polled::Ready(9001), 9001),
        (Polled::Ready(0), 0),
        (Polled::Failed, 0),
        (Polled::Ended, 0),
    ];
    for (answer, len) in wanted {
        assert_eq!(rt; receive.poll(&mut out), answer);
        assert_eq!(rt; receive.bytes().len(), len);
        if len == 3 {
            assert_eq!(rt; receive.bytes(), [1, 2, 3].as_slice());
        }
    }
    assert!(rt; out.told());
    Ok(())
}

#[test]
fn a_queue_is_sent_in_order_as_its_link_is_ready(rt: HostRuntime) -> Result<(), Fail> {
    let alloc = rt.alloc();
    let answers = [
        SendOut::NotReady,
        SendOut::Sent,
        SendOut::Failed,
        SendOut::NotReady,
    ];
    let mut out = outside_of(alloc, Vec::new(alloc), &answers)?;
    assert!(rt; join(&mut out));
    let mut queue = SendFuture::new(alloc, 0, 3)?;
    for byte in 1..4 {
        assert!(rt; queue.try_put(RcSlice::from_slice(alloc, &[byte])?).is_ok());
    }
    match queue.try_put(RcSlice::from_slice(alloc, &[4])?) {
        Ok(()) => assert!(rt; false, "a full queue takes no more"),
        Err(back) => assert_eq!(rt; back.as_slice(), [4].as_slice()),
    }
    let wanted = [
        (true, 0, 0, 3),
        (true, 1, 1, 1),
        (false, 1, 0, 0),
        (false, 0, 0, 0),
    ];
    for (pending, sent, failed, left) in wanted {
        let flushed = Flushed {
            pending,
            sent,
            failed,
        };
        assert_eq!(rt; poll(&mut queue, &mut out), flushed);
        assert_eq!(rt; queue.queued(), left);
    }
    assert_eq!(rt; out.sent_count(), 2);
    assert!(rt; has_sent(&out, 0, 0, &[1]));
    assert!(rt; has_sent(&out, 1, 0, &[3]));
    assert!(rt; out.told());
    Ok(())
}

#[test]
fn the_front_is_skipped_unsent(rt: HostRuntime) -> Result<(), Fail> {
    let alloc = rt.alloc();
    let mut out = outside_of(alloc, Vec::new(alloc), &[])?;
    assert!(rt; join(&mut out));
    let mut queue = SendFuture::new(alloc, 0, 2)?;
    assert!(rt; !queue.skip());
    for byte in 1..3 {
        assert!(rt; queue.try_put(RcSlice::from_slice(alloc, &[byte])?).is_ok());
    }
    assert!(rt; queue.skip());
    assert_eq!(rt; poll(&mut queue, &mut out).sent, 1);
    assert!(rt; has_sent(&out, 0, 0, &[2]));
    assert!(rt; out.told());
    Ok(())
}
