//! `send` over an outside in memory, with the codestream that capture B carries.
use super::failures::codestream_of_b;
use super::live::{Wire, run_live};
use super::relays::datagrams;
use super::*;
use scl_outside::{LinkPlan, Outside, SendOut};

/// The words of a sender whose datagrams have at most 110 bytes and are given up after three times.
const SEND: [&str; 11] = [
    "send", "110", "plain", "96", "1", "0", "0", "3600", "3", "l", "a",
];

/// How a run is tried: the answers of the link, first some and then one for all others, and the
/// reads, the writes and the calls that name an address that fail.
#[derive(Clone, Copy)]
struct Plan<'a> {
    first: &'a [SendOut],
    later: SendOut,
    bad_reads: &'a [u64],
    bad_writes: &'a [u64],
    bad_binds: &'a [u64],
}

/// A link that is always ready, and no call that fails.
const READY: Plan<'static> = Plan {
    first: &[],
    later: SendOut::Sent,
    bad_reads: &[],
    bad_writes: &[],
    bad_binds: &[],
};

/// Sends the codestream as planned: the status, and the object that it was sent over.
fn sends(rt: &impl Abort, alloc: Global, plan: Plan<'_>) -> Result<(u8, OutsideMem), Fail> {
    let input = codestream_of_b(rt, alloc)?;
    let duct = DuctMem::new(
        alloc,
        &input,
        &[50, 50, 50, 50, 50, 50, 50, 50],
        plan.bad_reads,
        plan.bad_writes,
        100_000,
    )?;
    let mut links = Vec::new(alloc);
    links.push(LinkPlan {
        first: plan.first.to_vec(alloc)?,
        later: plan.later,
    })?;
    let wire = Wire {
        entries: Vec::new(alloc),
        links,
        bad_binds: plan.bad_binds,
    };
    let (status, out) = run_live(alloc, &SEND, duct, wire)?;
    assert!(rt; out.told());
    Ok((status, out))
}

/// Whether the datagrams sent are those of the cut, but for the one with this index.
fn are_sent_but(out: &OutsideMem, lost: usize) -> bool {
    let mut at = 0;
    for (i, datagram) in datagrams().iter().enumerate() {
        if i != lost {
            if at >= out.sent_count() || out.sent(at) != (0, *datagram) {
                return false;
            }
            at += 1;
        }
    }
    at == out.sent_count()
}

#[test]
fn a_peer_that_is_ready_gets_all(rt: HostRuntime) -> Result<(), Fail> {
    let (status, out) = sends(&rt, rt.alloc(), READY)?;
    assert_eq!(rt; status, 0);
    assert!(rt; are_sent_but(&out, 5));
    assert_eq!(rt;
        out.written(),
        b"SEND datagrams=5 sent=5 lost=0 failed=0\n".as_slice()
    );
    let never = Plan {
        later: SendOut::NotReady,
        ..READY
    };
    let (status, out) = sends(&rt, rt.alloc(), never)?;
    assert_eq!(rt; status, 0);
    assert_eq!(rt; out.sent_count(), 0);
    assert_eq!(rt;
        out.written(),
        b"SEND datagrams=5 sent=0 lost=5 failed=0\n".as_slice()
    );
    Ok(())
}

#[test]
fn each_datagram_may_fail_or_be_lost_alone(rt: HostRuntime) -> Result<(), Fail> {
    let alloc = rt.alloc();
    for place in 0..5 {
        let mut fails = Vec::new(alloc);
        let mut loses = Vec::new(alloc);
        for _ in 0..place {
            fails.push(SendOut::Sent)?;
            loses.push(SendOut::Sent)?;
        }
        fails.push(SendOut::Failed)?;
        for _ in 0..3 {
            loses.push(SendOut::NotReady)?;
        }
        let rows: [(&[SendOut], &[u8]); 2] = [
            (&fails, b"SEND datagrams=5 sent=4 lost=0 failed=1\n"),
            (&loses, b"SEND datagrams=5 sent=4 lost=1 failed=0\n"),
        ];
        for (first, line) in rows {
            let (status, out) = sends(&rt, alloc, Plan { first, ..READY })?;
            assert_eq!(rt; status, 0, "at {place}");
            assert!(rt; are_sent_but(&out, place), "at {place}");
            assert_eq!(rt; out.written(), line, "at {place}");
        }
    }
    Ok(())
}

#[test]
fn a_call_of_send_that_fails_ends_the_run(rt: HostRuntime) -> Result<(), Fail> {
    for place in 0..8 {
        let bad = [place];
        let plan = Plan {
            bad_reads: &bad,
            ..READY
        };
        let (status, out) = sends(&rt, rt.alloc(), plan)?;
        assert_eq!(rt; status, 3, "at {place}");
        assert_eq!(rt; out.noted(), b"scl: read fault\n".as_slice());
        assert!(rt; out.written().is_empty() && out.sent_count() < 5);
    }
    for place in 0..2 {
        let bad = [place];
        let plan = Plan {
            bad_binds: &bad,
            ..READY
        };
        let (status, out) = sends(&rt, rt.alloc(), plan)?;
        assert_eq!(rt; status, 5, "at {place}");
        assert_eq!(rt; out.noted(), b"scl: wire fault\n".as_slice());
        assert!(rt; out.written().is_empty() && out.sent_count() == 0);
    }
    let plan = Plan {
        bad_writes: &[0],
        ..READY
    };
    let (status, out) = sends(&rt, rt.alloc(), plan)?;
    assert_eq!(rt; status, 4);
    assert_eq!(rt; out.noted(), b"scl: write fault\n".as_slice());
    assert!(rt; out.written().is_empty() && are_sent_but(&out, 5));
    Ok(())
}
