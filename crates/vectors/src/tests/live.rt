//! `recv` over an outside in memory, with a stream of three precincts.
use super::*;
use relays::{After, datagrams, inbound};
use scl_outside::{Inbound, LinkPlan, Outside};

/// What comes in on the wire, how the links answer, and which calls that name an address fail.
#[derive(Drop)]
pub struct Wire<'a> {
    pub entries: Vec<Inbound>,
    pub links: Vec<LinkPlan>,
    pub bad_binds: &'a [u64],
}

/// The status of a run over this wire, and the object that it ran over.
pub fn run_live(
    alloc: Global,
    texts: &[&str],
    duct: DuctMem,
    wire: Wire<'_>,
) -> Result<(u8, OutsideMem), AllocError> {
    let words = words_of(alloc, texts)?;
    let Wire {
        entries,
        links,
        bad_binds,
    } = wire;
    let mut out = OutsideMem::new(alloc, duct, entries, links, bad_binds, 100_000)?;
    if out.peers() != 0 {
        return Ok((u8::MAX, out));
    }
    let status = run(alloc, &words, &mut out);
    Ok((status, out))
}

/// The lines of `report` on the five datagrams.
pub fn reported(rt: &impl Abort, alloc: Global) -> Result<Vec<u8>, Fail> {
    let (status, out) = run_over(alloc, &["report", "96", "any", "16"], &CAPTURE_B, &[], &[])?;
    assert_eq!(rt; status, 0);
    Ok(Vec::from_slice(alloc, out.written())?)
}

#[test]
fn what_comes_is_reported(rt: HostRuntime) -> Result<(), Fail> {
    let alloc = rt.alloc();
    let report = reported(&rt, alloc)?;
    let cases: [(&str, After, &[u8]); 3] = [
        ("5", After::Nothing, b"RECV end=max in=5\n"),
        ("9", After::Closed, b"RECV end=closed in=5\n"),
        ("9", After::Nothing, b"RECV end=idle in=5\n"),
    ];
    for (max, after, last) in cases {
        let duct = DuctMem::new(alloc, &[], &[], &[], &[], 100_000)?;
        let wire = Wire {
            entries: inbound(alloc, after)?,
            links: Vec::new(alloc),
            bad_binds: &[],
        };
        let texts = ["recv", "96", "any", "16", max, "3", "l"];
        let (status, out) = run_live(alloc, &texts, duct, wire)?;
        assert_eq!(rt; status, 0);
        assert!(rt; out.noted().is_empty());
        assert!(rt; out.written().starts_with(&report));
        assert!(rt; out.written().ends_with(last));
        assert_eq!(rt; out.written().len(), report.len().wrapping_add(last.len()));
        assert!(rt; out.told());
    }
    Ok(())
}

/// The END line and the last line of `recv` where one more datagram came that is refused.
#[test]
fn what_is_no_datagram_counts_as_refused(rt: HostRuntime) -> Result<(), Fail> {
    let alloc = rt.alloc();
    for after in [After::ShortThenClosed, After::LongThenClosed] {
        let duct = DuctMem::new(alloc, &[], &[], &[], &[], 100_000)?;
        let wire = Wire {
            entries: inbound(alloc, after)?,
            links: Vec::new(alloc),
            bad_binds: &[],
        };
        let texts = ["recv", "96", "any", "16", "9", "3", "l"];
        let (status, out) = run_live(alloc, &texts, duct, wire)?;
        assert_eq!(rt; status, 0);
        let end =
            b"END kept=5 old=0 refused=1 unsupported=0 disagreed=0 broken=0\nRECV end=closed in=6\n";
        assert!(rt; out.written().ends_with(end));
        assert!(rt; out.told());
    }
    Ok(())
}

#[test]
fn a_wire_that_fails_ends_a_receiver(rt: HostRuntime) -> Result<(), Fail> {
    let alloc = rt.alloc();
    let texts = ["recv", "96", "any", "16", "9", "3", "l"];
    let report = reported(&rt, alloc)?;
    let all = datagrams();
    let cases: [(&[&[u8]], &[u64], &[u8]); 6] = [
        (&[], &[0], b"P stamp=0 pid=0 "),
        (&[], &[], b"P stamp=0 pid=0 "),
        (&all[..2], &[], b"P stamp=0 pid=0 "),
        (&all[..3], &[], b"P stamp=0 pid=1 "),
        (&all[..4], &[], b"P stamp=0 pid=2 "),
        (&all, &[], b"END kept=5 "),
    ];
    for (came, bad_binds, next) in cases {
        let mut entries = Vec::new(alloc);
        for datagram in came {
            entries.push(Inbound::Datagram(datagram.to_vec(alloc)?))?;
        }
        entries.push(Inbound::Failed)?;
        let duct = DuctMem::new(alloc, &[], &[], &[], &[], 100_000)?;
        let wire = Wire {
            entries,
            links: Vec::new(alloc),
            bad_binds,
        };
        let (status, out) = run_live(alloc, &texts, duct, wire)?;
        assert_eq!(rt; status, 5);
        assert!(rt; out.noted() == b"scl: wire fault\n".as_slice());
        assert!(rt; report.starts_with(out.written()));
        let rest = report.get(out.written().len()..).ok_or("the rest")?;
        assert!(rt; rest.starts_with(next));
        assert!(rt; out.told());
    }
    Ok(())
}

#[test]
fn each_write_of_a_receiver_may_fail(rt: HostRuntime) -> Result<(), Fail> {
    let alloc = rt.alloc();
    let texts = ["recv", "96", "any", "16", "5", "3", "l"];
    let mut all = reported(&rt, alloc)?;
    all.extend_from_slice(b"RECV end=max in=5\n")?;
    for place in 0..50u64 {
        let duct = DuctMem::new(alloc, &[], &[], &[], &[place], 100_000)?;
        let wire = Wire {
            entries: inbound(alloc, After::Nothing)?,
            links: Vec::new(alloc),
            bad_binds: &[],
        };
        let (status, out) = run_live(alloc, &texts, duct, wire)?;
        assert!(rt; out.told(), "at {place}");
        if status == 0 {
            assert_eq!(rt; out.written(), all.as_slice());
            assert!(rt; place > 2);
            return Ok(());
        }
        assert_eq!(rt; status, 4, "at {place}");
        assert_eq!(rt; out.noted(), b"scl: write fault\n".as_slice());
        assert!(rt; all.starts_with(out.written()), "at {place}");
    }
    panic!(rt; "it never ended")
}

#[test]
fn words_of_live_commands_are_in_range(rt: HostRuntime) -> Result<(), Fail> {
    let cases: [&[&str]; 8] = [
        &["recv", "96", "any", "16", "5", "3"],
        &["recv", "96", "any", "16", "0", "3", "l"],
        &["recv", "96", "any", "16", "5", "0", "l"],
        &["recv", "96", "any", "16", "5", "3", ""],
        &[
            "send", "110", "plain", "96", "1", "0", "0", "3600", "3", "l",
        ],
        &[
            "send", "63", "plain", "96", "1", "0", "0", "3600", "3", "l", "a",
        ],
        &[
            "send", "110", "plain", "96", "1", "0", "0", "3600", "0", "l", "a",
        ],
        &[
            "send", "110", "plain", "96", "1", "0", "0", "3600", "3", "l", "",
        ],
    ];
    for texts in cases {
        let (status, out) = run_over(rt.alloc(), texts, &[], &[], &[])?;
        assert_eq!(rt; status, 2);
        assert!(rt; out.noted() == b"scl: words\n".as_slice());
        assert!(rt; out.written().is_empty());
        assert!(rt; out.told());
    }
    Ok(())
}
