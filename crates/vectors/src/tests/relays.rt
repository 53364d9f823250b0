//! `relay` over an outside in memory, with the datagrams of a stream of three precincts.
use super::live::{Wire, run_live};
use super::*;
use scl_outside::{Inbound, LinkPlan, Outside, SendOut};

/// What comes in after the five datagrams.
#[derive(Clone, Copy, PartialEq, Eq)]
pub enum After {
    Nothing,
    Closed,
    ShortThenClosed,
    LongThenClosed,
    Failed,
}

/// The five datagrams of the stream.
pub fn datagrams() -> [&'static [u8]; 5] {
    [
        &CAPTURE_B[2..112],
        &CAPTURE_B[114..224],
        &CAPTURE_B[226..336],
        &CAPTURE_B[338..448],
        &CAPTURE_B[450..508],
    ]
}

/// The five datagrams, and then this.
pub fn inbound(alloc: Global, after: After) -> Result<Vec<Inbound>, AllocError> {
    let mut entries = Vec::new(alloc);
    for datagram in datagrams() {
        entries.push(Inbound::Datagram(datagram.to_vec(alloc)?))?;
    }
    match after {
        After::Nothing => {}
        After::Closed => entries.push(Inbound::Closed)?,
        After::ShortThenClosed => {
            entries.push(Inbound::Datagram([1, 2, 3].to_vec(alloc)?))?;
            entries.push(Inbound::Closed)?;
        }
        After::LongThenClosed => {
            entries.push(Inbound::Datagram([0x80; 9_001].to_vec(alloc)?))?;
            entries.push(Inbound::Closed)?;
        }
        After::Failed => entries.push(Inbound::Failed)?,
    }
    Ok(entries)
}

/// Links that give these answers and then this one, each its own.
fn links(alloc: Global, plans: &[(&[SendOut], SendOut)]) -> Result<Vec<LinkPlan>, AllocError> {
    let mut links = Vec::new(alloc);
    for (first, later) in plans {
        let first = first.to_vec(alloc)?;
        links.push(LinkPlan {
            first,
            later: *later,
        })?;
    }
    Ok(links)
}

/// The status of a run over these entries and links, and the object that it ran over. These calls that name an
/// address fail.
fn run_on(
    alloc: Global,
    words: &Words,
    (entries, links): (Vec<Inbound>, Vec<LinkPlan>),
    bad_binds: &[u64],
) -> Result<(u8, OutsideMem), AllocError> {
    let duct = DuctMem::new(alloc, &[], &[], &[], &[], 100_000)?;
    let mut out = OutsideMem::new(alloc, duct, entries, links, bad_binds, 100_000)?;
    if out.peers() != 0 {
        return Ok((u8::MAX, out));
    }
    let status = run(alloc, words, &mut out);
    Ok((status, out))
}

/// Whether the datagrams sent to this peer are these, in order.
fn got(out: &OutsideMem, peer: usize, wanted: &[&[u8]]) -> bool {
    let mut at = 0;
    for i in 0..out.sent_count() {
        let (to, bytes) = out.sent(i);
        if to == peer {
            match wanted.get(at) {
                Some(datagram) if *datagram == bytes => at += 1,
                _ => return false,
            }
        }
    }
    at == wanted.len()
}

#[test]
fn relays_end_and_count_as_they_should(rt: HostRuntime) -> Result<(), Fail> {
    let alloc = rt.alloc();
    let fails: &[SendOut] = &[SendOut::Sent, SendOut::Failed];
    let one = (&[] as &[SendOut], SendOut::Sent);
    let second_fails = (fails, SendOut::Sent);
    let cases: [(&[&str], (&[SendOut], SendOut), After, u8, &[u8]); 7] = [
        (
            &["5", "3", "l", "a", "7", "1"],
            second_fails,
            After::Nothing,
            0,
            b"RELAY end=max in=5 refused=0\nPEER 0 sent=4 lost=0 failed=1 left=0\n",
        ),
        (
            &["5", "3", "l", "a", "6", "1"],
            one,
            After::Nothing,
            0,
            b"RELAY end=max in=5 refused=0\nPEER 0 sent=1 lost=0 failed=0 left=0\n",
        ),
        (
            &["9", "3", "l", "a", "7", "1"],
            one,
            After::Nothing,
            0,
            b"RELAY end=idle in=5 refused=0\nPEER 0 sent=5 lost=0 failed=0 left=0\n",
        ),
        (
            &["9", "3", "l", "a", "7", "1"],
            one,
            After::Closed,
            0,
            b"RELAY end=closed in=5 refused=0\nPEER 0 sent=5 lost=0 failed=0 left=0\n",
        ),
        (
            &["9", "3", "l", "a", "7", "1"],
            one,
            After::ShortThenClosed,
            0,
            b"RELAY end=closed in=6 refused=1\nPEER 0 sent=5 lost=0 failed=0 left=0\n",
        ),
        (
            &["9", "3", "l", "a", "7", "1"],
            one,
            After::LongThenClosed,
            0,
            b"RELAY end=closed in=6 refused=1\nPEER 0 sent=5 lost=0 failed=0 left=0\n",
        ),
        (&["9", "3", "l", "a", "7", "1"], one, After::Failed, 5, b""),
    ];
    for (row, (values, plan, after, wanted, text)) in cases.iter().enumerate() {
        let mut words = words_of(alloc, &["relay"])?;
        for value in *values {
            words.add(value)?;
        }
        let wire = (inbound(alloc, *after)?, links(alloc, &[*plan])?);
        let (status, out) = run_on(alloc, &words, wire, &[])?;
        assert_eq!(rt; status, *wanted, "in row {row}");
        assert_eq!(rt; out.written(), *text, "in row {row}");
        assert!(rt; out.told());
    }
    Ok(())
}

#[test]
fn a_receiver_that_is_never_ready_changes_nothing_for_another(rt: HostRuntime) -> Result<(), Fail> {
    let alloc = rt.alloc();
    let never = (&[] as &[SendOut], SendOut::NotReady);
    let always = (&[] as &[SendOut], SendOut::Sent);
    let both = words_of(
        alloc,
        &["relay", "5", "3", "l", "a", "7", "1", "b", "7", "1"],
    )?;
    let wire = (
        inbound(alloc, After::Nothing)?,
        links(alloc, &[never, always])?,
    );
    let (status, out) = run_on(alloc, &both, wire, &[])?;
    assert_eq!(rt; status, 0);
    assert_eq!(rt;
        out.written(),
        b"RELAY end=max in=5 refused=0\nPEER 0 sent=0 lost=4 failed=0 left=1\nPEER 1 sent=5 lost=0 failed=0 left=0\n".as_slice()
    );
    assert!(rt; got(&out, 0, &[]) && got(&out, 1, &datagrams()));
    assert!(rt; out.told());
    let alone = words_of(alloc, &["relay", "5", "3", "l", "b", "7", "1"])?;
    let wire = (inbound(alloc, After::Nothing)?, links(alloc, &[always])?);
    let (status, out) = run_on(alloc, &alone, wire, &[])?;
    assert_eq!(rt; status, 0);
    assert!(rt; got(&out, 0, &datagrams()));
    Ok(())
}

#[test]
fn a_bad_address_ends_with_nothing_received(rt: HostRuntime) -> Result<(), Fail> {
    let alloc = rt.alloc();
    let words = words_of(
        alloc,
        &["relay", "5", "3", "l", "a", "7", "1", "b", "7", "1"],
    )?;
    for bad in 0..3 {
        let wire = (inbound(alloc, After::Nothing)?, Vec::new(alloc));
        let (status, out) = run_on(alloc, &words, wire, &[bad])?;
        assert_eq!(rt; status, 5);
        assert_eq!(rt; out.noted(), b"scl: wire fault\n".as_slice());
        assert!(rt; out.written().is_empty() && out.sent_count() == 0 && out.told());
    }
    Ok(())
}

#[test]
fn sixty_four_receivers_get_each_datagram(rt: HostRuntime) -> Result<(), Fail> {
    let alloc = rt.alloc();
    let mut words = words_of(alloc, &["relay", "5", "3", "l"])?;
    for _ in 0..64 {
        for word in ["p", "7", "4096"] {
            words.add(word)?;
        }
    }
    let wire = (inbound(alloc, After::Nothing)?, Vec::new(alloc));
    let (status, out) = run_on(alloc, &words, wire, &[])?;
    assert_eq!(rt; status, 0);
    for peer in 0..64 {
        assert!(rt; got(&out, peer, &datagrams()));
    }
    assert_eq!(rt; out.sent_count(), 320);
    assert!(rt;
        out.written()
            .ends_with(b"\nPEER 63 sent=5 lost=0 failed=0 left=0\n")
    );
    assert!(rt; out.told());
    Ok(())
}

#[test]
fn words_outside_the_grammar_of_relay(rt: HostRuntime) -> Result<(), Fail> {
    let alloc = rt.alloc();
    let cases: [&[&str]; 9] = [
        &["relay", "5", "3", "l"],
        &["relay", "5", "3", "l", "a", "7"],
        &["relay", "0", "3", "l", "a", "7", "1"],
        &["relay", "8388608", "3", "l", "a", "7", "1"],
        &["relay", "5", "0", "l", "a", "7", "1"],
        &["relay", "5", "3", "", "a", "7", "1"],
        &["relay", "5", "3", "l", "a", "8", "1"],
        &["relay", "5", "3", "l", "a", "7", "4097"],
        &["relay", "5", "3", "l", "a", "7", "1", "b"],
    ];
    for texts in cases {
        let words = words_of(alloc, texts)?;
        let wire = (Vec::new(alloc), Vec::new(alloc));
        let (status, out) = run_on(alloc, &words, wire, &[])?;
        assert_eq!(rt; status, 2);
        assert_eq!(rt; out.noted(), b"scl: words\n".as_slice());
    }
    Ok(())
}

#[test]
fn a_wire_that_fails_ends_a_relay(rt: HostRuntime) -> Result<(), Fail> {
    let alloc = rt.alloc();
    let words = words_of(alloc, &["relay", "9", "3", "l", "a", "7", "1"])?;
    for count in 0..6 {
        let mut entries = Vec::new(alloc);
        for datagram in datagrams().iter().take(count) {
            entries.push(Inbound::Datagram(datagram.to_vec(alloc)?))?;
        }
        entries.push(Inbound::Failed)?;
        let (status, out) = run_on(alloc, &words, (entries, Vec::new(alloc)), &[])?;
        assert_eq!(rt; status, 5, "after {count}");
        assert_eq!(rt; out.noted(), b"scl: wire fault\n".as_slice());
        assert!(rt; out.written().is_empty() && out.told(), "after {count}");
        assert_eq!(rt; out.sent_count(), count);
    }
    Ok(())
}

#[test]
fn each_send_of_a_relay_may_fail_alone(rt: HostRuntime) -> Result<(), Fail> {
    let alloc = rt.alloc();
    let words = words_of(alloc, &["relay", "5", "3", "l", "a", "7", "5"])?;
    for place in 0..5 {
        let mut first = Vec::new(alloc);
        for _ in 0..place {
            first.push(SendOut::Sent)?;
        }
        first.push(SendOut::Failed)?;
        let plan = (first.as_slice(), SendOut::Sent);
        let wire = (inbound(alloc, After::Nothing)?, links(alloc, &[plan])?);
        let (status, out) = run_on(alloc, &words, wire, &[])?;
        assert_eq!(rt; status, 0, "at {place}");
        let end = b"\nPEER 0 sent=4 lost=0 failed=1 left=0\n";
        assert!(rt; out.written().ends_with(end), "at {place}");
        assert!(rt; out.sent_count() == 4 && out.told(), "at {place}");
    }
    Ok(())
}

#[test]
fn a_failed_write_of_a_relay_ends_the_run(rt: HostRuntime) -> Result<(), Fail> {
    let alloc = rt.alloc();
    let duct = DuctMem::new(alloc, &[], &[], &[], &[0], 100_000)?;
    let wire = Wire {
        entries: inbound(alloc, After::Nothing)?,
        links: Vec::new(alloc),
        bad_binds: &[],
    };
    let texts = ["relay", "5", "3", "l", "a", "7", "1"];
    let (status, out) = run_live(alloc, &texts, duct, wire)?;
    assert_eq!(rt; status, 4);
    assert_eq!(rt; out.noted(), b"scl: write fault\n".as_slice());
    assert!(rt; out.written().is_empty() && out.told());
    assert_eq!(rt; out.sent_count(), 5);
    Ok(())
}
