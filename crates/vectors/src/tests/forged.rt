//! Changed and forged captures: what `report` still writes of them, and what it counts.
use super::*;

/// The offset in capture B of the datagram with each number.
const DATAGRAMS: [usize; 5] = [2, 114, 226, 338, 450];

/// No fault was counted.
const SOUND: &str = "unsupported=0 disagreed=0 broken=0";

/// `report 96 any 16` of a capture writes precincts with these numbers, and these counts.
fn shows(
    rt: &impl Abort,
    alloc: Global,
    capture: &[u8],
    pids: &[u8],
    counts: (&str, &str),
) -> Result<(), Fail> {
    let (status, out) = run_over(alloc, &["report", "96", "any", "16"], capture, &[], &[])?;
    assert_eq!(rt; status, 0);
    assert!(rt; out.told());
    let mut at = 0;
    for line in out.written().split(|byte| *byte == b'\n') {
        if line.starts_with(b"P ") {
            assert!(rt; at < pids.len(), "{counts:?}");
            let front = format!(in alloc; "P stamp=0 pid={} ", pids[at])?;
            assert!(rt; line.starts_with(front.as_bytes()), "{counts:?}");
            at += 1;
        }
    }
    assert_eq!(rt; at, pids.len(), "{counts:?}");
    let end = format!(in alloc; "END {} {}\n", counts.0, counts.1)?;
    assert!(rt; out.written().ends_with(end.as_bytes()), "{counts:?}");
    Ok(())
}

#[test]
fn changed_bytes_cost_what_hangs_on_them(rt: HostRuntime) -> Result<(), Fail> {
    let lost = "kept=4 old=0 refused=1";
    let kept = "kept=5 old=0 refused=0";
    let marked = "unsupported=0 disagreed=1 broken=0";
    let broken = "unsupported=0 disagreed=0 broken=1";
    // Of the datagram with this number bytes are changed; what is shown then.
    let rows: [(usize, &[(usize, u8)], &[u8], &str, &str); 16] = [
        // Another version, payload type, source; a padding of no byte; an extension past POS.
        (2, &[(0, 0x40)], &[2], lost, SOUND),
        (2, &[(1, 97)], &[2], lost, SOUND),
        (2, &[(11, 2)], &[2], lost, SOUND),
        (2, &[(0, 0xA0), (109, 0)], &[2], lost, SOUND),
        (2, &[(0, 0x90)], &[2], lost, SOUND),
        // POS past the end; PIDs that no precinct has; a mark a byte late.
        (2, &[(16, 0xFF), (17, 0xF0)], &[2], lost, SOUND),
        (1, &[(19, 3)], &[0, 1, 2], kept, marked),
        (1, &[(17, 0x0F)], &[0, 1, 2], kept, marked),
        (2, &[(17, 0xD0)], &[0, 1, 2, 2], kept, marked),
        // A packet header that is refused; 34 bytes of padding.
        (2, &[(32, 0xFA)], &[0, 2], kept, broken),
        (2, &[(0, 0xA0)], &[0, 2], kept, marked),
        // A main header that isn't accepted; another stamp.
        (
            0,
            &[(20, 0)],
            &[],
            kept,
            "unsupported=1 disagreed=0 broken=0",
        ),
        (2, &[(7, 9)], &[], kept, SOUND),
        (3, &[(7, 9)], &[0], kept, SOUND),
        // Numbers far ahead, and that of the one before.
        (4, &[(3, 15)], &[0, 1], kept, SOUND),
        (4, &[(3, 3)], &[0, 1], "kept=4 old=1 refused=0", SOUND),
    ];
    for (number, changes, pids, counts, faults) in rows {
        let capture = with_bytes(rt.alloc(), &CAPTURE_B, DATAGRAMS[number % 5], changes)?;
        shows(&rt, rt.alloc(), &capture, pids, (counts, faults))?;
    }
    Ok(())
}

/// A frame with a Body of payload type 96, source 1 and stamp 0: its number, POS and PID if it has a mark, and bytes.
fn add_body(
    capture: &mut Vec<u8>,
    number: u8,
    mark: Option<(u8, u8)>,
    bytes: &[u8],
) -> Result<(), Fail> {
    let (ordb, pos, pid) = match mark {
        Some((pos, pid)) => (0x80, pos, pid),
        None => (0, 0, 0),
    };
    capture.extend_from_slice(&[0, 20 + (bytes.len() % 200) as u8, 0x80, 96, 0, number])?;
    capture.extend_from_slice(&[0, 0, 0, 0, 0, 0, 0, 1, 7, ordb, 0, 0])?;
    capture.extend_from_slice(&[pos / 16, pos % 16 * 16, 0, pid])?;
    capture.extend_from_slice(bytes)?;
    Ok(())
}

#[test]
fn forged_bodies_are_read_by_the_rules(rt: HostRuntime) -> Result<(), Fail> {
    let alloc = rt.alloc();
    let kept = "kept=2 old=0 refused=0";
    let rows: [(Option<(u8, u8)>, &[u8], &[u8], &str); 5] = [
        // Refused at the packet's start and at the mark.
        (
            Some((1, 1)),
            &[0xEF, 0xFF, 0x80, 0, 0],
            &[],
            "unsupported=0 disagreed=0 broken=2",
        ),
        // A whole packet that ends past the mark.
        (
            Some((3, 1)),
            &[0xC8, 0x80, 0, 0, 0, 0],
            &[1, 2],
            "unsupported=0 disagreed=1 broken=0",
        ),
        // A refused packet before the mark.
        (
            Some((1, 1)),
            &[0xEE, 0, 0],
            &[1, 2],
            "unsupported=0 disagreed=0 broken=1",
        ),
        // A mark after the last precinct.
        (
            Some((5, 1)),
            &[0, 0, 0, 0xFF, 0xD9, 0, 0],
            &[0, 1, 2, 1, 2],
            SOUND,
        ),
        // No codestream bytes and no mark.
        (None, &[], &[], SOUND),
    ];
    for (mark, bytes, pids, faults) in rows {
        let mut capture = Vec::from_slice(alloc, &CAPTURE_B[..112])?;
        add_body(&mut capture, 1, mark, bytes)?;
        shows(&rt, alloc, &capture, pids, (kept, faults))?;
    }
    Ok(())
}

#[test]
fn mains_and_numbers_that_come_again(rt: HostRuntime) -> Result<(), Fail> {
    let alloc = rt.alloc();
    // A byte more and a byte less than a main header.
    let unsupported = (
        "kept=5 old=0 refused=0",
        "unsupported=1 disagreed=0 broken=0",
    );
    let mut longer = with_bytes(alloc, &CAPTURE_B[..112], 0, &[(1, 0x6F)])?;
    longer.push(0)?;
    longer.extend_from_slice(&CAPTURE_B[112..])?;
    shows(&rt, alloc, &longer, &[], unsupported)?;
    let mut shorter = with_bytes(alloc, &CAPTURE_B[..111], 0, &[(1, 0x6D)])?;
    shorter.extend_from_slice(&CAPTURE_B[112..])?;
    shows(&rt, alloc, &shorter, &[], unsupported)?;
    // A mark for a PID that no precinct has, without a main header.
    let headless = with_bytes(alloc, &CAPTURE_B[112..], 0, &[(21, 3)])?;
    shows(
        &rt,
        alloc,
        &headless,
        &[],
        ("kept=4 old=0 refused=0", SOUND),
    )?;
    // The same codestream again, with the numbers that follow.
    let numbers = [(5, 5), (117, 6), (229, 7), (341, 8), (453, 9)];
    let mut again = Vec::from_slice(alloc, &CAPTURE_B)?;
    again.extend_from_slice(&with_bytes(alloc, &CAPTURE_B, 0, &numbers)?)?;
    let twice = [0, 1, 2, 0, 1, 2];
    shows(
        &rt,
        alloc,
        &again,
        &twice,
        ("kept=10 old=0 refused=0", SOUND),
    )?;
    // The greatest number that is ahead of the base 5, and the next one, which is below it.
    for (low, counts) in [(4, "kept=6 old=0 refused=0"), (5, "kept=5 old=1 refused=0")] {
        let mut far = Vec::from_slice(alloc, &CAPTURE_B)?;
        add_body(&mut far, low, None, &[0])?;
        let far = with_bytes(alloc, &far, 508, &[(17, 0x80)])?;
        shows(&rt, alloc, &far, &[0, 1, 2], (counts, SOUND))?;
    }
    Ok(())
}
