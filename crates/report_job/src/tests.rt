//! Captures whose lines were worked out by hand: datagrams of a stream that were lost, repeated,
//! reordered or changed.
use super::*;
use scl_outside::DuctMem;
use scl_run::{Ending, Reason, Refusal};
use std::alloc::{AllocError, Global};
use std::process::Abort;
use std::test::Fail;
use stream_receiver::Pick;

mod forged;

/// A capture of two frames: a Main packet with the header of an image of one sample, and a Body
/// packet with one packet of a code-block with the cleanup bytes AABB, and EOC.
const ONE_SAMPLE: [u8; 139] = [
    0, 0x6D, 0x80, 0x60, 0, 0, 0, 0, 0, 0, 0, 0, 0, 1, 0xC4, 0, 0, 0, 0, 0, 0, 0, 0xFF, 0x4F, 0xFF,
    0x51, 0, 0x29, 0x40, 0, 0, 0, 0, 1, 0, 0, 0, 1, 0, 0, 0, 0, 0, 0, 0, 0, 0, 0, 0, 1, 0, 0, 0, 1,
    0, 0, 0, 0, 0, 0, 0, 0, 0, 1, 7, 1, 1, 0xFF, 0x50, 0, 8, 0, 2, 0, 0, 0, 0, 0xFF, 0x52, 0, 0x0C,
    0, 3, 0, 1, 0, 0, 4, 4, 0x40, 1, 0xFF, 0x5C, 0, 4, 0x40, 0x48, 0xFF, 0x90, 0, 0x0A, 0, 0, 0, 0,
    0, 0, 0, 1, 0xFF, 0x93, 0, 0x1A, 0x80, 0xE0, 0, 1, 0, 0, 0, 0, 0, 0, 0, 1, 7, 0x80, 0, 0, 0, 0,
    0, 0, 0xC8, 0x80, 0xAA, 0xBB, 0xFF, 0xD9,
];

/// The main header of an image of three samples in a row, each a precinct.
const THREE_SAMPLES: [u8; 90] = [
    0xFF, 0x4F, 0xFF, 0x51, 0, 0x29, 0x40, 0, 0, 0, 0, 3, 0, 0, 0, 1, 0, 0, 0, 0, 0, 0, 0, 0, 0, 0,
    0, 3, 0, 0, 0, 1, 0, 0, 0, 0, 0, 0, 0, 0, 0, 1, 7, 1, 1, 0xFF, 0x50, 0, 8, 0, 2, 0, 0, 0, 0,
    0xFF, 0x52, 0, 0x0D, 1, 3, 0, 1, 0, 0, 4, 4, 0x40, 1, 0, 0xFF, 0x5C, 0, 4, 0x40, 0x48, 0xFF,
    0x90, 0, 0x0A, 0, 0, 0, 0, 0, 0, 0, 1, 0xFF, 0x93,
];

/// The Body headers of a codestream of these three precincts: RES 7, and ORDB, POS and PID.
const BODY_HEADERS: [[u8; 8]; 4] = [
    [7, 0x80, 0, 0, 0, 0x00, 0, 0],
    [7, 0x80, 0, 0, 0, 0xC0, 0, 1],
    [7, 0x80, 0, 0, 1, 0x80, 0, 2],
    [7, 0x00, 0, 0, 0, 0x00, 0, 0],
];

/// The lines that are wanted, with a stamp and a PID.
#[derive(Clone, Copy)]
enum Line {
    /// Of a precinct as it was sent.
    Sent(u32, u32),
    /// Of one with the code-block that was sent for another PID.
    Other(u32, u32, u32),
    /// Of one with no code-blocks.
    Empty(u32, u32),
}

/// The bytes of such a codestream after SOD: three packets of 102 bytes, with 100 bytes of 11, 22
/// or 33 each, and EOC.
fn after_sod() -> [u8; 308] {
    let mut bytes = [0; 308];
    for k in 0..3 {
        let packet = &mut bytes[102 * k..102 * k + 102];
        packet.fill(0x11 * (k as u8 + 1));
        packet[0] = 0xEF;
        packet[1] = 0x64;
    }
    bytes[306] = 0xFF;
    bytes[307] = 0xD9;
    bytes
}

/// Appends a frame: the datagram at this index, 0 to 9, of two such codestreams with the stamps 0
/// and 3600, where the numbers begin at `first`. The first datagram of each is its Main packet, and
/// each Body packet but the last has 90 bytes.
fn push_frame(capture: &mut Vec<u8>, first: u32, index: u32) -> Result<(), AllocError> {
    let number = ((first % 0x100_0000) + index % 10) % 0x100_0000;
    let place = (index % 5) as usize;
    let len: usize = if place == 4 { 58 } else { 110 };
    let last = if place == 4 { 0x80 } else { 0 };
    let stamp: u32 = if index % 10 < 5 { 0 } else { 3600 };
    capture.extend_from_slice(&[0, len as u8, 0x80, 0x60 | last])?;
    capture.extend_from_slice(&[(number / 256 % 256) as u8, (number % 256) as u8])?;
    capture.extend_from_slice(&[0, 0, (stamp / 256) as u8, (stamp % 256) as u8, 0, 0, 0, 1])?;
    let mut header = [0xC4, 0, 0, 0, 0, 0, 0, 0];
    if place > 0 {
        header = BODY_HEADERS[place - 1];
    }
    header[3] = (number / 65_536) as u8;
    capture.extend_from_slice(&header)?;
    if place == 0 {
        return capture.extend_from_slice(&THREE_SAMPLES);
    }
    capture.extend_from_slice(&after_sod()[90 * (place - 1)..90 * (place - 1) + len - 20])
}

/// Appends the lines of a precinct.
fn push_line(text: &mut Vec<u8>, line: Line) -> Result<(), AllocError> {
    let (stamp, pid, block) = match line {
        Line::Sent(stamp, pid) => (stamp, pid, Some(pid)),
        Line::Other(stamp, pid, sent_for) => (stamp, pid, Some(sent_for)),
        Line::Empty(stamp, pid) => (stamp, pid, None),
    };
    let digit = [b'0' + (pid % 3) as u8];
    text.extend_from_slice(b"P stamp=")?;
    if stamp == 0 {
        text.extend_from_slice(b"0")?;
    } else {
        text.extend_from_slice(b"3600")?;
    }
    text.extend_from_slice(b" pid=")?;
    text.extend_from_slice(&digit)?;
    text.extend_from_slice(b" c=0 r=0 k=")?;
    text.extend_from_slice(&digit)?;
    let Some(sent_for) = block else {
        return text.extend_from_slice(b" blocks=0\n");
    };
    text.extend_from_slice(
        b" blocks=1\nB band=0 col=0 row=0 planes=0 passes=1 cleanup=100 refine=0 bytes=",
    )?;
    text.extend_from_slice(&[b'1' + (sent_for % 3) as u8; 200])?;
    text.extend_from_slice(b"\n")
}

/// Reports a capture of a stream of payload type 96 with any SSRC: this is written.
fn writes(
    rt: &impl Abort,
    alloc: Global,
    window: u16,
    capture: &[u8],
    wanted: &[u8],
) -> Result<(), Fail> {
    assert!(rt; 1 <= window && window <= 16_384);
    let pick = Pick {
        kind: 96,
        source: None,
        window,
    };
    let mut duct = DuctMem::new(alloc, capture, &[], &[], &[], 10_000)?;
    assert_eq!(rt; report(alloc, pick, &mut duct), Ending::Done);
    assert_eq!(rt; duct.written(), wanted);
    assert!(rt; duct.told());
    Ok(())
}

/// Reports a capture: these lines are written.
fn reports(
    rt: &impl Abort,
    alloc: Global,
    window: u16,
    capture: &[u8],
    (lines, end): (&[Line], &[u8]),
) -> Result<(), Fail> {
    let mut text = Vec::new(alloc);
    for line in lines {
        push_line(&mut text, *line)?;
    }
    text.extend_from_slice(end)?;
    writes(rt, alloc, window, capture, &text)
}

/// Reports the datagrams at these indices of two codestreams, in this order.
fn reports_picked(
    rt: &impl Abort,
    alloc: Global,
    (window, first): (u16, u32),
    picked: &[u32],
    wanted: (&[Line], &[u8]),
) -> Result<(), Fail> {
    let mut capture = Vec::new(alloc);
    for index in picked {
        push_frame(&mut capture, first, *index)?;
    }
    reports(rt, alloc, window, &capture, wanted)
}

#[test]
fn what_is_reached_is_written_once_and_in_order(rt: HostRuntime) -> Result<(), Fail> {
    let all = [Line::Sent(0, 0), Line::Sent(0, 1), Line::Sent(0, 2)];
    let later = [
        Line::Sent(3600, 0),
        Line::Sent(3600, 1),
        Line::Sent(3600, 2),
    ];
    let first = [Line::Sent(0, 0)];
    let fifth: &[u8] = b"END kept=5 old=0 refused=0 unsupported=0 disagreed=0 broken=0\n";
    let fourth: &[u8] = b"END kept=4 old=0 refused=0 unsupported=0 disagreed=0 broken=0\n";
    let repeated: &[u8] = b"END kept=5 old=1 refused=0 unsupported=0 disagreed=0 broken=0\n";
    let late: &[u8] = b"END kept=4 old=1 refused=0 unsupported=0 disagreed=0 broken=0\n";
    let ninth: &[u8] = b"END kept=9 old=0 refused=0 unsupported=0 disagreed=0 broken=0\n";
    let eighth: &[u8] = b"END kept=8 old=0 refused=0 unsupported=0 disagreed=0 broken=0\n";
    let third: &[u8] = b"END kept=3 old=2 refused=0 unsupported=0 disagreed=0 broken=0\n";
    let cases: [((u16, u32), &[u32], (&[Line], &[u8])); 12] = [
        ((16, 0), &[0, 1, 2, 3, 4], (&all, fifth)),
        ((16, 0), &[0, 2, 3, 4], (&all[1..], fourth)),
        ((16, 0), &[0, 1, 3, 4], (&all[2..], fourth)),
        ((16, 0), &[0, 1, 2, 4], (&first, fourth)),
        ((16, 0), &[0, 1, 2, 3], (&all[..2], fourth)),
        ((16, 0), &[1, 2, 3, 4], (&[], fourth)),
        // the numbers run over the wrap, and one datagram is repeated
        ((16, 16_777_214), &[0, 2, 1, 1, 3, 4], (&all, repeated)),
        // datagram 2 is late and 3 is in time
        ((2, 0), &[0, 1, 4, 2, 3], (&all[2..], late)),
        // the Main packet of the second codestream is lost, or most of the first codestream
        ((16, 0), &[0, 1, 2, 3, 4, 6, 7, 8, 9], (&all, ninth)),
        ((16, 0), &[2, 3, 4, 5, 6, 7, 8, 9], (&later, eighth)),
        // what comes before the first arrival is old
        ((16, 0), &[1, 0, 2, 3, 4], (&[], late)),
        ((16, 0), &[2, 0, 1, 3, 4], (&[], third)),
    ];
    for (stream, picked, wanted) in cases {
        reports_picked(&rt, rt.alloc(), stream, picked, wanted)?;
    }
    Ok(())
}

#[test]
fn a_forged_mark_is_followed(rt: HostRuntime) -> Result<(), Fail> {
    let mut capture = Vec::new(rt.alloc());
    for index in 0..5 {
        push_frame(&mut capture, 0, index)?;
    }
    assert_eq!(rt; capture.len(), 508);
    // POS of datagram 2 is 13 where 12 is right
    let at = 2 * 112 + 2 + 12 + 5;
    assert_eq!(rt; capture[at], 0xC0);
    capture[at] = 0xD0;
    let lines = [
        Line::Sent(0, 0),
        Line::Empty(0, 1),
        Line::Empty(0, 2),
        Line::Sent(0, 2),
    ];
    let end = b"END kept=5 old=0 refused=0 unsupported=0 disagreed=1 broken=0\n";
    reports(&rt, rt.alloc(), 16, &capture, (&lines, end))
}

#[test]
fn captures_end_as_their_bytes_say(rt: HostRuntime) -> Result<(), Fail> {
    let whole: &[u8] = b"P stamp=0 pid=0 c=0 r=0 k=0 blocks=1
B band=0 col=0 row=0 planes=2 passes=1 cleanup=2 refine=0 bytes=aabb
END kept=2 old=0 refused=0 unsupported=0 disagreed=0 broken=0
";
    let empty: &[u8] = b"END kept=0 old=0 refused=0 unsupported=0 disagreed=0 broken=0\n";
    let two: &[u8] = b"END kept=0 old=0 refused=2 unsupported=0 disagreed=0 broken=0\n";
    let cut = Ending::Refused(Refusal {
        at: 111,
        reason: Reason::CutFrame,
    });
    let cases: [(Option<u32>, &[u8], &[u64], Ending, &[u8]); 7] = [
        (None, &ONE_SAMPLE, &[], Ending::Done, whole),
        (Some(1), &ONE_SAMPLE, &[], Ending::Done, whole),
        (Some(2), &ONE_SAMPLE, &[], Ending::Done, two),
        (None, &[], &[], Ending::Done, empty),
        (None, &[0, 0, 0, 0], &[], Ending::Done, two),
        (None, &ONE_SAMPLE[..112], &[], cut, &[]),
        (None, &ONE_SAMPLE, &[2], Ending::ReadFault, &[]),
    ];
    for (source, input, bad_reads, ending, written) in cases {
        let pick = Pick {
            kind: 96,
            source,
            window: 16,
        };
        let mut duct = DuctMem::new(rt.alloc(), input, &[], bad_reads, &[], 10_000)?;
        assert_eq!(rt; report(rt.alloc(), pick, &mut duct), ending);
        assert_eq!(rt; duct.written(), written);
        assert!(rt; duct.told());
    }
    Ok(())
}
