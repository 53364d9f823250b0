//! Frames whose answers and precincts were worked out by hand from the rules.
use super::*;
use rtp_header::RtpFault;
use scl_payload::PayloadFault;
use std::process::Abort;
use std::test::Fail;

/// The main header of an image of three samples in a row, each a precinct: k = 0, 1 and 2 with the
/// PIDs 0, 1 and 2.
const THREE_SAMPLES: [u8; 90] = [
    0xFF, 0x4F, 0xFF, 0x51, 0, 0x29, 0x40, 0, 0, 0, 0, 3, 0, 0, 0, 1, 0, 0, 0, 0, 0, 0, 0, 0, 0, 0,
    0, 3, 0, 0, 0, 1, 0, 0, 0, 0, 0, 0, 0, 0, 0, 1, 7, 1, 1, 0xFF, 0x50, 0, 8, 0, 2, 0, 0, 0, 0,
    0xFF, 0x52, 0, 0x0D, 1, 3, 0, 1, 0, 0, 4, 4, 0x40, 1, 0, 0xFF, 0x5C, 0, 4, 0x40, 0x48, 0xFF,
    0x90, 0, 0x0A, 0, 0, 0, 0, 0, 0, 0, 1, 0xFF, 0x93,
];

/// The RTP header of a datagram of payload type 96 and SSRC 1.
const RTP: [u8; 12] = [0x80, 96, 0, 0, 0, 0, 0, 0, 0, 0, 0, 1];

const PICK: Pick = Pick {
    kind: 96,
    source: None,
    window: 2,
};

/// The Main packet of number 0.
fn main_packet() -> [u8; 110] {
    let mut bytes = [0; 110];
    bytes[..12].copy_from_slice(&RTP);
    bytes[12] = 0xC4;
    bytes[20..].copy_from_slice(&THREE_SAMPLES);
    bytes
}

/// A Body packet of this number, with the empty packet of the precinct with this PID and a mark at
/// it.
fn body_packet(number: u8, pid: u8) -> [u8; 21] {
    [
        0x80, 96, 0, number, 0, 0, 0, 0, 0, 0, 0, 1, 7, 0x80, 0, 0, 0, 0, 0, pid, 0,
    ]
}

/// Steps up to each of these precincts, and then until the receiver is idle.
fn gives(rt: &impl Abort, receiver: &mut Receiver, pids: &[u32]) -> Result<(), Fail> {
    for pid in pids {
        let Stepped::Ready = receiver.step() else {
            panic!(rt; "no precinct of PID {pid}");
        };
        assert_eq!(rt; receiver.released().pid, *pid);
    }
    assert_eq!(rt; receiver.step(), Stepped::Idle);
    Ok(())
}

#[test]
fn frames_are_refused_by_the_first_fault(rt: HostRuntime) -> Result<(), Fail> {
    let mut pick = PICK;
    pick.source = Some(2);
    let mut receiver = Receiver::new(rt.alloc(), pick)?;
    let long = [0; 9_001];
    let other_source = body_packet(0, 0);
    let mut other_kind = body_packet(0, 0);
    other_kind[1] = 97;
    let mut mark_past_the_end = body_packet(0, 0);
    mark_past_the_end[17] = 0x10;
    let cases: [(&[u8], DatagramFault); 7] = [
        (&long, DatagramFault::Oversize),
        (&[], DatagramFault::Rtp(RtpFault::Short)),
        (&long[..12], DatagramFault::Rtp(RtpFault::Version)),
        (&other_kind[..12], DatagramFault::Kind),
        (&RTP, DatagramFault::Payload(PayloadFault::Short)),
        (
            &mark_past_the_end,
            DatagramFault::Payload(PayloadFault::Pos),
        ),
        (&other_source, DatagramFault::Source),
    ];
    for (frame, fault) in cases {
        assert_eq!(rt; receiver.offer(frame), Taken::Refused(fault));
    }
    receiver.refuse();
    assert_eq!(rt; receiver.tally().refused, 8);
    gives(&rt, &mut receiver, &[])
}

#[test]
fn the_first_datagram_that_passes_fixes_the_source(rt: HostRuntime) -> Result<(), Fail> {
    let mut receiver = Receiver::new(rt.alloc(), PICK)?;
    let mut other = body_packet(0, 0);
    other[11] = 2;
    let fault = DatagramFault::Payload(PayloadFault::Short);
    assert_eq!(rt; receiver.offer(&other[..19]), Taken::Refused(fault));
    assert_eq!(rt; receiver.offer(&main_packet()), Taken::Kept);
    assert_eq!(rt;
        receiver.offer(&other),
        Taken::Refused(DatagramFault::Source)
    );
    gives(&rt, &mut receiver, &[])
}

#[test]
fn precincts_are_given_in_order_once_they_are_due(rt: HostRuntime) -> Result<(), Fail> {
    let mut receiver = Receiver::new(rt.alloc(), PICK)?;
    assert_eq!(rt; receiver.offer(&main_packet()), Taken::Kept);
    gives(&rt, &mut receiver, &[])?;
    let kept: [(u8, u8, &[u32]); 3] = [(1, 0, &[0]), (3, 2, &[]), (2, 1, &[1, 2])];
    for (number, pid, pids) in kept {
        let frame = body_packet(number, pid);
        assert_eq!(rt; receiver.offer(&frame), Taken::Kept);
        assert_eq!(rt; receiver.offer(&frame), Taken::Old);
        gives(&rt, &mut receiver, pids)?;
    }
    let far = body_packet(6, 0);
    assert_eq!(rt; receiver.offer(&far), Taken::Drain);
    gives(&rt, &mut receiver, &[])?;
    assert_eq!(rt; receiver.offer(&far), Taken::Kept);
    gives(&rt, &mut receiver, &[])?;
    receiver.flush();
    gives(&rt, &mut receiver, &[0])?;
    let tally = Tally {
        kept: 5,
        old: 3,
        refused: 0,
        unsupported: 0,
        disagreed: 0,
        broken: 0,
    };
    assert_eq!(rt; receiver.tally(), tally);
    Ok(())
}

#[test]
fn a_packet_is_given_with_all_its_bytes_under_its_main_header(rt: HostRuntime) -> Result<(), Fail> {
    let mut receiver = Receiver::new(rt.alloc(), PICK)?;
    assert!(rt; receiver.head().is_none());
    assert_eq!(rt; receiver.heads(), 0);
    let frames = [&main_packet()[..], &body_packet(1, 0)];
    for frame in frames {
        assert_eq!(rt; receiver.offer(frame), Taken::Kept);
    }
    assert_eq!(rt; receiver.step(), Stepped::Ready);
    assert_eq!(rt; receiver.raw(), &[0u8][..]);
    assert_eq!(rt; receiver.head(), Some(&THREE_SAMPLES[..]));
    assert_eq!(rt; receiver.heads(), 1);
    Ok(())
}
