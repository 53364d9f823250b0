//! Bytes of any kind between two good frames: what is malformed is passed over, and nothing good is lost.
use super::*;

/// RTP's twelve bytes, version 2, payload type 96, with nothing optional.
const RTP: [u8; 12] = [0x80, 0x60, 0, 1, 0, 0, 0, 0, 0, 0, 0, 1];

/// RTP with P = 1.
const PADDED: [u8; 12] = [0xA0, 0x60, 0, 1, 0, 0, 0, 0, 0, 0, 0, 1];

/// RTP with X = 1.
const EXTENDED: [u8; 12] = [0x90, 0x60, 0, 1, 0, 0, 0, 0, 0, 0, 0, 1];

/// RTP with CC = 15.
const FIFTEEN_SOURCES: [u8; 12] = [0x8F, 0x60, 0, 1, 0, 0, 0, 0, 0, 0, 0, 1];

/// The header of a Body with RES 7, without a mark.
const BODY: [u8; 8] = [7, 0, 0, 0, 0, 0, 0, 0];

/// The header of a Body with RES 0 and a mark at 2.
const MARKED: [u8; 8] = [0, 0x80, 0, 0, 0, 0x20, 0, 0];

/// The header of a Main with XTRAC 1.
const MAIN: [u8; 8] = [0xC4, 0x10, 0, 0, 0, 0, 0, 0];

const BYTES: [u8; 8_981] = [0x5A; 8_981];

pub fn joined(alloc: Global, parts: &[&[u8]]) -> Result<Vec<u8>, AllocError> {
    let mut all = Vec::new(alloc);
    for part in parts {
        all.extend_from_slice(part)?;
    }
    Ok(all)
}

/// The datagram as a frame of a capture.
fn framed(alloc: Global, datagram: &[u8]) -> Result<Vec<u8>, AllocError> {
    let len = (datagram.len() % 65_536) as u16;
    joined(alloc, &[&len.to_be_bytes(), datagram])
}

/// What `thin 7` leaves of two good frames and this one between them.
fn thins_to(rt: &impl Abort, alloc: Global, parts: &[&[u8]], kept: bool) -> Result<(), Fail> {
    let good = small_body(7);
    let frame = framed(alloc, &joined(alloc, parts)?)?;
    let input = joined(alloc, &[&good, &frame, &good])?;
    let middle: &[u8] = if kept { &frame } else { &[] };
    let wanted = joined(alloc, &[&good, middle, &good])?;
    let (status, duct) = run_over(alloc, &["thin", "7"], &input, &[], &[])?;
    assert_eq!(rt; status, 0);
    assert_eq!(rt; duct.written(), wanted.as_slice());
    assert_eq!(rt; duct.noted(), [].as_slice());
    assert!(rt; duct.told());
    Ok(())
}

#[test]
fn malformed_rtp_is_passed_over(rt: HostRuntime) -> Result<(), Fail> {
    let cases: [(&[&[u8]], bool); 17] = [
        (&[], false),
        (&[&RTP[..11]], false),
        (&[&[0; 12], &BODY], false),
        (&[&[0x40], &RTP[1..], &BODY], false),
        (&[&[0xC0], &RTP[1..], &BODY], false),
        (&[&RTP, &BODY], true),
        (&[&FIFTEEN_SOURCES, &BYTES[..60], &BODY], true),
        (&[&FIFTEEN_SOURCES, &BYTES[..59]], false),
        (&[&EXTENDED, &[0, 0, 0, 1], &BYTES[..4], &BODY], true),
        (&[&EXTENDED, &[0, 0, 0, 1], &BYTES[..4]], false),
        (&[&EXTENDED, &[0, 0, 0, 2], &BYTES[..7]], false),
        (&[&EXTENDED, &[0, 0, 0]], false),
        (&[&PADDED, &BODY, &[1]], true),
        (&[&PADDED, &BODY, &[0]], false),
        (&[&PADDED, &BODY, &[9]], false),
        (&[&PADDED, &BODY, &[10]], false),
        (&[&PADDED], false),
    ];
    for (parts, kept) in cases {
        thins_to(&rt, rt.alloc(), parts, kept)?;
    }
    Ok(())
}

#[test]
fn malformed_payloads_are_passed_over(rt: HostRuntime) -> Result<(), Fail> {
    let cases: [(&[&[u8]], bool); 8] = [
        (&[&RTP, &BODY[..7]], false),
        (&[&RTP, &MAIN, &BYTES[..4]], true),
        (&[&RTP, &MAIN, &BYTES[..3]], false),
        (&[&RTP, &MARKED, &BYTES[..3]], true),
        (&[&RTP, &MARKED, &BYTES[..2]], false),
        (&[&RTP, &MARKED], false),
        (&[&RTP, &BODY, &BYTES[..8_980]], true),
        (&[&RTP, &BODY, &BYTES], false),
    ];
    for (parts, kept) in cases {
        thins_to(&rt, rt.alloc(), parts, kept)?;
    }
    Ok(())
}

#[test]
fn many_frames_pass_in_one_go(rt: HostRuntime) -> Result<(), Fail> {
    let mut input = Vec::with_capacity(rt.alloc(), 2_300_000)?;
    for _ in 0..50_000 {
        input.extend_from_slice(&small_body(0))?;
        input.extend_from_slice(&small_body(6))?;
    }
    let words = words_of(rt.alloc(), &["thin", "5"])?;
    let mut duct = NeverFails::new(rt.alloc(), &input, &[], 1_200_000)?;
    assert_eq!(rt; run(rt.alloc(), &words, &mut duct), 0);
    assert_eq!(rt; duct.written().len(), 1_150_000);
    let front = duct.written().get(..46).ok_or("too few")?;
    let wanted = joined(rt.alloc(), &[&small_body(0), &small_body(0)])?;
    assert_eq!(rt; front, wanted.as_slice());
    assert!(rt; duct.told());
    Ok(())
}
