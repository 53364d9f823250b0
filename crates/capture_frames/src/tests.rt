//! Captures whose frames were told apart by hand.
use super::*;
use scl_outside::{DuctMem, PutOut};
use std::alloc::Global;
use std::process::Abort;
use std::test::Fail;

/// Reads a capture byte by byte, where these reads fail: the answers, each with the front of the buffer.
fn reads(
    rt: &impl Abort,
    alloc: Global,
    input: &[u8],
    bad_reads: &[u64],
    wanted: &[(FrameOut, &[u8])],
) -> Result<(), Fail> {
    let byte_by_byte = [1, 1, 1, 1, 1, 1, 1, 1];
    let mut duct = DuctMem::new(alloc, input, &byte_by_byte, bad_reads, &[], 16)?;
    let mut frames = Frames::new();
    let mut buf = [0u8; 9000];
    for (answer, front) in wanted {
        assert!(rt; frames.live(), "before {answer:?} of {input:?}");
        assert_eq!(rt; frames.next(&mut duct, &mut buf), *answer, "in {input:?}");
        assert!(rt; buf.starts_with(front), "at {answer:?} of {input:?}");
    }
    assert!(rt; !frames.live(), "after {input:?}");
    assert!(rt; duct.told(), "for {input:?}");
    Ok(())
}

#[test]
fn frames_are_read_by_their_lengths(rt: HostRuntime) -> Result<(), Fail> {
    let alloc = rt.alloc();
    reads(&rt, alloc, &[], &[], &[(FrameOut::End, &[])])?;
    reads(
        &rt,
        alloc,
        &[0, 0, 0, 1, 2, 3],
        &[],
        &[
            (FrameOut::Empty, &[]),
            (FrameOut::Whole(1), &[2]),
            (FrameOut::Cut(5), &[]),
        ],
    )?;
    reads(
        &rt,
        alloc,
        &[0, 2, 7, 8, 0, 0],
        &[],
        &[
            (FrameOut::Whole(2), &[7, 8]),
            (FrameOut::Empty, &[]),
            (FrameOut::End, &[]),
        ],
    )?;
    reads(
        &rt,
        alloc,
        &[0, 1, 7, 0, 3, 8, 9],
        &[],
        &[(FrameOut::Whole(1), &[7]), (FrameOut::Cut(3), &[])],
    )?;
    reads(&rt, alloc, &[0, 2], &[], &[(FrameOut::Cut(0), &[])])
}

#[test]
fn a_failed_read_is_told_wherever_it_comes(rt: HostRuntime) -> Result<(), Fail> {
    let alloc = rt.alloc();
    reads(&rt, alloc, &[0, 1, 7], &[0], &[(FrameOut::ReadFault, &[])])?;
    reads(&rt, alloc, &[0, 1, 7], &[1], &[(FrameOut::ReadFault, &[])])?;
    reads(&rt, alloc, &[0, 1, 7], &[2], &[(FrameOut::ReadFault, &[])])?;
    reads(
        &rt,
        alloc,
        &[0, 1, 7, 0, 2, 8, 9],
        &[6],
        &[(FrameOut::Whole(1), &[7]), (FrameOut::ReadFault, &[])],
    )
}

#[test]
fn a_frame_of_more_than_9000_bytes_is_passed_over(rt: HostRuntime) -> Result<(), Fail> {
    // 9,000 is 23 28 and 9,001 is 23 29 in hexadecimal
    let mut input = [0u8; 18_005];
    input[0] = 0x23;
    input[1] = 0x28;
    input[2] = 6;
    input[9001] = 7;
    input[9002] = 0x23;
    input[9003] = 0x29;
    let mut duct = DuctMem::new(rt.alloc(), &input, &[], &[], &[], 16)?;
    let mut frames = Frames::new();
    let mut buf = [0u8; 9000];
    assert_eq!(rt; frames.next(&mut duct, &mut buf), FrameOut::Whole(9000));
    assert_eq!(rt; buf[0], 6);
    assert_eq!(rt; buf[8999], 7);
    for answer in [FrameOut::Oversize(9001), FrameOut::End] {
        assert!(rt; frames.live());
        assert_eq!(rt; frames.next(&mut duct, &mut buf), answer);
    }
    assert!(rt; !frames.live());
    assert!(rt; duct.told());
    Ok(())
}

#[test]
fn a_frame_is_written_as_its_length_and_its_bytes(rt: HostRuntime) -> Result<(), Fail> {
    let cases: [(&[u64], PutOut, &[u8]); 3] = [
        (&[], PutOut::Done, &[0, 3, 7, 8, 9]),
        (&[0], PutOut::WriteFault, &[]),
        (&[1], PutOut::WriteFault, &[0, 3]),
    ];
    for (bad_writes, answer, written) in cases {
        let mut duct = DuctMem::new(rt.alloc(), &[], &[], &[], bad_writes, 16)?;
        assert_eq!(rt;
            put_frame(&mut duct, &[7, 8, 9]),
            answer,
            "failing {bad_writes:?}"
        );
        assert_eq!(rt; duct.written(), written, "failing {bad_writes:?}");
        assert!(rt; duct.told(), "failing {bad_writes:?}");
    }
    Ok(())
}

#[test]
fn the_high_byte_of_a_length_is_written_first(rt: HostRuntime) -> Result<(), Fail> {
    let mut duct = DuctMem::new(rt.alloc(), &[], &[], &[], &[], 300)?;
    assert_eq!(rt; put_frame(&mut duct, &[5; 258]), PutOut::Done);
    assert_eq!(rt; duct.written().len(), 260);
    assert!(rt; duct.written().starts_with(&[1, 2, 5]));
    assert!(rt; duct.told());
    Ok(())
}
