//! The job over objects in memory.
use super::*;
use scl_outside::DuctMem;
use scl_run::finish;
use std::alloc::Global;
use std::process::Abort;
use std::test::Fail;

/// A capture of five frames: of 3 bytes, empty, of 2 bytes, of 1 byte, and empty.
const FRAMES: [u8; 16] = [0, 3, 1, 2, 3, 0, 0, 0, 2, 4, 5, 0, 1, 6, 0, 0];

/// The capture of two frames of one pixel: a Main of 109 bytes and a Body of 26.
const ONE_PIXEL: [u8; 139] = [
    0x00, 0x6D, 0x80, 0x60, 0x00, 0x00, 0x00, 0x00, 0x00, 0x00, 0x00, 0x00, 0x00, 0x01, 0xC4, 0x00,
    0x00, 0x00, 0x00, 0x00, 0x00, 0x00, 0xFF, 0x4F, 0xFF, 0x51, 0x00, 0x29, 0x40, 0x00, 0x00, 0x00,
    0x00, 0x01, 0x00, 0x00, 0x00, 0x01, 0x00, 0x00, 0x00, 0x00, 0x00, 0x00, 0x00, 0x00, 0x00, 0x00,
    0x00, 0x01, 0x00, 0x00, 0x00, 0x01, 0x00, 0x00, 0x00, 0x00, 0x00, 0x00, 0x00, 0x00, 0x00, 0x01,
    0x07, 0x01, 0x01, 0xFF, 0x50, 0x00, 0x08, 0x00, 0x02, 0x00, 0x00, 0x00, 0x00, 0xFF, 0x52, 0x00,
    0x0C, 0x00, 0x03, 0x00, 0x01, 0x00, 0x00, 0x04, 0x04, 0x40, 0x01, 0xFF, 0x5C, 0x00, 0x04, 0x40,
    0x48, 0xFF, 0x90, 0x00, 0x0A, 0x00, 0x00, 0x00, 0x00, 0x00, 0x00, 0x00, 0x01, 0xFF, 0x93, 0x00,
    0x1A, 0x80, 0xE0, 0x00, 0x01, 0x00, 0x00, 0x00, 0x00, 0x00, 0x00, 0x00, 0x01, 0x07, 0x80, 0x00,
    0x00, 0x00, 0x00, 0x00, 0x00, 0xC8, 0x80, 0xAA, 0xBB, 0xFF, 0xD9,
];

/// Delivers a list of an input: the status, what is written and what is noted are these.
fn delivers(
    rt: &impl Abort,
    alloc: Global,
    list: &[Item],
    input: &[u8],
    wanted: (u8, &[u8], &str),
) -> Result<(), Fail> {
    let mut duct = DuctMem::new(alloc, input, &[5, 1, 7], &[], &[], 20_000)?;
    let ending = deliver(alloc, list, &mut duct);
    assert_eq!(rt; finish(ending, &mut duct), wanted.0, "of {list:?}");
    assert!(rt; duct.written() == wanted.1, "of {list:?}");
    assert!(rt; duct.noted() == wanted.2.as_bytes(), "of {list:?}");
    assert!(rt; duct.told());
    Ok(())
}

#[test]
fn listed_frames_are_written_in_their_order(rt: HostRuntime) -> Result<(), Fail> {
    let rows: [(&[Item], &[u8]); 6] = [
        (&[], &[]),
        (&[Item::Span(0, 4)], &FRAMES),
        (&[Item::One(2), Item::One(0)], &[0, 2, 4, 5, 0, 3, 1, 2, 3]),
        (&[Item::One(3), Item::Span(3, 3)], &[0, 1, 6, 0, 1, 6]),
        (&[Item::One(1), Item::One(4), Item::One(1)], &[0; 6]),
        (&[Item::Span(2, 3)], &[0, 2, 4, 5, 0, 1, 6]),
    ];
    for (list, written) in rows {
        delivers(&rt, rt.alloc(), list, &FRAMES, (0, written, ""))?;
    }
    delivers(&rt, rt.alloc(), &[], &[], (0, &[], ""))
}

#[test]
fn the_frames_of_one_pixel_are_delivered(rt: HostRuntime) -> Result<(), Fail> {
    let alloc = rt.alloc();
    let list = [Item::One(1), Item::One(0), Item::One(1)];
    let mut written = Vec::from_slice(alloc, &ONE_PIXEL[111..])?;
    written.extend_from_slice(&ONE_PIXEL)?;
    assert_eq!(rt; written.len(), 28 + 111 + 28);
    delivers(&rt, alloc, &list, &ONE_PIXEL, (0, &written, ""))?;
    delivers(&rt, alloc, &[], &ONE_PIXEL, (0, &[], ""))
}

#[test]
fn the_first_missing_position_is_refused(rt: HostRuntime) -> Result<(), Fail> {
    let rows: [(&[Item], &str); 5] = [
        (&[Item::One(0), Item::One(2)], "2"),
        (&[Item::One(9), Item::One(2)], "9"),
        (&[Item::Span(0, 5)], "2"),
        (&[Item::Span(7, 9), Item::Span(0, 5)], "7"),
        (&[Item::Span(4_294_967_295, 4_294_967_295)], "4294967295"),
    ];
    for (list, position) in rows {
        let noted = format!(in rt.alloc(); "scl: refused at {position}: no such datagram\n")?;
        delivers(&rt, rt.alloc(), list, &ONE_PIXEL, (6, &[], &noted))?;
    }
    Ok(())
}

#[test]
fn a_cut_frame_is_refused_before_any_position(rt: HostRuntime) -> Result<(), Fail> {
    let cut = (6, [].as_slice(), "scl: refused at 111: cut frame\n");
    for len in 112..139 {
        for list in [[Item::One(0)].as_slice(), &[Item::One(9)], &[]] {
            delivers(&rt, rt.alloc(), list, &ONE_PIXEL[..len], cut)?;
        }
    }
    let start = (6, [].as_slice(), "scl: refused at 0: cut frame\n");
    delivers(&rt, rt.alloc(), &[], &[0], start)?;
    delivers(&rt, rt.alloc(), &[], &[0, 1], start)
}

#[test]
fn frames_of_any_length_are_delivered(rt: HostRuntime) -> Result<(), Fail> {
    let alloc = rt.alloc();
    let mut capture = Vec::from_slice(alloc, &[0, 1, 7, 0x23, 0x29])?;
    capture.extend_from_slice(&[0xAB; 9001])?;
    let list = [Item::One(1), Item::One(0)];
    let mut written = Vec::from_slice(alloc, &capture[3..])?;
    written.extend_from_slice(&[0, 1, 7])?;
    delivers(&rt, alloc, &list, &capture, (0, &written, ""))
}

#[test]
fn a_failed_read_or_write_ends_the_run(rt: HostRuntime) -> Result<(), Fail> {
    let alloc = rt.alloc();
    let list = [Item::One(2), Item::One(0)];
    for read in 0..5 {
        let mut duct = DuctMem::new(alloc, &FRAMES, &[4, 4, 4, 4], &[read], &[], 100)?;
        assert_eq!(rt;
            deliver(alloc, &list, &mut duct),
            scl_run::Ending::ReadFault
        );
        assert!(rt; duct.written().is_empty());
        assert!(rt; duct.told());
    }
    for (write, written) in [(0, [].as_slice()), (1, &[0, 2, 4, 5])] {
        let mut duct = DuctMem::new(alloc, &FRAMES, &[], &[], &[write], 100)?;
        assert_eq!(rt;
            deliver(alloc, &list, &mut duct),
            scl_run::Ending::WriteFault
        );
        assert!(rt; duct.written() == written);
        assert!(rt; duct.told());
    }
    Ok(())
}
