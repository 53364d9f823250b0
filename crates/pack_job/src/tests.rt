//! Codestreams that are packed, over objects in memory.
use super::*;
use packetiser::PackPlan;
use scl_outside::DuctMem;
use scl_run::finish;
use std::alloc::Global;
use std::process::Abort;
use std::test::Fail;

/// The main header of a 1 × 1 image with one precinct of one code-block, with Psot 0.
const HEAD: [u8; 89] = [
    0xFF, 0x4F, 0xFF, 0x51, 0x00, 0x29, 0x40, 0x00, 0x00, 0x00, 0x00, 0x01, 0x00, 0x00, 0x00, 0x01,
    0x00, 0x00, 0x00, 0x00, 0x00, 0x00, 0x00, 0x00, 0x00, 0x00, 0x00, 0x01, 0x00, 0x00, 0x00, 0x01,
    0x00, 0x00, 0x00, 0x00, 0x00, 0x00, 0x00, 0x00, 0x00, 0x01, 0x07, 0x01, 0x01, 0xFF, 0x50, 0x00,
    0x08, 0x00, 0x02, 0x00, 0x00, 0x00, 0x00, 0xFF, 0x52, 0x00, 0x0C, 0x00, 0x03, 0x00, 0x01, 0x00,
    0x00, 0x04, 0x04, 0x40, 0x01, 0xFF, 0x5C, 0x00, 0x04, 0x40, 0x48, 0xFF, 0x90, 0x00, 0x0A, 0x00,
    0x00, 0x00, 0x00, 0x00, 0x00, 0x00, 0x01, 0xFF, 0x93,
];

/// The length, the RTP header and the payload header of the Main and of the Body of one packet.
const MAIN: [u8; 22] = [
    0x00, 0x6D, 0x80, 0x60, 0, 0, 0, 0, 0, 0, 0, 0, 0, 1, 0xC4, 0, 0, 0, 0, 0, 0, 0,
];

const BODY: [u8; 28] = [
    0x00, 0x1A, 0x80, 0xE0, 0, 1, 0, 0, 0, 0, 0, 0, 0, 1, 0x07, 0x80, 0, 0, 0, 0, 0, 0, 0xC8, 0x80,
    0xAA, 0xBB, 0xFF, 0xD9,
];

/// The main header and these bytes.
fn after_head(alloc: Global, tail: &[u8]) -> Result<Vec<u8>, Fail> {
    let mut bytes = Vec::from_slice(alloc, &HEAD)?;
    bytes.extend_from_slice(tail)?;
    Ok(bytes)
}

/// The main header of a 3 × 1 image with three precincts of one code-block each.
const HEAD_OF_THREE: [u8; 90] = [
    0xFF, 0x4F, 0xFF, 0x51, 0x00, 0x29, 0x40, 0x00, 0x00, 0x00, 0x00, 0x03, 0x00, 0x00, 0x00, 0x01,
    0x00, 0x00, 0x00, 0x00, 0x00, 0x00, 0x00, 0x00, 0x00, 0x00, 0x00, 0x03, 0x00, 0x00, 0x00, 0x01,
    0x00, 0x00, 0x00, 0x00, 0x00, 0x00, 0x00, 0x00, 0x00, 0x01, 0x07, 0x01, 0x01, 0xFF, 0x50, 0x00,
    0x08, 0x00, 0x02, 0x00, 0x00, 0x00, 0x00, 0xFF, 0x52, 0x00, 0x0D, 0x01, 0x03, 0x00, 0x01, 0x00,
    0x00, 0x04, 0x04, 0x40, 0x01, 0x00, 0xFF, 0x5C, 0x00, 0x04, 0x40, 0x48, 0xFF, 0x90, 0x00, 0x0A,
    0x00, 0x00, 0x00, 0x00, 0x00, 0x00, 0x00, 0x01, 0xFF, 0x93,
];

/// A codestream of three packets of 102 bytes each, with these bytes after them.
fn three(alloc: Global, end: &[u8]) -> Result<Vec<u8>, Fail> {
    let mut bytes = Vec::from_slice(alloc, &HEAD_OF_THREE)?;
    for fill in [0x11u8, 0x22, 0x33] {
        bytes.extend_from_slice(&[0xEF, 0x64])?;
        for _ in 0..100 {
            bytes.push(fill)?;
        }
    }
    bytes.extend_from_slice(end)?;
    Ok(bytes)
}

/// The status, the number of bytes written and what was noted.
fn packs(
    rt: &impl Abort,
    alloc: Global,
    input: &[u8],
    mtu: u16,
    wanted: (u8, usize, &str),
) -> Result<Vec<u8>, Fail> {
    let mut duct = DuctMem::new(alloc, input, &[7, 90], &[], &[], 10_000)?;
    let plan = PackPlan::new(mtu, false, 96, 1, 0, 0, 3600).ok_or("a plan")?;
    let ending = pack(alloc, plan, &mut duct);
    assert_eq!(rt; finish(ending, &mut duct), wanted.0, "at {mtu}");
    assert_eq!(rt; duct.written().len(), wanted.1, "at {mtu}");
    assert!(rt; duct.noted() == wanted.2.as_bytes(), "at {mtu}");
    assert!(rt; duct.told());
    Ok(Vec::from_slice(alloc, duct.written())?)
}

#[test]
fn captures_are_those_of_the_cut(rt: HostRuntime) -> Result<(), Fail> {
    let alloc = rt.alloc();
    let one = after_head(alloc, &[0xC8, 0x80, 0xAA, 0xBB, 0xFF, 0xD9])?;
    let capture = packs(&rt, alloc, &one, 1400, (0, 139, ""))?;
    let mut frames = Vec::from_slice(alloc, &MAIN)?;
    frames.extend_from_slice(&HEAD)?;
    frames.extend_from_slice(&BODY)?;
    assert!(rt; capture.as_slice() == frames.as_slice());
    packs(
        &rt,
        alloc,
        &one,
        64,
        (6, 0, "scl: refused at 0: header too long\n"),
    )?;
    let cut = after_head(alloc, &[0xC8, 0x80, 0xAA, 0xBB, 0xFF])?;
    packs(
        &rt,
        alloc,
        &cut,
        1400,
        (6, 111, "scl: refused at 94: cut\n"),
    )?;
    Ok(())
}

#[test]
fn eoc_is_cut_where_the_room_ends_inside_it(rt: HostRuntime) -> Result<(), Fail> {
    let alloc = rt.alloc();
    let y = three(alloc, &[0xFF, 0xD9])?;
    packs(&rt, alloc, &y, 110, (0, 508, ""))?;
    packs(&rt, alloc, &y, 326, (0, 464, ""))?;
    packs(&rt, alloc, &y, 327, (0, 464, ""))?;
    packs(&rt, alloc, &y, 328, (0, 442, ""))?;
    let cut = three(alloc, &[0xFF])?;
    packs(
        &rt,
        alloc,
        &cut,
        327,
        (6, 112, "scl: refused at 397: cut\n"),
    )?;
    Ok(())
}
