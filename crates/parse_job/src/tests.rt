//! The job over objects in memory.
use super::*;
use scl_outside::DuctMem;
use scl_run::finish;
use std::alloc::Global;
use std::process::Abort;
use std::test::Fail;

/// The main header of a 1 × 1 image with one precinct of one code-block, with Psot 0.
const HEAD: [u8; 89] = [
    0xFF, 0x4F, 0xFF, 0x51, 0x00, 0x29, 0x40, 0x00, 0x00, 0x00, 0x00, 0x01, 0x00, 0x00, 0x00, 0x01,
    0x00, 0x00, 0x00, 0x00, 0x00, 0x00, 0x00, 0x00, 0x00, 0x00, 0x00, 0x01, 0x00, 0x00, 0x00, 0x01,
    0x00, 0x00, 0x00, 0x00, 0x00, 0x00, 0x00, 0x00, 0x00, 0x01, 0x07, 0x01, 0x01, 0xFF, 0x50, 0x00,
    0x08, 0x00, 0x02, 0x00, 0x00, 0x00, 0x00, 0xFF, 0x52, 0x00, 0x0C, 0x00, 0x03, 0x00, 0x01, 0x00,
    0x00, 0x04, 0x04, 0x40, 0x01, 0xFF, 0x5C, 0x00, 0x04, 0x40, 0x48, 0xFF, 0x90, 0x00, 0x0A, 0x00,
    0x00, 0x00, 0x00, 0x00, 0x00, 0x00, 0x01, 0xFF, 0x93,
];

/// The lines of packets.
const EMPTY: &str = "P stamp=0 pid=0 c=0 r=0 k=0 blocks=0\n";

const AABB: &str = "P stamp=0 pid=0 c=0 r=0 k=0 blocks=1\n\
B band=0 col=0 row=0 planes=2 passes=1 cleanup=2 refine=0 bytes=aabb\n";

const SECOND: &str = "P stamp=3600 pid=0 c=0 r=0 k=0 blocks=1\n\
B band=0 col=0 row=0 planes=2 passes=1 cleanup=2 refine=0 bytes=aabb\n";

const NO_PLANES: &str = "P stamp=0 pid=0 c=0 r=0 k=0 blocks=1\n\
B band=0 col=0 row=0 planes=0 passes=1 cleanup=2 refine=0 bytes=0102\n";

/// A packet with one code-block of two bytes, and EOC.
const TAIL: [u8; 6] = [0xC8, 0x80, 0xAA, 0xBB, 0xFF, 0xD9];

/// The status, what was written and what was noted of an input.
fn shows(
    rt: &impl Abort,
    alloc: Global,
    input: &[u8],
    status: u8,
    written: &str,
    noted: &str,
) -> Result<(), Fail> {
    let mut duct = DuctMem::new(alloc, input, &[], &[], &[], 10_000)?;
    let ending = parse(alloc, 0, 3600, &mut duct);
    assert_eq!(rt; finish(ending, &mut duct), status, "of {input:?}");
    assert!(rt; duct.written() == written.as_bytes(), "of {input:?}");
    assert!(rt; duct.noted() == noted.as_bytes(), "of {input:?}");
    assert!(rt; duct.told());
    Ok(())
}

/// The main header and these bytes.
fn after_head(alloc: Global, tail: &[u8]) -> Result<Vec<u8>, Fail> {
    let mut bytes = Vec::from_slice(alloc, &HEAD)?;
    bytes.extend_from_slice(tail)?;
    Ok(bytes)
}

#[test]
fn packets_are_written_up_to_the_first_fault(rt: HostRuntime) -> Result<(), Fail> {
    let alloc = rt.alloc();
    let stuffed = [0xEF, 0xFF, 0x00, 0x01, 0x00, 0x01, 0x02, 0xFF, 0xD9];
    let greatest = [
        0xEF, 0xFF, 0x7F, 0xC0, 0x00, 0x00, 0x40, 0x01, 0x02, 0xFF, 0xD9,
    ];
    let rows: [(&[u8], u8, &str, &str); 9] = [
        (&[0x00, 0xFF, 0xD9], 0, EMPTY, ""),
        (&TAIL, 0, AABB, ""),
        (&stuffed, 0, NO_PLANES, ""),
        (&greatest, 0, NO_PLANES, ""),
        (&[0xFA], 6, "", "scl: refused at 89: passes\n"),
        (&[0xE1], 6, "", "scl: refused at 89: cleanup short\n"),
        (
            &[0xEF, 0xFF, 0x7F, 0xE0],
            6,
            "",
            "scl: refused at 89: length bits\n",
        ),
        (&[0x00], 6, EMPTY, "scl: refused at 90: cut\n"),
        (
            &[0x00, 0x00, 0x00],
            6,
            EMPTY,
            "scl: refused at 90: no eoc\n",
        ),
    ];
    for (tail, status, written, noted) in rows {
        let input = after_head(alloc, tail)?;
        shows(&rt, alloc, &input, status, written, noted)?;
    }
    shows(&rt, alloc, &[], 0, "", "")?;
    shows(&rt, alloc, &[0x00], 6, "", "scl: refused at 1: cut\n")?;
    shows(
        &rt,
        alloc,
        &[0x00, 0x00],
        6,
        "",
        "scl: refused at 0: no soc\n",
    )
}

#[test]
fn a_wrong_psot_is_refused_after_the_packets(rt: HostRuntime) -> Result<(), Fail> {
    let alloc = rt.alloc();
    let mut input = Vec::from_slice(alloc, &HEAD[..84])?;
    input.extend_from_slice(&[19])?;
    input.extend_from_slice(&HEAD[85..])?;
    input.extend_from_slice(&TAIL)?;
    shows(&rt, alloc, &input, 6, AABB, "scl: refused at 93: psot\n")
}

#[test]
fn each_codestream_has_its_stamp(rt: HostRuntime) -> Result<(), Fail> {
    let alloc = rt.alloc();
    let mut input = after_head(alloc, &TAIL)?;
    input.extend_from_slice(&HEAD)?;
    input.extend_from_slice(&TAIL)?;
    let mut both = String::from_str(alloc, AABB)?;
    both.push_str(SECOND)?;
    shows(&rt, alloc, &input, 0, &both, "")
}

#[test]
fn a_failed_read_or_write_ends_the_run(rt: HostRuntime) -> Result<(), Fail> {
    let alloc = rt.alloc();
    let input = after_head(alloc, &TAIL)?;
    let mut duct = DuctMem::new(alloc, &input, &[93], &[1], &[], 10_000)?;
    assert_eq!(rt;
        parse(alloc, 0, 3600, &mut duct),
        scl_run::Ending::ReadFault
    );
    assert!(rt; duct.written() == AABB.as_bytes());
    assert!(rt; duct.told());
    let mut duct = DuctMem::new(alloc, &input, &[], &[], &[0], 10_000)?;
    assert_eq!(rt;
        parse(alloc, 0, 3600, &mut duct),
        scl_run::Ending::WriteFault
    );
    assert!(rt; duct.written().is_empty());
    assert!(rt; duct.told());
    Ok(())
}
