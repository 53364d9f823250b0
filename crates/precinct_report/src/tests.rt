//! Lines that were written by hand.
use super::*;
use packet_header::{Block, Precinct};
use precinct_geometry::Place;
use scl_outside::{DuctMem, PutOut};
use std::process::Abort;
use std::test::Fail;

const COUNTS: Counts = Counts {
    kept: 5,
    old: 1,
    refused: 2,
    unsupported: 3,
    disagreed: 18_446_744_073_709_551_615,
    broken: 4,
};

#[test]
fn a_precinct_has_a_line_and_one_for_each_code_block(rt: HostRuntime) -> Result<(), Fail> {
    let blocks = [
        Block {
            band: 1,
            col: 2,
            row: 3,
            planes: 74,
            passes: 1,
            cleanup: 2,
            refine: 0,
        },
        Block {
            band: 3,
            col: 0,
            row: 65_535,
            planes: 0,
            passes: 3,
            cleanup: 3,
            refine: 1,
        },
    ];
    let precinct = Precinct {
        stamp: 4_294_967_295,
        place: Place { c: 1, r: 5, k: 7 },
        pid: 1_048_575,
        blocks: &blocks,
        bytes: &[0xAA, 0xBB, 0x00, 0x0F, 0xF0, 0x9C],
    };
    let mut duct = DuctMem::new(rt.alloc(), &[], &[], &[], &[], 10_000)?;
    assert_eq!(rt; write_precinct(&mut duct, &precinct), PutOut::Done);
    let lines: &[u8] = b"P stamp=4294967295 pid=1048575 c=1 r=5 k=7 blocks=2
B band=1 col=2 row=3 planes=74 passes=1 cleanup=2 refine=0 bytes=aabb
B band=3 col=0 row=65535 planes=0 passes=3 cleanup=3 refine=1 bytes=000ff09c
";
    assert_eq!(rt; duct.written(), lines);
    assert!(rt; duct.told());
    Ok(())
}

#[test]
fn the_end_line_has_six_counts(rt: HostRuntime) -> Result<(), Fail> {
    let mut duct = DuctMem::new(rt.alloc(), &[], &[], &[], &[], 10_000)?;
    assert_eq!(rt; write_end(&mut duct, &COUNTS), PutOut::Done);
    let line: &[u8] =
        b"END kept=5 old=1 refused=2 unsupported=3 disagreed=18446744073709551615 broken=4\n";
    assert_eq!(rt; duct.written(), line);
    assert!(rt; duct.told());
    Ok(())
}

#[test]
fn a_failed_write_is_told(rt: HostRuntime) -> Result<(), Fail> {
    let mut duct = DuctMem::new(rt.alloc(), &[], &[], &[], &[0], 10_000)?;
    assert_eq!(rt; write_end(&mut duct, &COUNTS), PutOut::WriteFault);
    assert!(rt; duct.written().is_empty());
    assert!(rt; duct.told());
    Ok(())
}
