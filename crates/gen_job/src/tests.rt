//! The job over objects in memory.
use super::*;
use codestream_make::Sub;
use scl_outside::DuctMem;
use scl_run::finish;
use std::process::Abort;
use std::test::Fail;

/// A small picture of one component.
const SMALL: Generation = Generation {
    seed: 1,
    width: 8,
    height: 8,
    components: 1,
    levels: 0,
    sub: Sub::S444,
    order: 3,
    eph: false,
};

#[test]
fn a_generated_codestream_is_written(rt: HostRuntime) -> Result<(), Fail> {
    let alloc = rt.alloc();
    let mut duct = DuctMem::new(alloc, &[1, 2, 3], &[], &[], &[], 1000)?;
    let ending = write_generated(alloc, SMALL, &mut duct);
    assert_eq!(rt; finish(ending, &mut duct), 0);
    assert_eq!(rt; duct.written().len(), 202);
    assert!(rt; duct.written().ends_with(&[0x3C, 0x09, 0xFF, 0xD9]));
    assert!(rt; duct.noted().is_empty());
    assert!(rt; duct.told());
    Ok(())
}

#[test]
fn a_failed_write_ends_the_run(rt: HostRuntime) -> Result<(), Fail> {
    let alloc = rt.alloc();
    let mut duct = DuctMem::new(alloc, &[], &[], &[], &[0], 1000)?;
    let ending = write_generated(alloc, SMALL, &mut duct);
    assert_eq!(rt; finish(ending, &mut duct), 4);
    assert!(rt; duct.written().is_empty());
    assert!(rt; duct.noted() == "scl: write fault\n".as_bytes());
    assert!(rt; duct.told());
    Ok(())
}
