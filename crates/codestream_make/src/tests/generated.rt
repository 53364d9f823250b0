//! Generated codestreams, against the values of other programs.
use crate::{Sub, generate};
use std::process::Abort;
use std::test::Fail;

/// That these bytes have this length, and end with EOC.
fn has_length(rt: &impl Abort, bytes: &[u8], len: usize) {
    assert_eq!(rt; bytes.len(), len);
    assert!(rt; bytes.ends_with(&[0xFF, 0xD9]));
}

#[test]
fn a_small_codestream_is_generated(rt: HostRuntime) -> Result<(), Fail> {
    let bytes = generate(rt.alloc(), 1, 8, 8, 1, 0, Sub::S444, 3, false)?;
    has_length(&rt, &bytes, 202);
    // Psot is 114.
    assert_eq!(rt; (bytes.get(94), bytes.get(95)), (Some(&0), Some(&114)));
    // The packet header, and the first bytes of the code-block.
    assert_eq!(rt;
        (bytes.get(100), bytes.get(101), bytes.get(102)),
        (Some(&0xDB), Some(&0xBB), Some(&0x98))
    );
    assert_eq!(rt;
        (bytes.get(103), bytes.get(104), bytes.get(105)),
        (Some(&0xCC), Some(&0x05), Some(&0x23))
    );
    Ok(())
}

#[test]
fn codestreams_of_other_shapes_are_generated(rt: HostRuntime) -> Result<(), Fail> {
    let alloc = rt.alloc();
    let bytes = generate(alloc, 9, 100, 60, 4, 3, Sub::S420, 3, false)?;
    has_length(&rt, &bytes, 1877);
    let bytes = generate(alloc, 5, 1920, 1080, 3, 5, Sub::S422, 3, false)?;
    has_length(&rt, &bytes, 51_162);
    let bytes = generate(alloc, 5, 1920, 1080, 3, 5, Sub::S422, 2, true)?;
    has_length(&rt, &bytes, 51_407);
    Ok(())
}
