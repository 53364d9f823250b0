//! `parse` through the top call: packets up to the first fault.
use super::headers::HEADER;
use super::*;

/// The main header of a picture of one pixel, and these bytes.
fn codestream(alloc: Global, bytes: &[u8]) -> Result<Vec<u8>, AllocError> {
    let mut all = Vec::from_slice(alloc, HEADER)?;
    all.extend_from_slice(bytes)?;
    Ok(all)
}

#[test]
fn packets_are_written_up_to_the_first_fault(rt: HostRuntime) -> Result<(), Fail> {
    let empty = b"P stamp=0 pid=0 c=0 r=0 k=0 blocks=0\n";
    let stuffed = b"P stamp=0 pid=0 c=0 r=0 k=0 blocks=1
B band=0 col=0 row=0 planes=0 passes=1 cleanup=2 refine=0 bytes=0102
";
    let cases: [(&[u8], u8, &[u8], &[u8]); 8] = [
        (&[0, 0xFF, 0xD9], 0, empty, b""),
        (&[0xEF, 0xFF, 0, 1, 0, 1, 2, 0xFF, 0xD9], 0, stuffed, b""),
        (
            &[0xEF, 0xFF, 0x7F, 0xC0, 0, 0, 0x40, 1, 2, 0xFF, 0xD9],
            0,
            stuffed,
            b"",
        ),
        (&[0xFA], 6, b"", b"scl: refused at 89: passes\n"),
        (&[0xE1], 6, b"", b"scl: refused at 89: cleanup short\n"),
        (
            &[0xEF, 0xFF, 0x7F, 0xE0],
            6,
            b"",
            b"scl: refused at 89: length bits\n",
        ),
        (&[0, 0], 6, empty, b"scl: refused at 91: cut\n"),
        (&[0, 0, 0], 6, empty, b"scl: refused at 90: no eoc\n"),
    ];
    for (row, (bytes, wanted, lines, line)) in cases.iter().enumerate() {
        let input = codestream(rt.alloc(), bytes)?;
        let (status, out) = run_over(rt.alloc(), &["parse", "0", "3600"], &input, &[], &[])?;
        assert_eq!(rt; status, *wanted, "in row {row}");
        assert_eq!(rt; out.written(), *lines, "in row {row}");
        assert_eq!(rt; out.noted(), *line, "in row {row}");
        assert!(rt; out.told());
    }
    Ok(())
}

#[test]
fn eph_follows_each_packet_header_where_the_main_header_says_so(
    rt: HostRuntime,
) -> Result<(), Fail> {
    let empty = b"P stamp=0 pid=0 c=0 r=0 k=0 blocks=0\n";
    let one = b"P stamp=0 pid=0 c=0 r=0 k=0 blocks=1
B band=0 col=0 row=0 planes=2 passes=1 cleanup=2 refine=0 bytes=aabb
";
    let cases: [(&[u8], u8, &[u8], &[u8]); 6] = [
        (
            &[0xC8, 0x80, 0xFF, 0x92, 0xAA, 0xBB, 0xFF, 0xD9],
            0,
            one,
            b"",
        ),
        (&[0, 0xFF, 0x92, 0xFF, 0xD9], 0, empty, b""),
        (
            &[0xC8, 0x80, 0xAA, 0xBB, 0xFF, 0xD9],
            6,
            b"",
            b"scl: refused at 89: no eph\n",
        ),
        (
            &[0xC8, 0x80, 0xFF, 0x93, 0xAA, 0xBB, 0xFF, 0xD9],
            6,
            b"",
            b"scl: refused at 89: no eph\n",
        ),
        (&[0xC8, 0x80, 0xFF], 6, b"", b"scl: refused at 92: cut\n"),
        (&[0, 0], 6, b"", b"scl: refused at 89: no eph\n"),
    ];
    for (row, (bytes, wanted, lines, line)) in cases.iter().enumerate() {
        let mut input = codestream(rt.alloc(), bytes)?;
        if let Some(scod) = input.get_mut(59) {
            *scod = 4;
        }
        let (status, out) = run_over(rt.alloc(), &["parse", "0", "3600"], &input, &[], &[])?;
        assert_eq!(rt; status, *wanted, "in row {row}");
        assert_eq!(rt; out.written(), *lines, "in row {row}");
        assert_eq!(rt; out.noted(), *line, "in row {row}");
        assert!(rt; out.told());
    }
    Ok(())
}
