//! Main headers shown, and refused at their places.
use super::*;

/// The main header of a picture of one pixel: COD is at 55, QCD at 69 and SOT at 75.
pub const HEADER: &[u8] = &[
    0xFF, 0x4F, 0xFF, 0x51, 0x00, 0x29, 0x40, 0x00, 0x00, 0x00, 0x00, 0x01, 0x00, 0x00, 0x00, 0x01,
    0x00, 0x00, 0x00, 0x00, 0x00, 0x00, 0x00, 0x00, 0x00, 0x00, 0x00, 0x01, 0x00, 0x00, 0x00, 0x01,
    0x00, 0x00, 0x00, 0x00, 0x00, 0x00, 0x00, 0x00, 0x00, 0x01, 0x07, 0x01, 0x01, 0xFF, 0x50, 0x00,
    0x08, 0x00, 0x02, 0x00, 0x00, 0x00, 0x00, 0xFF, 0x52, 0x00, 0x0C, 0x00, 0x03, 0x00, 0x01, 0x00,
    0x00, 0x04, 0x04, 0x40, 0x01, 0xFF, 0x5C, 0x00, 0x04, 0x40, 0x48, 0xFF, 0x90, 0x00, 0x0A, 0x00,
    0x00, 0x00, 0x00, 0x00, 0x00, 0x00, 0x01, 0xFF, 0x93,
];

/// The header with the bytes from one place up to another replaced, and `behind` bytes 0 after it.
fn changed(
    alloc: Global,
    from: usize,
    to: usize,
    put: &[u8],
    behind: usize,
) -> Result<Vec<u8>, AllocError> {
    let mut bytes = Vec::new(alloc);
    for (at, byte) in HEADER.iter().enumerate() {
        if at == from {
            bytes.extend_from_slice(put)?;
        }
        if at < from || at >= to {
            bytes.push(*byte)?;
        }
    }
    for _ in 0..behind {
        bytes.push(0)?;
    }
    Ok(bytes)
}

/// A comment, PLT and TLM, which are passed over.
const PASSED_OVER: [u8; 27] = [
    0xFF, 0x64, 0x00, 0x08, 0x00, 0x01, 0x6D, 0x61, 0x64, 0x65, 0xFF, 0x5D, 0x00, 0x05, 0x00, 0x40,
    0x48, 0xFF, 0x55, 0x00, 0x08, 0x00, 0x40, 0x00, 0x00, 0x00, 0x12,
];

#[test]
fn a_main_header_is_shown_in_lines(rt: HostRuntime) -> Result<(), Fail> {
    let input = changed(rt.alloc(), 75, 75, &PASSED_OVER, 100)?;
    let (status, duct) = run_over(rt.alloc(), &["head"], &input, &[], &[])?;
    let lines =
        "AREA x0=0 y0=0 x1=1 y1=1\nLEVELS 0\nBLOCK 6 6\nCOMP 0 1 1\nPREC 0 15 15\nPSOT 0\nLENGTH 116\n";
    assert_eq!(rt; status, 0);
    assert_eq!(rt; duct.written(), lines.as_bytes());
    assert_eq!(rt; duct.noted(), [].as_slice());
    assert!(rt; duct.told());
    Ok(())
}

#[test]
fn another_order_has_a_line_and_eph_has_none(rt: HostRuntime) -> Result<(), Fail> {
    let pcrl =
        "AREA x0=0 y0=0 x1=1 y1=1\nLEVELS 0\nBLOCK 6 6\nCOMP 0 1 1\nPREC 0 15 15\nPSOT 0\nLENGTH 89\n";
    let rpcl =
        "AREA x0=0 y0=0 x1=1 y1=1\nLEVELS 0\nORDER 2\nBLOCK 6 6\nCOMP 0 1 1\nPREC 0 15 15\nPSOT 0\nLENGTH 89\n";
    let cases: [(usize, u8, &str); 2] = [(60, 2, rpcl), (59, 4, pcrl)];
    for (row, (at, byte, lines)) in cases.iter().enumerate() {
        let input = changed(rt.alloc(), *at, *at + 1, &[*byte], 0)?;
        let (status, duct) = run_over(rt.alloc(), &["head"], &input, &[], &[])?;
        assert_eq!(rt; status, 0, "in row {row}");
        assert_eq!(rt; duct.written(), lines.as_bytes(), "in row {row}");
        assert!(rt; duct.told());
    }
    Ok(())
}

/// The header with `components` components, each with the steps 1 and 1.
fn with_components(alloc: Global, components: u8) -> Result<Vec<u8>, AllocError> {
    let mut bytes = Vec::from_slice(alloc, &HEADER[..4])?;
    bytes.extend_from_slice(&[0, 38 + 3 * (components % 32)])?;
    bytes.extend_from_slice(&HEADER[6..40])?;
    bytes.extend_from_slice(&[0, components])?;
    for _ in 0..components {
        bytes.extend_from_slice(&[7, 1, 1])?;
    }
    bytes.extend_from_slice(&HEADER[45..])?;
    Ok(bytes)
}

#[test]
fn up_to_sixteen_components_are_shown(rt: HostRuntime) -> Result<(), Fail> {
    let input = with_components(rt.alloc(), 16)?;
    assert_eq!(rt; input.len(), 134);
    let (status, duct) = run_over(rt.alloc(), &["head"], &input, &[], &[])?;
    assert_eq!(rt; status, 0);
    let lines = duct.written().split(|byte| *byte == b'\n');
    assert_eq!(rt; lines.filter(|line| line.starts_with(b"COMP ")).count(), 16);
    let input = with_components(rt.alloc(), 17)?;
    let (status, duct) = run_over(rt.alloc(), &["head"], &input, &[], &[])?;
    assert_eq!(rt; status, 6);
    assert_eq!(rt; duct.noted(), b"scl: refused at 2: components\n".as_slice());
    Ok(())
}

#[test]
fn a_faulty_header_is_refused_at_its_place(rt: HostRuntime) -> Result<(), Fail> {
    let cases: [(usize, usize, &[u8], &str); 17] = [
        (0, 89, &[], "scl: refused at 0: cut\n"),
        (0, 89, &[0], "scl: refused at 1: cut\n"),
        (0, 89, &[0xFF, 0x4F, 0], "scl: refused at 3: cut\n"),
        (60, 89, &[], "scl: refused at 60: cut\n"),
        (0, 89, &[0, 0], "scl: refused at 0: no soc\n"),
        (
            0,
            89,
            &[0xFF, 0x4F, 0xFF, 0x52],
            "scl: refused at 2: no siz\n",
        ),
        (40, 42, &[0, 0], "scl: refused at 2: components\n"),
        (59, 60, &[2], "scl: refused at 55: sop\n"),
        (40, 42, &[0, 17], "scl: refused at 2: components\n"),
        (60, 61, &[1], "scl: refused at 55: order\n"),
        (73, 74, &[0x42], "scl: refused at 69: quant\n"),
        (45, 55, &[], "scl: refused at 65: missing ff50\n"),
        (
            75,
            75,
            &[0xFF, 0x5C, 0, 4, 0x40, 0x48],
            "scl: refused at 75: twice ff5c\n",
        ),
        (
            75,
            75,
            &[0xFF, 0x53, 0, 5, 0, 0],
            "scl: refused at 75: marker ff53\n",
        ),
        (
            0,
            89,
            &[0xFF, 0x4F, 0xFF, 0x51, 0, 0x28],
            "scl: refused at 2: length\n",
        ),
        (
            0,
            89,
            &[0xFF, 0x4F, 0xFF, 0x51, 0, 0x29],
            "scl: refused at 6: cut\n",
        ),
        (
            75,
            89,
            &[0xFF, 0x64, 0xFF, 0xFF],
            "scl: refused at 79: cut\n",
        ),
    ];
    for (row, (from, to, put, line)) in cases.iter().enumerate() {
        let input = changed(rt.alloc(), *from, *to, put, 0)?;
        for word in ["head", "order"] {
            let (status, duct) = run_over(rt.alloc(), &[word], &input, &[], &[])?;
            assert_eq!(rt; status, 6, "in row {row}");
            assert_eq!(rt; duct.written(), [].as_slice());
            assert_eq!(rt; duct.noted(), line.as_bytes(), "in row {row}");
            assert!(rt; duct.told());
        }
    }
    Ok(())
}

#[test]
fn a_header_ends_within_8192_bytes(rt: HostRuntime) -> Result<(), Fail> {
    let cases = [
        (8_191, "scl: refused at 8191: cut\n"),
        (8_192, "scl: refused at 8192: header past 8192\n"),
        (9_000, "scl: refused at 8192: header past 8192\n"),
    ];
    for (len, line) in cases {
        let input = changed(rt.alloc(), 75, 89, &[0xFF, 0x64, 0xFF, 0xFF], len - 79)?;
        for word in ["head", "order"] {
            let (status, duct) = run_over(rt.alloc(), &[word], &input, &[], &[])?;
            assert_eq!(rt; status, 6, "of {len} bytes");
            assert_eq!(rt; duct.noted(), line.as_bytes(), "of {len} bytes");
            assert!(rt; duct.told());
        }
    }
    Ok(())
}

#[test]
fn a_header_meets_faults(rt: HostRuntime) -> Result<(), Fail> {
    let cases: [(&[u64], &[u64], u8, &str); 2] = [
        (&[0], &[], 3, "scl: read fault\n"),
        (&[], &[0], 4, "scl: write fault\n"),
    ];
    for (bad_reads, bad_writes, wanted, line) in cases {
        let (status, duct) = run_over(rt.alloc(), &["head"], HEADER, bad_reads, bad_writes)?;
        assert_eq!(rt; status, wanted);
        assert_eq!(rt; duct.written(), [].as_slice());
        assert_eq!(rt; duct.noted(), line.as_bytes());
        assert!(rt; duct.told());
    }
    Ok(())
}

#[test]
fn nothing_is_read_once_the_verdict_is_fixed(rt: HostRuntime) -> Result<(), Fail> {
    // Reads give one byte each; the read after the one that fixes the verdict would fail.
    let refused = changed(rt.alloc(), 1, 2, &[0x50], 0)?;
    for command in ["head", "order"] {
        let words = words_of(rt.alloc(), &[command])?;
        let mut out = outside_over(rt.alloc(), &refused, &[1, 1, 1, 1], &[2], &[])?;
        assert_eq!(rt; run(rt.alloc(), &words, &mut out), 6, "of {command}");
        assert_eq!(rt; out.noted(), b"scl: refused at 0: no soc\n".as_slice());
        assert!(rt; out.told());
        let (status, out) = run_over(rt.alloc(), &[command], HEADER, &[1], &[])?;
        assert_eq!(rt; status, 0, "of {command}");
        assert!(rt; out.told());
    }
    Ok(())
}

#[test]
fn a_failed_read_is_not_tried_again(rt: HostRuntime) -> Result<(), Fail> {
    for (command, input) in [("head", HEADER), ("order", HEADER)] {
        let (status, out) = run_over(rt.alloc(), &[command], input, &[0], &[])?;
        assert_eq!(rt; status, 3, "of {command}");
        assert_eq!(rt; out.written(), [].as_slice());
        assert_eq!(rt; out.noted(), b"scl: read fault\n".as_slice());
        assert!(rt; out.told());
    }
    let (status, out) = run_over(rt.alloc(), &["thin", "7"], &CAPTURE_A, &[0], &[])?;
    assert_eq!(rt; status, 3);
    assert_eq!(rt; out.written(), [].as_slice());
    assert!(rt; out.told());
    Ok(())
}
