//! `pack` through the top call: the worked captures, what a fault leaves, and `report` of what was packed.
use super::captures::{CAPTURE_A, CAPTURE_B};
use super::delivers::{two_images, wrapping};
use super::headers::HEADER;
use super::hostile::joined;
use super::*;

/// The one packet and EOC of the codestream of capture A, which follow `HEADER`.
const ONE_PACKET: [u8; 6] = [0xC8, 0x80, 0xAA, 0xBB, 0xFF, 0xD9];

/// A main header of 92 bytes: 2 × 1 samples, one decomposition level, so two precincts of two resolutions.
const HEADER_OF_LEVELS: [u8; 92] = [
    0xFF, 0x4F, 0xFF, 0x51, 0x00, 0x29, 0x40, 0x00, 0x00, 0x00, 0x00, 0x02, 0x00, 0x00, 0x00, 0x01,
    0x00, 0x00, 0x00, 0x00, 0x00, 0x00, 0x00, 0x00, 0x00, 0x00, 0x00, 0x02, 0x00, 0x00, 0x00, 0x01,
    0x00, 0x00, 0x00, 0x00, 0x00, 0x00, 0x00, 0x00, 0x00, 0x01, 0x07, 0x01, 0x01, 0xFF, 0x50, 0x00,
    0x08, 0x00, 0x02, 0x00, 0x00, 0x00, 0x00, 0xFF, 0x52, 0x00, 0x0C, 0x00, 0x03, 0x00, 0x01, 0x00,
    0x01, 0x04, 0x04, 0x40, 0x01, 0xFF, 0x5C, 0x00, 0x07, 0x40, 0x48, 0x48, 0x48, 0x48, 0xFF, 0x90,
    0x00, 0x0A, 0x00, 0x00, 0x00, 0x00, 0x00, 0x00, 0x00, 0x01, 0xFF, 0x93,
];

/// What precedes the main header of 92 bytes in its frame.
const MAIN_OF_LEVELS: [u8; 22] = [
    0x00, 0x70, 0x80, 0x60, 0, 0, 0, 0, 0, 0, 0, 0, 0, 1, 0xC4, 0, 0, 0, 0, 0, 0, 0,
];

/// The frames of its two empty packets where a change of resolution ends a payload.
const LOW_LEVEL: [u8; 23] = [
    0x00, 0x15, 0x80, 0x60, 0, 1, 0, 0, 0, 0, 0, 0, 0, 1, 0x06, 0x80, 0, 0, 0, 0, 0, 0, 0,
];

const HIGH_LEVEL: [u8; 25] = [
    0x00, 0x17, 0x80, 0xE0, 0, 2, 0, 0, 0, 0, 0, 0, 0, 1, 0x07, 0x80, 0, 0, 0, 0, 0, 1, 0, 0xFF,
    0xD9,
];

/// The one frame of both packets where it doesn't.
const BOTH_LEVELS: [u8; 26] = [
    0x00, 0x18, 0x80, 0xE0, 0, 1, 0, 0, 0, 0, 0, 0, 0, 1, 0x06, 0x80, 0, 0, 0, 0, 0, 0, 0, 0, 0xFF,
    0xD9,
];

/// What precedes the codestream bytes of Bodies with RES 7 and a mark of PID 0 at 0, of 306 and 307 bytes without M and
/// of 308 with M; and of the Bodies with the rest of EOC.
const BODY_OF_306: [u8; 22] = [
    0x01, 0x46, 0x80, 0x60, 0, 1, 0, 0, 0, 0, 0, 0, 0, 1, 0x07, 0x80, 0, 0, 0, 0, 0, 0,
];

const BODY_OF_307: [u8; 22] = [
    0x01, 0x47, 0x80, 0x60, 0, 1, 0, 0, 0, 0, 0, 0, 0, 1, 0x07, 0x80, 0, 0, 0, 0, 0, 0,
];

const BODY_OF_308: [u8; 22] = [
    0x01, 0x48, 0x80, 0xE0, 0, 1, 0, 0, 0, 0, 0, 0, 0, 1, 0x07, 0x80, 0, 0, 0, 0, 0, 0,
];

const EOC_ALONE: [u8; 24] = [
    0x00, 0x16, 0x80, 0xE0, 0, 2, 0, 0, 0, 0, 0, 0, 0, 1, 0, 0, 0, 0, 0, 0, 0, 0, 0xFF, 0xD9,
];

const HALF_OF_EOC: [u8; 23] = [
    0x00, 0x15, 0x80, 0xE0, 0, 2, 0, 0, 0, 0, 0, 0, 0, 1, 0, 0, 0, 0, 0, 0, 0, 0, 0xD9,
];

/// The codestream of capture A.
fn one(alloc: Global) -> Result<Vec<u8>, AllocError> {
    joined(alloc, &[HEADER, &ONE_PACKET])
}

/// The codestream of capture B, 398 bytes: the main header has 90 of them.
fn three(alloc: Global) -> Result<Vec<u8>, AllocError> {
    joined(
        alloc,
        &[
            &CAPTURE_B[22..112],
            &CAPTURE_B[134..224],
            &CAPTURE_B[246..336],
            &CAPTURE_B[358..448],
            &CAPTURE_B[470..],
        ],
    )
}

/// A run of `pack` with MTU, mode and NUMBER, and what it comes to: the status, what is written, and what is noted.
#[derive(Drop)]
struct Row<'a> {
    values: [&'a str; 3],
    input: &'a [u8],
    status: u8,
    written: &'a [u8],
    noted: &'a [u8],
}

/// Packs with the payload type 96, the source 1, and the timestamps 0, 3600 and so on.
fn packs(rt: &impl Abort, alloc: Global, row: usize, wanted: &Row<'_>) -> Result<(), Fail> {
    let [mtu, mode, number] = wanted.values;
    let words = ["pack", mtu, mode, "96", "1", number, "0", "3600"];
    let (status, out) = run_over(alloc, &words, wanted.input, &[], &[])?;
    assert_eq!(rt; status, wanted.status, "in row {row}");
    assert!(rt; out.written() == wanted.written, "in row {row}");
    assert_eq!(rt; out.noted(), wanted.noted, "in row {row}");
    assert!(rt; out.told());
    Ok(())
}

#[test]
fn codestreams_are_cut_as_the_captures_show(rt: HostRuntime) -> Result<(), Fail> {
    let alloc = rt.alloc();
    let x = one(alloc)?;
    let y = three(alloc)?;
    let twice = joined(alloc, &[&y, &y])?;
    let levels = joined(alloc, &[&HEADER_OF_LEVELS, &[0, 0, 0xFF, 0xD9]])?;
    let other_order = with_bytes(alloc, &y, 0, &[(60, 2)])?;
    let later = wrapping(alloc)?;
    let ten = two_images(alloc)?;
    let rpcl = with_bytes(alloc, &CAPTURE_B, 0, &[(14, 0xC3), (82, 2)])?;
    let (main, bytes) = (&CAPTURE_B[..112], y.get(90..).ok_or("too few")?);
    let packets = bytes.get(..306).ok_or("too few")?;
    let and_half = bytes.get(..307).ok_or("too few")?;
    let eoc_after = joined(alloc, &[main, &BODY_OF_306, packets, &EOC_ALONE])?;
    let eoc_inside = joined(alloc, &[main, &BODY_OF_307, and_half, &HALF_OF_EOC])?;
    let all = joined(alloc, &[main, &BODY_OF_308, bytes])?;
    let main = joined(alloc, &[&MAIN_OF_LEVELS, &HEADER_OF_LEVELS])?;
    let split = joined(alloc, &[&main, &LOW_LEVEL, &HIGH_LEVEL])?;
    let plain = joined(alloc, &[&main, &BOTH_LEVELS])?;
    let rows: [(&str, &str, &str, &[u8], &[u8]); 13] = [
        ("1400", "plain", "0", &[], &[]),
        ("1400", "plain", "0", &x, &CAPTURE_A),
        ("109", "plain", "0", &x, &CAPTURE_A),
        ("110", "plain", "0", &y, &CAPTURE_B),
        ("110", "split", "0", &y, &CAPTURE_B),
        ("110", "plain", "16777214", &y, &later),
        ("110", "plain", "0", &twice, &ten),
        ("110", "plain", "0", &other_order, &rpcl),
        ("326", "plain", "0", &y, &eoc_after),
        ("327", "plain", "0", &y, &eoc_inside),
        ("328", "plain", "0", &y, &all),
        ("1400", "split", "0", &levels, &split),
        ("1400", "plain", "0", &levels, &plain),
    ];
    for (at, (mtu, mode, number, input, written)) in rows.iter().enumerate() {
        let row = Row {
            values: [*mtu, *mode, *number],
            input: *input,
            status: 0,
            written: *written,
            noted: b"",
        };
        packs(&rt, alloc, at, &row)?;
    }
    Ok(())
}

/// Packing this input in `split` mode is refused: what is written before, and what is noted.
fn refuses(
    rt: &impl Abort,
    alloc: Global,
    mtu: &str,
    input: &[u8],
    wanted: (&[u8], &[u8]),
) -> Result<(), Fail> {
    let words = ["pack", mtu, "split", "96", "1", "0", "0", "3600"];
    let (status, out) = run_over(alloc, &words, input, &[], &[])?;
    assert_eq!(rt; status, 6, "at {mtu}");
    assert!(rt; out.written() == wanted.0, "at {mtu}");
    assert_eq!(rt; out.noted(), wanted.1, "at {mtu}");
    assert!(rt; out.told());
    Ok(())
}

#[test]
fn a_refused_main_header_leaves_the_datagrams_before_it(rt: HostRuntime) -> Result<(), Fail> {
    let alloc = rt.alloc();
    let x = one(alloc)?;
    let line = b"scl: refused at 0: header too long\n";
    refuses(&rt, alloc, "64", &x, (b"", line))?;
    let sop = with_bytes(alloc, &x, 0, &[(59, 2)])?;
    refuses(&rt, alloc, "64", &sop, (b"", b"scl: refused at 55: sop\n"))?;
    let y = three(alloc)?;
    let both = joined(alloc, &[&x, &y])?;
    let line = b"scl: refused at 95: header too long\n";
    refuses(&rt, alloc, "109", &both, (&CAPTURE_A, line))?;
    let and_more = joined(alloc, &[&y, &[0]])?;
    let line = b"scl: refused at 399: cut\n";
    refuses(&rt, alloc, "110", &and_more, (&CAPTURE_B, line))
}

#[test]
fn a_refused_packet_leaves_the_datagrams_before_it(rt: HostRuntime) -> Result<(), Fail> {
    let alloc = rt.alloc();
    let main = joined(alloc, &[&MAIN_OF_LEVELS, &HEADER_OF_LEVELS])?;
    let refused = joined(alloc, &[&HEADER_OF_LEVELS, &[0, 0xFA]])?;
    let line = b"scl: refused at 93: passes\n";
    refuses(&rt, alloc, "1400", &refused, (&main, line))?;
    let begun = joined(alloc, &[&HEADER_OF_LEVELS, &[0, 0xC8, 0x80, 0xAA]])?;
    let low = joined(alloc, &[&main, &LOW_LEVEL])?;
    let line = b"scl: refused at 96: cut\n";
    refuses(&rt, alloc, "1400", &begun, (&low, line))
}

#[test]
fn a_refused_end_leaves_the_datagrams_before_it(rt: HostRuntime) -> Result<(), Fail> {
    let alloc = rt.alloc();
    let x = one(alloc)?;
    let psot = with_bytes(alloc, &x, 0, &[(84, 19)])?;
    let its_main = with_bytes(alloc, &CAPTURE_A[..111], 0, &[(106, 19)])?;
    let line = b"scl: refused at 93: psot\n";
    refuses(&rt, alloc, "1400", &psot, (&its_main, line))?;
    let cut = x.get(..94).ok_or("too few")?;
    let line = b"scl: refused at 94: cut\n";
    refuses(&rt, alloc, "1400", cut, (&CAPTURE_A[..111], line))?;
    let y = three(alloc)?;
    let cut = y.get(..397).ok_or("too few")?;
    let line = b"scl: refused at 397: cut\n";
    refuses(&rt, alloc, "327", cut, (&CAPTURE_B[..112], line))
}

#[test]
fn a_failed_read_leaves_what_was_closed(rt: HostRuntime) -> Result<(), Fail> {
    let alloc = rt.alloc();
    let y = three(alloc)?;
    let words = words_of(
        alloc,
        &["pack", "110", "plain", "96", "1", "0", "0", "3600"],
    )?;
    // How many bytes were read before, and how many of capture B are written by then.
    let rows = [
        (89, 0),
        (90, 112),
        (179, 112),
        (180, 224),
        (269, 224),
        (270, 336),
        (397, 448),
        (398, 508),
    ];
    for (read, written) in rows {
        let mut out = outside_over(alloc, &y, &[read], &[1], &[])?;
        assert_eq!(rt; run(alloc, &words, &mut out), 3, "after {read}");
        let wanted = CAPTURE_B.get(..written).ok_or("too few")?;
        assert!(rt; out.written() == wanted, "after {read}");
        assert_eq!(rt; out.noted(), b"scl: read fault\n".as_slice());
        assert!(rt; out.told());
    }
    Ok(())
}

#[test]
fn headers_have_the_values_of_the_words(rt: HostRuntime) -> Result<(), Fail> {
    let alloc = rt.alloc();
    // Payload type 127, SSRC FFFFFFFF, numbers from 00FFFF over 010000, timestamp FFFFFFFF; of the second codestream FFFE.
    let front = [
        (3, 0x7F),
        (4, 0xFF),
        (5, 0xFF),
        (6, 0xFF),
        (7, 0xFF),
        (8, 0xFF),
        (9, 0xFF),
        (10, 0xFF),
        (11, 0xFF),
        (12, 0xFF),
        (13, 0xFF),
        (114, 0xFF),
        (116, 0),
        (117, 0xFF),
        (118, 0xFF),
        (119, 0xFF),
        (120, 0xFF),
        (121, 0xFF),
        (122, 0xFF),
        (123, 0xFF),
        (124, 0xFF),
        (128, 1),
    ];
    let back = [
        (3, 0x7F),
        (5, 1),
        (8, 0xFF),
        (9, 0xFE),
        (10, 0xFF),
        (11, 0xFF),
        (12, 0xFF),
        (13, 0xFF),
        (17, 1),
        (114, 0xFF),
        (116, 2),
        (119, 0xFF),
        (120, 0xFE),
        (121, 0xFF),
        (122, 0xFF),
        (123, 0xFF),
        (124, 0xFF),
        (128, 1),
    ];
    let first = with_bytes(alloc, &CAPTURE_A, 0, &front)?;
    let second = with_bytes(alloc, &CAPTURE_A, 0, &back)?;
    let wanted = joined(alloc, &[&first, &second])?;
    let x = one(alloc)?;
    let input = joined(alloc, &[&x, &x])?;
    let words = [
        "pack",
        "4116",
        "plain",
        "127",
        "4294967295",
        "65535",
        "4294967295",
        "65535",
    ];
    let (status, out) = run_over(alloc, &words, &input, &[], &[])?;
    assert_eq!(rt; status, 0);
    assert!(rt; out.written() == wanted.as_slice());
    assert!(rt; out.told());
    Ok(())
}

#[test]
fn values_of_pack_outside_their_ranges_are_words(rt: HostRuntime) -> Result<(), Fail> {
    let rows: [[&str; 7]; 14] = [
        ["63", "plain", "96", "1", "0", "0", "3600"],
        ["4117", "plain", "96", "1", "0", "0", "3600"],
        ["064", "plain", "96", "1", "0", "0", "3600"],
        ["", "plain", "96", "1", "0", "0", "3600"],
        ["1400", "Plain", "96", "1", "0", "0", "3600"],
        ["1400", "any", "96", "1", "0", "0", "3600"],
        ["1400", "plain", "128", "1", "0", "0", "3600"],
        ["1400", "plain", "-1", "1", "0", "0", "3600"],
        ["1400", "plain", "96", "4294967296", "0", "0", "3600"],
        ["1400", "plain", "96", "any", "0", "0", "3600"],
        ["1400", "plain", "96", "1", "16777216", "0", "3600"],
        ["1400", "plain", "96", "1", "0", "4294967296", "3600"],
        ["1400", "plain", "96", "1", "0", "0", "0"],
        ["1400", "plain", "96", "1", "0", "0", "65536"],
    ];
    for (row, [mtu, mode, kind, source, number, stamp, step]) in rows.iter().enumerate() {
        let words = ["pack", *mtu, *mode, *kind, *source, *number, *stamp, *step];
        let (status, out) = run_over(rt.alloc(), &words, HEADER, &[], &[])?;
        assert_eq!(rt; status, 2, "in row {row}");
        assert_eq!(rt; out.written(), [].as_slice());
        assert_eq!(rt; out.noted(), b"scl: words\n".as_slice());
        assert!(rt; out.told());
    }
    for words in [
        ["pack", "1400", "plain", "96", "1", "0", "0"].as_slice(),
        &["pack", "1400", "plain", "96", "1", "0", "0", "3600", "1"],
    ] {
        let (status, _) = run_over(rt.alloc(), words, HEADER, &[], &[])?;
        assert_eq!(rt; status, 2);
    }
    Ok(())
}

/// What a run that reaches the end of its input writes.
fn written_by(
    rt: &impl Abort,
    alloc: Global,
    texts: &[&str],
    input: &[u8],
) -> Result<Vec<u8>, Fail> {
    let (status, out) = run_over(alloc, texts, input, &[], &[])?;
    assert_eq!(rt; status, 0);
    assert!(rt; out.told());
    Ok(Vec::from_slice(alloc, out.written())?)
}

/// The end of a line of `report` without old, refused or faulty datagrams.
const NO_FAULTS: &[u8] = b" old=0 refused=0 unsupported=0 disagreed=0 broken=0\n";

/// What `report` writes of this input packed in `split` mode is what `parse` writes of it, and then this line.
fn reports_as_parsed(
    rt: &impl Abort,
    alloc: Global,
    mtu: &str,
    input: &[u8],
    end: &[u8],
) -> Result<(), Fail> {
    let words = ["pack", mtu, "split", "96", "1", "16777213", "0", "3600"];
    let capture = written_by(rt, alloc, &words, input)?;
    let lines = written_by(rt, alloc, &["parse", "0", "3600"], input)?;
    let wanted = joined(alloc, &[&lines, end, NO_FAULTS])?;
    let reported = written_by(rt, alloc, &["report", "96", "any", "1"], &capture)?;
    assert!(rt; reported == wanted, "at {mtu}");
    Ok(())
}

#[test]
fn what_is_packed_is_reported_as_it_is_parsed(rt: HostRuntime) -> Result<(), Fail> {
    let alloc = rt.alloc();
    let y = three(alloc)?;
    let twice = joined(alloc, &[&y, &y])?;
    let levels = joined(alloc, &[&HEADER_OF_LEVELS, &[0, 0, 0xFF, 0xD9]])?;
    reports_as_parsed(&rt, alloc, "110", &twice, b"END kept=10")?;
    reports_as_parsed(&rt, alloc, "327", &y, b"END kept=3")?;
    reports_as_parsed(&rt, alloc, "4116", &twice, b"END kept=4")?;
    reports_as_parsed(&rt, alloc, "112", &levels, b"END kept=3")
}

#[test]
fn a_split_capture_is_thinned_to_its_low_level(rt: HostRuntime) -> Result<(), Fail> {
    let alloc = rt.alloc();
    let main = joined(alloc, &[&MAIN_OF_LEVELS, &HEADER_OF_LEVELS])?;
    let low = joined(alloc, &[&main, &LOW_LEVEL])?;
    let split = joined(alloc, &[&low, &HIGH_LEVEL])?;
    let thinned = written_by(&rt, alloc, &["thin", "6"], &split)?;
    assert!(rt; thinned == low);
    let lines = written_by(&rt, alloc, &["report", "96", "any", "16"], &thinned)?;
    let line = b"P stamp=0 pid=0 c=0 r=0 k=0 blocks=0\n";
    let wanted = joined(alloc, &[line, b"END kept=2", NO_FAULTS])?;
    assert!(rt; lines == wanted);
    Ok(())
}
