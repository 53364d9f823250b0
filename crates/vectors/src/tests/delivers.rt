//! `deliver` through the top call, and `report` of what was delivered.
use super::*;

/// Delivers a list of a capture: what is written.
fn delivered(rt: &impl Abort, alloc: Global, list: &str, capture: &[u8]) -> Result<Vec<u8>, Fail> {
    let (status, out) = run_over(alloc, &["deliver", list], capture, &[], &[])?;
    assert_eq!(rt; status, 0, "of {list}");
    assert_eq!(rt; out.noted(), [].as_slice());
    assert!(rt; out.told());
    Ok(Vec::from_slice(alloc, out.written())?)
}

/// The lines of precincts that `report` writes of a list of frames begin with these, and its last
/// line with these counts.
fn reports(
    rt: &impl Abort,
    alloc: Global,
    list: &str,
    capture: &[u8],
    window: &str,
    wanted: (&[&str], &str),
) -> Result<(), Fail> {
    let frames = delivered(rt, alloc, list, capture)?;
    let words = ["report", "96", "any", window];
    let (status, out) = run_over(alloc, &words, &frames, &[], &[])?;
    assert_eq!(rt; status, 0, "of {list}");
    assert!(rt; out.told());
    let mut at = 0;
    for line in out.written().split(|byte| *byte == b'\n') {
        if line.starts_with(b"P ") {
            assert!(rt; at < wanted.0.len(), "of {list}");
            assert!(rt; line.starts_with(wanted.0[at].as_bytes()), "of {list}");
            at += 1;
        }
        if line.starts_with(b"END ") {
            assert!(rt; line.starts_with(wanted.1.as_bytes()), "of {list}");
        }
    }
    assert_eq!(rt; at, wanted.0.len(), "of {list}");
    Ok(())
}

const PIDS: [&str; 3] = ["P stamp=0 pid=0 ", "P stamp=0 pid=1 ", "P stamp=0 pid=2 "];

#[test]
fn what_is_left_out_is_a_gap(rt: HostRuntime) -> Result<(), Fail> {
    let rows: [(&str, &str, &[&str], &str); 9] = [
        ("0-4", "16", &PIDS, "END kept=5 old=0 refused=0 "),
        ("0,2-4", "16", &PIDS[1..], "END kept=4 old=0 refused=0 "),
        ("0,1,3,4", "16", &PIDS[2..], "END kept=4 old=0 refused=0 "),
        ("0-2,4", "16", &PIDS[..1], "END kept=4 old=0 refused=0 "),
        ("0-3", "16", &PIDS[..2], "END kept=4 old=0 refused=0 "),
        ("1-4", "16", &[], "END kept=4 old=0 refused=0 "),
        ("0,1,4,2,3", "2", &PIDS[2..], "END kept=4 old=1 refused=0 "),
        ("1,0,2-4", "16", &[], "END kept=4 old=1 refused=0 "),
        ("2,0,1,3,4", "16", &[], "END kept=3 old=2 refused=0 "),
    ];
    for (list, window, lines, end) in rows {
        reports(&rt, rt.alloc(), list, &CAPTURE_B, window, (lines, end))?;
    }
    Ok(())
}

/// The datagrams of capture B from the number FFFFFE on.
pub fn wrapping(alloc: Global) -> Result<Vec<u8>, Fail> {
    let mut capture = Vec::from_slice(alloc, &CAPTURE_B)?;
    for (i, at) in [2usize, 114, 226, 338, 450].iter().enumerate() {
        let number = 0xFF_FFFEu32.wrapping_add(i as u32) % 0x100_0000;
        capture[*at + 2] = (number / 256 % 256) as u8;
        capture[*at + 3] = (number % 256) as u8;
        capture[*at + 15] = (number / 65_536) as u8;
    }
    Ok(capture)
}

#[test]
fn repeats_and_the_wrap_of_numbers_are_passed(rt: HostRuntime) -> Result<(), Fail> {
    let capture = wrapping(rt.alloc())?;
    let end = "END kept=5 old=1 refused=0 ";
    reports(&rt, rt.alloc(), "0,2,1,1,3,4", &capture, "16", (&PIDS, end))
}

/// The codestream of capture B twice in ten frames, the second time with the stamp 3600.
pub fn two_images(alloc: Global) -> Result<Vec<u8>, Fail> {
    // Numbers 5 to 9, and the stamp 0x0E10.
    let later = [
        (5, 5),
        (8, 0x0E),
        (9, 0x10),
        (117, 6),
        (120, 0x0E),
        (121, 0x10),
        (229, 7),
        (232, 0x0E),
        (233, 0x10),
        (341, 8),
        (344, 0x0E),
        (345, 0x10),
        (453, 9),
        (456, 0x0E),
        (457, 0x10),
    ];
    let mut capture = Vec::from_slice(alloc, &CAPTURE_B)?;
    capture.extend_from_slice(&with_bytes(alloc, &CAPTURE_B, 0, &later)?)?;
    Ok(capture)
}

#[test]
fn an_image_without_its_main_header_gives_nothing(rt: HostRuntime) -> Result<(), Fail> {
    let capture = two_images(rt.alloc())?;
    let later = [
        "P stamp=3600 pid=0 ",
        "P stamp=3600 pid=1 ",
        "P stamp=3600 pid=2 ",
    ];
    reports(
        &rt,
        rt.alloc(),
        "0-4,6-9",
        &capture,
        "16",
        (&PIDS, "END kept=9 "),
    )?;
    reports(
        &rt,
        rt.alloc(),
        "2-9",
        &capture,
        "16",
        (&later, "END kept=8 "),
    )
}

#[test]
fn a_missing_position_is_refused(rt: HostRuntime) -> Result<(), Fail> {
    for (list, position) in [("0,2", "2"), ("9,2", "9"), ("0-5", "2")] {
        let (status, out) = run_over(rt.alloc(), &["deliver", list], &CAPTURE_A, &[], &[])?;
        let noted = format!(in rt.alloc(); "scl: refused at {position}: no such datagram\n")?;
        assert_eq!(rt; status, 6, "of {list}");
        assert_eq!(rt; out.written(), [].as_slice());
        assert_eq!(rt; out.noted(), noted.as_bytes());
        assert!(rt; out.told());
    }
    let none = delivered(&rt, rt.alloc(), "none", &CAPTURE_A)?;
    assert!(rt; none.is_empty());
    let three = delivered(&rt, rt.alloc(), "1,0,1", &CAPTURE_A)?;
    assert_eq!(rt; three.len(), 28 + 111 + 28);
    Ok(())
}

#[test]
fn lists_outside_the_grammar_are_words(rt: HostRuntime) -> Result<(), Fail> {
    let lists = [
        "",
        ",",
        "None",
        "none,0",
        "0,none",
        "0,",
        ",0",
        "0,,1",
        "00",
        "01",
        "0-01",
        "+0",
        "-1",
        "1-0",
        "0-",
        "0-1-2",
        "0 ",
        " 0",
        "4294967296",
        "0-4294967296",
        "0;1",
        "0x1",
        "0–1",
    ];
    for list in lists {
        let (status, out) = run_over(rt.alloc(), &["deliver", list], &CAPTURE_A, &[], &[])?;
        assert_eq!(rt; status, 2, "of {list}");
        assert_eq!(rt; out.noted(), b"scl: words\n".as_slice());
        assert!(rt; out.told());
    }
    for words in [
        ["deliver"].as_slice(),
        &["deliver", "0", "0"],
        &["Deliver", "0"],
    ] {
        let (status, _) = run_over(rt.alloc(), words, &CAPTURE_A, &[], &[])?;
        assert_eq!(rt; status, 2);
    }
    Ok(())
}

/// A list of this number of items, each the position 0.
fn zeros(alloc: Global, count: usize) -> Result<String, Fail> {
    let mut list = String::from_str(alloc, "0")?;
    for _ in 1..count {
        list.push_str(",0")?;
    }
    Ok(list)
}

#[test]
fn a_list_has_at_most_4096_items(rt: HostRuntime) -> Result<(), Fail> {
    let frame = [0, 0];
    let list = zeros(rt.alloc(), 4096)?;
    let written = delivered(&rt, rt.alloc(), list.as_str(), &frame)?;
    assert_eq!(rt; written.len(), 8192);
    let list = zeros(rt.alloc(), 4097)?;
    let (status, _) = run_over(rt.alloc(), &["deliver", list.as_str()], &frame, &[], &[])?;
    assert_eq!(rt; status, 2);
    Ok(())
}
