//! `rebuild` through the top call.
use super::*;

/// The main header of the codestream of capture B.
fn header_of_three(rt: &impl Abort) -> &'static [u8] {
    let Some(header) = CAPTURE_B.get(22..112) else {
        panic!(rt; "the capture is short");
    };
    header
}

/// A packet of that codestream: 100 bytes that are all the same after its header.
fn packet(fill: u8) -> [u8; 102] {
    let mut bytes = [fill; 102];
    bytes[0] = 0xEF;
    bytes[1] = 0x64;
    bytes
}

/// What a run without faults writes.
fn written(rt: &impl Abort, alloc: Global, texts: &[&str], input: &[u8]) -> Result<Vec<u8>, Fail> {
    let (status, out) = run_over(alloc, texts, input, &[], &[])?;
    assert_eq!(rt; status, 0);
    assert_eq!(rt; out.noted(), [].as_slice());
    assert!(rt; out.told());
    Ok(Vec::from_slice(alloc, out.written())?)
}

const REBUILD: [&str; 4] = ["rebuild", "96", "any", "16"];

const EOC: [u8; 2] = [0xFF, 0xD9];

/// What is built again of the frames of a capture at the positions of a list.
fn built_of(rt: &impl Abort, alloc: Global, list: &str, capture: &[u8]) -> Result<Vec<u8>, Fail> {
    let frames = written(rt, alloc, &["deliver", list], capture)?;
    written(rt, alloc, &REBUILD, &frames)
}

#[test]
fn a_lost_packet_is_an_empty_one(rt: HostRuntime) -> Result<(), Fail> {
    let alloc = rt.alloc();
    let mut wanted = Vec::from_slice(alloc, header_of_three(&rt))?;
    wanted.push(0)?;
    wanted.extend_from_slice(&packet(0x22))?;
    wanted.extend_from_slice(&packet(0x33))?;
    wanted.extend_from_slice(&EOC)?;
    let built = built_of(&rt, alloc, "0,2-4", &CAPTURE_B)?;
    assert_eq!(rt; built.len(), 297);
    assert!(rt; built.as_slice() == wanted.as_slice());
    assert!(rt; built_of(&rt, alloc, "1-4", &CAPTURE_B)?.is_empty());
    assert!(rt; built_of(&rt, alloc, "none", &CAPTURE_B)?.is_empty());
    Ok(())
}

#[test]
fn a_forged_mark_closes_a_codestream(rt: HostRuntime) -> Result<(), Fail> {
    let alloc = rt.alloc();
    // POS of datagram 2 is 13 where 12 is right: the packets are read from the wrong byte on.
    let forged = with_bytes(alloc, &CAPTURE_B, 224, &[(19, 0xD0)])?;
    let head = header_of_three(&rt);
    let mut wanted = Vec::from_slice(alloc, head)?;
    wanted.extend_from_slice(&packet(0x11))?;
    wanted.extend_from_slice(&[0x64, 0x22, 0xFF, 0xD9])?;
    wanted.extend_from_slice(head)?;
    wanted.extend_from_slice(&[0, 0])?;
    wanted.extend_from_slice(&packet(0x33))?;
    wanted.extend_from_slice(&EOC)?;
    let built = built_of(&rt, alloc, "0-4", &forged)?;
    assert!(rt; built.as_slice() == wanted.as_slice());
    Ok(())
}

#[test]
fn what_was_put_before_a_fault_is_written(rt: HostRuntime) -> Result<(), Fail> {
    let alloc = rt.alloc();
    let head = header_of_three(&rt);
    let mut front = Vec::from_slice(alloc, head)?;
    front.extend_from_slice(&packet(0x11))?;
    let cut = CAPTURE_B.get(..340).ok_or("a front")?;
    let cases: [(&[u8], &[u64], &[u64], u8, &str, usize); 4] = [
        (cut, &[], &[], 6, "scl: refused at 336: cut frame\n", 192),
        (&CAPTURE_B, &[6], &[], 3, "scl: read fault\n", 192),
        (&CAPTURE_B, &[], &[0], 4, "scl: write fault\n", 0),
        (&CAPTURE_B, &[], &[1], 4, "scl: write fault\n", 90),
    ];
    for (input, bad_reads, bad_writes, wanted, noted, len) in cases {
        let (status, out) = run_over(alloc, &REBUILD, input, bad_reads, bad_writes)?;
        assert_eq!(rt; status, wanted);
        assert!(rt; out.noted() == noted.as_bytes());
        assert_eq!(rt; Some(out.written()), front.get(..len));
        assert!(rt; out.told());
    }
    Ok(())
}

/// A codestream with Psot 0: its SOT segment follows the COM segment that the generator writes.
fn without_psot(rt: &impl Abort, alloc: Global, codestream: &[u8]) -> Result<Vec<u8>, Fail> {
    let mut bytes = Vec::from_slice(alloc, codestream)?;
    let mut found = false;
    for at in 0..codestream.len() {
        if !found && codestream[at..].starts_with(&[0xFF, 0x90, 0x00, 0x0A]) {
            found = true;
            for place in 6..10 {
                if let Some(byte) = bytes.get_mut(at.wrapping_add(place)) {
                    *byte = 0;
                }
            }
        }
    }
    assert!(rt; found);
    Ok(bytes)
}

#[test]
fn other_orders_and_eph_are_built_again(rt: HostRuntime) -> Result<(), Fail> {
    let alloc = rt.alloc();
    let gens: [&[&str]; 3] = [
        &["gen", "1", "24", "16", "3", "2", "422", "rpcl", "eph"],
        &["gen", "2", "24", "16", "2", "2", "444", "rpcl"],
        &["gen", "3", "24", "16", "3", "1", "420", "eph"],
    ];
    let pack = ["pack", "200", "split", "96", "1", "0", "0", "3600"];
    for words in gens {
        let codestream = written(&rt, alloc, words, &[])?;
        let capture = written(&rt, alloc, &pack, &codestream)?;
        let built = written(&rt, alloc, &REBUILD, &capture)?;
        assert!(rt; built.as_slice() == without_psot(&rt, alloc, &codestream)?.as_slice());
        let some = written(&rt, alloc, &["deliver", "0,2-4"], &capture)?;
        let less = written(&rt, alloc, &REBUILD, &some)?;
        // every precinct has a packet
        let _ = written(&rt, alloc, &["parse", "0", "3600"], &less)?;
        assert!(rt; less.len() < built.len());
    }
    Ok(())
}

#[test]
fn rebuild_takes_the_words_of_report(rt: HostRuntime) -> Result<(), Fail> {
    let cases: [&[&str]; 6] = [
        &["rebuild"],
        &["rebuild", "96", "any"],
        &["rebuild", "128", "any", "16"],
        &["rebuild", "96", "4294967296", "16"],
        &["rebuild", "96", "any", "0"],
        &["rebuild", "96", "any", "16", "1"],
    ];
    for texts in cases {
        let (status, out) = run_over(rt.alloc(), texts, &CAPTURE_B, &[], &[])?;
        assert_eq!(rt; status, 2);
        assert!(rt; out.noted() == b"scl: words\n".as_slice());
        assert!(rt; out.written().is_empty());
        assert!(rt; out.told());
    }
    Ok(())
}
