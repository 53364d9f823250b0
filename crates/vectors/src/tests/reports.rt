//! `report` through the top call: the worked captures, and what a fault leaves.
use super::*;

/// What `report` writes of capture A.
const REPORT_A: &[u8] = b"P stamp=0 pid=0 c=0 r=0 k=0 blocks=1
B band=0 col=0 row=0 planes=2 passes=1 cleanup=2 refine=0 bytes=aabb
END kept=2 old=0 refused=0 unsupported=0 disagreed=0 broken=0
";

#[test]
fn a_capture_is_reported_by_its_source_or_by_any(rt: HostRuntime) -> Result<(), Fail> {
    for source in ["1", "any"] {
        for window in ["1", "64", "16384"] {
            let words = ["report", "96", source, window];
            let (status, out) = run_over(rt.alloc(), &words, &CAPTURE_A, &[], &[])?;
            assert_eq!(rt; status, 0, "source {source}, window {window}");
            assert_eq!(rt; out.written(), REPORT_A);
            assert_eq!(rt; out.noted(), [].as_slice());
            assert!(rt; out.told());
        }
    }
    let none = b"END kept=0 old=0 refused=2 unsupported=0 disagreed=0 broken=0\n";
    for words in [["report", "96", "2", "16"], ["report", "97", "any", "16"]] {
        let (status, out) = run_over(rt.alloc(), &words, &CAPTURE_A, &[], &[])?;
        assert_eq!(rt; status, 0);
        assert_eq!(rt; out.written(), none.as_slice());
        assert!(rt; out.told());
    }
    Ok(())
}

#[test]
fn an_empty_capture_has_an_end_line(rt: HostRuntime) -> Result<(), Fail> {
    let line = b"END kept=0 old=0 refused=0 unsupported=0 disagreed=0 broken=0\n";
    let words = ["report", "96", "any", "16"];
    let (status, out) = run_over(rt.alloc(), &words, &[], &[], &[])?;
    assert_eq!(rt; status, 0);
    assert_eq!(rt; out.written(), line.as_slice());
    assert!(rt; out.told());
    Ok(())
}

#[test]
fn a_fault_leaves_what_was_due_by_then(rt: HostRuntime) -> Result<(), Fail> {
    let words = ["report", "96", "any", "16"];
    // The third read of capture A would be the one of its second frame.
    let (status, out) = run_over(rt.alloc(), &words, &CAPTURE_A, &[2], &[])?;
    assert_eq!(rt; status, 3);
    assert_eq!(rt; out.written(), [].as_slice());
    assert_eq!(rt; out.noted(), b"scl: read fault\n".as_slice());
    assert!(rt; out.told());
    let (status, out) = run_over(rt.alloc(), &words, &CAPTURE_A[..138], &[], &[])?;
    assert_eq!(rt; status, 6);
    assert_eq!(rt; out.written(), [].as_slice());
    assert_eq!(rt; out.noted(), b"scl: refused at 111: cut frame\n".as_slice());
    assert!(rt; out.told());
    let (status, out) = run_over(rt.alloc(), &words, &CAPTURE_A, &[], &[0])?;
    assert_eq!(rt; status, 4);
    assert_eq!(rt; out.written(), [].as_slice());
    assert_eq!(rt; out.noted(), b"scl: write fault\n".as_slice());
    assert!(rt; out.told());
    Ok(())
}
