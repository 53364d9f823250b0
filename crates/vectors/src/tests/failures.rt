//! Each read and each write fails once, and inputs are cut after each of their bytes.
use super::*;

/// The bytes of a capture at these offsets, one after another.
fn bytes_at(
    rt: &impl Abort,
    alloc: Global,
    capture: &[u8],
    spans: &[(usize, usize)],
) -> Result<Vec<u8>, Fail> {
    let mut bytes = Vec::new(alloc);
    for (from, to) in spans {
        let Some(carried) = capture.get(*from..*to) else {
            panic!(rt; "the capture is short");
        };
        bytes.extend_from_slice(carried)?;
    }
    Ok(bytes)
}

/// The codestream that capture A carries.
pub fn codestream_of_a(rt: &impl Abort, alloc: Global) -> Result<Vec<u8>, Fail> {
    bytes_at(rt, alloc, &CAPTURE_A, &[(22, 111), (133, 139)])
}

/// The codestream that capture B carries.
pub fn codestream_of_b(rt: &impl Abort, alloc: Global) -> Result<Vec<u8>, Fail> {
    let spans = [(22, 112), (134, 224), (246, 336), (358, 448), (470, 508)];
    bytes_at(rt, alloc, &CAPTURE_B, &spans)
}

/// Runs over an input that comes in pieces of 50 bytes: the status, and the object that it ran over.
fn run_in_pieces(
    alloc: Global,
    texts: &[&str],
    input: &[u8],
    (bad_reads, bad_writes): (&[u64], &[u64]),
) -> Result<(u8, OutsideMem), AllocError> {
    let words = words_of(alloc, texts)?;
    let mut out = outside_over(
        alloc,
        input,
        &[50, 50, 50, 50, 50, 50, 50, 50, 50],
        bad_reads,
        bad_writes,
    )?;
    let status = run(alloc, &words, &mut out);
    Ok((status, out))
}

/// One read fails, or one write, at each place where the run makes one: the status is this, and what was
/// written is a prefix of `whole`.
fn fails_at_each_place(
    rt: &impl Abort,
    alloc: Global,
    (texts, input, whole): (&[&str], &[u8], &[u8]),
    (reads, wanted): (bool, u8),
) -> Result<(), Fail> {
    let mut failed = false;
    for place in 0..200u64 {
        let bad = [place];
        let bads: (&[u64], &[u64]) = if reads { (&bad, &[]) } else { (&[], &bad) };
        let (status, out) = run_in_pieces(alloc, texts, input, bads)?;
        assert!(rt; out.told());
        assert!(rt; whole.starts_with(out.written()), "at {place}");
        if status == 0 {
            assert_eq!(rt; out.written(), whole);
            assert!(rt; failed);
            return Ok(());
        }
        assert_eq!(rt; status, wanted, "at {place}");
        failed = true;
    }
    panic!(rt; "it never ended")
}

/// The commands that read a capture, and those that read a main header or codestreams.
const OF_CAPTURES: [&[&str]; 4] = [
    &["thin", "7"],
    &["deliver", "1,0"],
    &["report", "96", "any", "16"],
    &["rebuild", "96", "any", "16"],
];

const OF_CODESTREAMS: [&[&str]; 4] = [
    &["head"],
    &["order"],
    &["parse", "0", "3600"],
    &["pack", "110", "plain", "96", "1", "0", "0", "3600"],
];

/// Each read and each write of a run fails once.
fn each_call_fails(
    rt: &impl Abort,
    alloc: Global,
    texts: &[&str],
    input: &[u8],
) -> Result<(), Fail> {
    let (status, whole) = run_in_pieces(alloc, texts, input, (&[], &[]))?;
    assert_eq!(rt; status, 0);
    let all = (texts, input, whole.written());
    fails_at_each_place(rt, alloc, all, (true, 3))?;
    fails_at_each_place(rt, alloc, all, (false, 4))
}

#[test]
fn a_call_that_fails_ends_the_run(rt: HostRuntime) -> Result<(), Fail> {
    let alloc = rt.alloc();
    for texts in OF_CAPTURES {
        each_call_fails(&rt, alloc, texts, &CAPTURE_A)?;
        each_call_fails(&rt, alloc, texts, &CAPTURE_B)?;
    }
    let codestreams = [codestream_of_a(&rt, alloc)?, codestream_of_b(&rt, alloc)?];
    for texts in OF_CODESTREAMS {
        for codestream in &codestreams {
            each_call_fails(&rt, alloc, texts, codestream)?;
        }
    }
    Ok(())
}

/// A front of an input is refused, or ends where a part of it does; what is written of it is a prefix
/// of what is written of all.
fn fronts_are_refused(
    rt: &impl Abort,
    alloc: Global,
    (texts, input): (&[&str], &[u8]),
    lens: &[usize],
) -> Result<(), Fail> {
    let (status, whole) = run_over(alloc, texts, input, &[], &[])?;
    assert_eq!(rt; status, 0);
    for len in lens {
        let front = input.get(..*len).ok_or("a front")?;
        let (status, out) = run_over(alloc, texts, front, &[], &[])?;
        assert!(rt; out.told());
        assert!(rt; status == 6 || status == 0, "after {len}");
        if status == 6 {
            assert!(rt; whole.written().starts_with(out.written()), "after {len}");
            assert!(rt; out.noted().starts_with(b"scl: refused at "), "after {len}");
        }
    }
    Ok(())
}

#[test]
fn captures_are_cut_after_each_byte(rt: HostRuntime) -> Result<(), Fail> {
    let alloc = rt.alloc();
    for len in 1..CAPTURE_A.len() {
        fronts_are_refused(&rt, alloc, (&["thin", "7"], &CAPTURE_A), &[len])?;
    }
    Ok(())
}

#[test]
fn main_headers_are_cut_after_each_byte(rt: HostRuntime) -> Result<(), Fail> {
    let alloc = rt.alloc();
    let codestream = codestream_of_b(&rt, alloc)?;
    for len in 0..90usize {
        let front = codestream.get(..len).ok_or("a front")?;
        let (status, out) = run_over(alloc, &["head"], front, &[], &[])?;
        assert_eq!(rt; status, 6, "after {len}");
        assert!(rt; out.written().is_empty() && out.told(), "after {len}");
        assert!(rt; out.noted().starts_with(b"scl: refused at "), "after {len}");
    }
    Ok(())
}

#[test]
fn inputs_that_end_early_are_refused(rt: HostRuntime) -> Result<(), Fail> {
    let alloc = rt.alloc();
    for texts in OF_CAPTURES {
        let lens = [1, 2, 50, 110, 111, 112, 113, 138];
        fronts_are_refused(&rt, alloc, (texts, &CAPTURE_A), &lens)?;
    }
    let codestream = codestream_of_b(&rt, alloc)?;
    for texts in &OF_CODESTREAMS[2..] {
        let lens = [1, 2, 89, 90, 91, 92, 192, 193, 300, 396, 397];
        fronts_are_refused(&rt, alloc, (texts, &codestream), &lens)?;
    }
    Ok(())
}
