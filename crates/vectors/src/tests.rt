//! The worked captures through the top call, over objects in memory.
ghost use Rattle.std.specs.Prelude.{◌≡◌, ◌≤◌, IfOk};
ghost use Rattle.std.specs.List.{All};
ghost use Rattle.scl_outside.specs.Memory.{outside_meaning};

use captures::{CAPTURE_A, CAPTURE_B};
use scl_cli::{Machine, Words, run};
use scl_outside::{DuctMem, NeverFails, OutsideMem};
use std::alloc::{AllocError, Global};
use std::process::Abort;
use std::test::Fail;

mod captures;
mod delivers;
mod done;
mod failures;
mod forged;
mod generates;
mod headers;
mod hostile;
mod live;
mod machines;
mod orders;
mod packs;
mod parses;
mod rebuilds;
mod relays;
mod reports;
mod sends;
mod sure;
mod trials;

const ROOM: usize = 10_000;

fn words_of(alloc: Global, texts: &[&str]) -> Result<Words, AllocError> {
    let mut words = Words::new(alloc);
    for text in texts {
        words.add(text)?;
    }
    Ok(words)
}

/// An outside over an input, without peers and with nothing on its wire.
fn outside_over(
    alloc: Global,
    input: &[u8],
    chunks: &[usize],
    bad_reads: &[u64],
    bad_writes: &[u64],
) -> Result<OutsideMem, AllocError>
    requires chunks { All (λ chunk. 1 ≤ chunk) chunks.now }
    ensures peers { IfOk result (λ o. (outside_meaning o).wire.peers ≡ 0) }
{
    let duct = DuctMem::new(alloc, input, chunks, bad_reads, bad_writes, ROOM)?;
    OutsideMem::new(alloc, duct, Vec::new(alloc), Vec::new(alloc), &[], ROOM)
}

/// The status of a run, and the object that it ran over.
fn run_over(
    alloc: Global,
    texts: &[&str],
    input: &[u8],
    bad_reads: &[u64],
    bad_writes: &[u64],
) -> Result<(u8, OutsideMem), AllocError> {
    let words = words_of(alloc, texts)?;
    let mut out = outside_over(alloc, input, &[], bad_reads, bad_writes)?;
    let status = run(alloc, &words, &mut out);
    Ok((status, out))
}

/// These bytes with others at some offsets, counted from `start`.
fn with_bytes(
    alloc: Global,
    bytes: &[u8],
    start: usize,
    changes: &[(usize, u8)],
) -> Result<Vec<u8>, AllocError> {
    let mut all = Vec::from_slice(alloc, bytes)?;
    for (at, byte) in changes {
        if let Some(place) = all.get_mut(start.wrapping_add(*at)) {
            *place = *byte;
        }
    }
    Ok(all)
}

#[test]
fn words_outside_the_grammar_are_named_and_nothing_else_is_done(
    rt: HostRuntime,
) -> Result<(), Fail> {
    let cases: [&[&str]; 30] = [
        &[],
        &["thin"],
        &["thin", "8"],
        &["thin", "07"],
        &["thin", "-1"],
        &["thin", "+7"],
        &["thin", ""],
        &["thin", "7", "7"],
        &["Thin", "7"],
        &["thin 7"],
        &["head", "7"],
        &["order", "x"],
        &["Order"],
        &["--help"],
        &["report", "96", "any"],
        &["report", "96", "any", "16", "1"],
        &["report", "128", "any", "16"],
        &["report", "096", "any", "16"],
        &["report", "96", "Any", "16"],
        &["report", "96", "4294967296", "16"],
        &["report", "96", "+1", "16"],
        &["report", "96", "any", "0"],
        &["report", "96", "any", "16385"],
        &["report", "96", "any", ""],
        &["parse", "0"],
        &["parse", "0", "3600", "1"],
        &["parse", "4294967296", "3600"],
        &["parse", "00", "3600"],
        &["parse", "0", "0"],
        &["parse", "0", "65536"],
    ];
    for (row, texts) in cases.iter().enumerate() {
        let (status, duct) = run_over(rt.alloc(), texts, &CAPTURE_A, &[], &[])?;
        assert_eq!(rt; status, 2, "in row {row}");
        assert_eq!(rt; duct.written(), [].as_slice());
        assert_eq!(rt; duct.noted(), b"scl: words\n".as_slice());
        assert!(rt; duct.told());
    }
    Ok(())
}

#[test]
fn a_whole_capture_passes_unchanged(rt: HostRuntime) -> Result<(), Fail> {
    let (status, duct) = run_over(rt.alloc(), &["thin", "7"], &CAPTURE_A, &[], &[])?;
    assert_eq!(rt; status, 0);
    assert_eq!(rt; duct.written(), CAPTURE_A.as_slice());
    assert_eq!(rt; duct.noted(), [].as_slice());
    assert!(rt; duct.told());
    Ok(())
}

/// A Body of one codestream byte and no mark, as a frame.
fn small_body(res: u8) -> [u8; 23] {
    let mut frame = [0u8; 23];
    frame[1] = 21;
    frame[2] = 0x80;
    frame[3] = 0x60;
    frame[13] = 1;
    frame[14] = res;
    frame[22] = 0x5A;
    frame
}

#[test]
fn bodies_above_the_limit_are_left_out(rt: HostRuntime) -> Result<(), Fail> {
    let mut input = Vec::new(rt.alloc());
    input.extend_from_slice(&CAPTURE_A[..111])?;
    for res in [0, 5, 6, 7] {
        input.extend_from_slice(&small_body(res))?;
    }
    let mut wanted = Vec::new(rt.alloc());
    wanted.extend_from_slice(&CAPTURE_A[..111])?;
    for res in [0, 5] {
        wanted.extend_from_slice(&small_body(res))?;
    }
    let (status, duct) = run_over(rt.alloc(), &["thin", "5"], &input, &[], &[])?;
    assert_eq!(rt; status, 0);
    assert_eq!(rt; duct.written(), wanted.as_slice());
    assert!(rt; duct.told());
    Ok(())
}

#[test]
fn an_empty_capture_gives_nothing(rt: HostRuntime) -> Result<(), Fail> {
    let (status, duct) = run_over(rt.alloc(), &["thin", "7"], &[], &[], &[])?;
    assert_eq!(rt; status, 0);
    assert_eq!(rt; duct.written(), [].as_slice());
    assert!(rt; duct.told());
    let words = words_of(rt.alloc(), &["thin", "7"])?;
    let mut sure = NeverFails::new(rt.alloc(), &[], &[], ROOM)?;
    assert_eq!(rt; run(rt.alloc(), &words, &mut sure), 0);
    assert_eq!(rt; sure.written(), [].as_slice());
    assert!(rt; sure.told());
    Ok(())
}

#[test]
fn an_input_that_ends_inside_a_frame_is_refused_at_its_start(rt: HostRuntime) -> Result<(), Fail> {
    let empty_then_cut = [0, 0, 0, 1, 2, 3];
    let cases: [(&[u8], usize, &[u8]); 6] = [
        (&CAPTURE_A[..120], 111, b"scl: refused at 111: cut frame\n"),
        (&CAPTURE_A[..112], 111, b"scl: refused at 111: cut frame\n"),
        (&CAPTURE_A[..138], 111, b"scl: refused at 111: cut frame\n"),
        (&CAPTURE_A[..1], 0, b"scl: refused at 0: cut frame\n"),
        (&CAPTURE_A[..110], 0, b"scl: refused at 0: cut frame\n"),
        (&empty_then_cut, 0, b"scl: refused at 5: cut frame\n"),
    ];
    for (row, (input, written, line)) in cases.iter().enumerate() {
        let (status, duct) = run_over(rt.alloc(), &["thin", "7"], input, &[], &[])?;
        assert_eq!(rt; status, 6, "in row {row}");
        assert_eq!(rt;
            duct.written(),
            CAPTURE_A.get(..*written).ok_or("past the capture")?
        );
        assert_eq!(rt; duct.noted(), *line);
        assert!(rt; duct.told());
    }
    Ok(())
}

/// Each read of `thin 7` in turn fails: what was written is the frames that were whole by then.
fn fails_each_read(
    rt: &impl Abort,
    alloc: Global,
    capture: &[u8],
    frame_ends: &[usize],
) -> Result<(), Fail> {
    let reads = (2 * frame_ends.len() as u64).saturating_sub(1);
    for read in 0..reads {
        let (status, duct) = run_over(alloc, &["thin", "7"], capture, &[read], &[])?;
        assert_eq!(rt; status, 3, "at read {read}");
        let whole = frame_ends
            .get((read / 2) as usize)
            .copied()
            .unwrap_or(0)
            .min(capture.len());
        assert_eq!(rt; duct.written(), &capture[..whole]);
        assert_eq!(rt; duct.noted(), b"scl: read fault\n".as_slice());
        assert!(rt; duct.told());
    }
    let (status, _duct) = run_over(alloc, &["thin", "7"], capture, &[reads], &[])?;
    assert_eq!(rt; status, 0);
    Ok(())
}

/// Each write of `thin 7` in turn fails: what was written is what the writes before it put out.
fn fails_each_write(
    rt: &impl Abort,
    alloc: Global,
    capture: &[u8],
    frame_ends: &[usize],
) -> Result<(), Fail> {
    let writes = (2 * frame_ends.len() as u64).saturating_sub(2);
    for write in 0..writes {
        let (status, duct) = run_over(alloc, &["thin", "7"], capture, &[], &[write])?;
        assert_eq!(rt; status, 4, "at write {write}");
        let before = frame_ends.get((write / 2) as usize).copied().unwrap_or(0);
        let put = before
            .saturating_add(2 * (write % 2) as usize)
            .min(capture.len());
        assert_eq!(rt; duct.written(), &capture[..put]);
        assert_eq!(rt; duct.noted(), b"scl: write fault\n".as_slice());
        assert!(rt; duct.told());
    }
    let (status, _duct) = run_over(alloc, &["thin", "7"], capture, &[], &[writes])?;
    assert_eq!(rt; status, 0);
    Ok(())
}

#[test]
fn each_read_that_fails_ends_the_run_there(rt: HostRuntime) -> Result<(), Fail> {
    fails_each_read(&rt, rt.alloc(), &CAPTURE_A, &[0, 111, 139])?;
    fails_each_read(&rt, rt.alloc(), &CAPTURE_B, &[0, 112, 224, 336, 448, 508])
}

#[test]
fn each_write_that_fails_ends_the_run_there(rt: HostRuntime) -> Result<(), Fail> {
    fails_each_write(&rt, rt.alloc(), &CAPTURE_A, &[0, 111, 139])?;
    fails_each_write(&rt, rt.alloc(), &CAPTURE_B, &[0, 112, 224, 336, 448, 508])
}
