//! `gen` through the top call, and its codestream through `parse`, `pack` and `report`.
ghost use Rattle.std.specs.Prelude.{◌≡◌, IfOk};
ghost use Rattle.scl_outside.specs.Memory.{outside_meaning};

use super::*;

/// The words of `gen` for a small picture of one component.
const SMALL: [&str; 7] = ["gen", "1", "8", "8", "1", "0", "444"];

#[test]
fn words_of_gen_outside_the_grammar_are_named(rt: HostRuntime) -> Result<(), Fail> {
    let rows: [&[&str]; 18] = [
        &["gen"],
        &["gen", "1", "8", "8", "1", "0"],
        &["gen", "18446744073709551616", "8", "8", "1", "0", "444"],
        &["gen", "01", "8", "8", "1", "0", "444"],
        &["gen", "1", "0", "8", "1", "0", "444"],
        &["gen", "1", "4097", "8", "1", "0", "444"],
        &["gen", "1", "8", "0", "1", "0", "444"],
        &["gen", "1", "8", "4097", "1", "0", "444"],
        &["gen", "1", "8", "8", "0", "0", "444"],
        &["gen", "1", "8", "8", "5", "0", "444"],
        &["gen", "1", "8", "8", "1", "16", "444"],
        &["gen", "1", "8", "8", "1", "0", "411"],
        &["gen", "1", "8", "8", "1", "0", "444", "pcrl"],
        &["gen", "1", "8", "8", "1", "0", "444", "EPH"],
        &["gen", "1", "8", "8", "1", "0", "444", "eph", "rpcl"],
        &["gen", "1", "8", "8", "1", "0", "444", "rpcl", "rpcl"],
        &["gen", "1", "8", "8", "1", "0", "444", "eph", "eph"],
        &["gen", "1", "8", "8", "1", "0", "444", "rpcl", "eph", "eph"],
    ];
    for (row, texts) in rows.iter().enumerate() {
        let (status, out) = run_over(rt.alloc(), texts, &[], &[], &[])?;
        assert_eq!(rt; status, 2, "in row {row}");
        assert_eq!(rt; out.written(), [].as_slice());
        assert_eq!(rt; out.noted(), b"scl: words\n".as_slice());
        assert!(rt; out.told());
    }
    Ok(())
}

#[test]
fn a_small_codestream_is_written_and_nothing_is_read(rt: HostRuntime) -> Result<(), Fail> {
    let (status, out) = run_over(rt.alloc(), &SMALL, &[0xFF], &[0], &[])?;
    assert_eq!(rt; status, 0);
    assert_eq!(rt; out.written().len(), 202);
    // Psot is 114.
    let psot = out.written().get(92..).ok_or("no Psot")?;
    assert!(rt; psot.starts_with(&[0, 0, 0, 114]));
    // The packet header, and the first bytes of the code-block.
    let packet = out.written().get(100..).ok_or("no packet")?;
    let start = [0xDB, 0xBB, 0x98, 0xCC, 0x05, 0x23, 0x07, 0x36, 0xB5];
    assert!(rt; packet.starts_with(&start));
    assert_eq!(rt; out.noted(), [].as_slice());
    assert!(rt; out.told());
    Ok(())
}

#[test]
fn a_failed_write_of_gen_ends_the_run(rt: HostRuntime) -> Result<(), Fail> {
    let (status, out) = run_over(rt.alloc(), &SMALL, &[], &[], &[0])?;
    assert_eq!(rt; status, 4);
    assert_eq!(rt; out.written(), [].as_slice());
    assert_eq!(rt; out.noted(), b"scl: write fault\n".as_slice());
    assert!(rt; out.told());
    Ok(())
}

/// An outside over an input that takes a megabyte, without peers and with nothing on its wire.
fn large_outside(alloc: Global, input: &[u8]) -> Result<OutsideMem, AllocError>
    ensures peers { IfOk result (λ o. (outside_meaning o).wire.peers ≡ 0) }
{
    let duct = DuctMem::new(alloc, input, &[], &[], &[], 1_000_000)?;
    OutsideMem::new(
        alloc,
        duct,
        Vec::new(alloc),
        Vec::new(alloc),
        &[],
        1_000_000,
    )
}

/// What a run writes that ends with status 0.
pub fn output_of(
    rt: &impl Abort,
    alloc: Global,
    texts: &[&str],
    input: &[u8],
) -> Result<Vec<u8>, Fail> {
    let words = words_of(alloc, texts)?;
    let mut out = large_outside(alloc, input)?;
    assert_eq!(rt; run(alloc, &words, &mut out), 0);
    assert_eq!(rt; out.noted(), [].as_slice());
    assert!(rt; out.told());
    Ok(Vec::from_slice(alloc, out.written())?)
}

/// How many lines begin with `P`.
pub fn precincts(lines: &[u8]) -> usize {
    let mut count = 0usize;
    for line in lines.split(|byte| *byte == b'\n') {
        if line.starts_with(b"P ") {
            count = count.wrapping_add(1);
        }
    }
    count
}

/// The lines of `report` are those of `parse`, of which this number are of precincts, and an `END` line without faults.
fn is_reported_whole(
    rt: &impl Abort,
    alloc: Global,
    codestream: &[u8],
    count: usize,
) -> Result<(), Fail> {
    let parsed = output_of(rt, alloc, &["parse", "0", "3600"], codestream)?;
    assert_eq!(rt; precincts(&parsed), count);
    let words = ["pack", "1400", "split", "96", "1", "0", "0", "3600"];
    let packed = output_of(rt, alloc, &words, codestream)?;
    let reported = output_of(rt, alloc, &["report", "96", "1", "64"], &packed)?;
    assert!(rt; reported.starts_with(&parsed));
    let end = reported.get(parsed.len()..).ok_or("no end")?;
    assert!(rt; end.starts_with(b"END kept="));
    let zeros = b" old=0 refused=0 unsupported=0 disagreed=0 broken=0\n";
    assert!(rt; end.ends_with(zeros));
    Ok(())
}

#[test]
fn generated_codestreams_are_reported_whole(rt: HostRuntime) -> Result<(), Fail> {
    let rows: [(&[&str], usize, usize); 3] = [
        (&["gen", "9", "100", "60", "4", "3", "420"], 1_877, 16),
        (&["gen", "5", "1920", "1080", "3", "5", "422"], 51_162, 121),
        (
            &["gen", "5", "1920", "1080", "3", "5", "422", "rpcl", "eph"],
            51_407,
            121,
        ),
    ];
    for (texts, len, count) in rows {
        let codestream = output_of(&rt, rt.alloc(), texts, &[])?;
        assert_eq!(rt; codestream.len(), len);
        is_reported_whole(&rt, rt.alloc(), &codestream, count)?;
    }
    Ok(())
}
