//! `trial` through the top call, and the same done by the other commands one after another.
use super::generates::{output_of, precincts};
use super::*;
use itoa::Buffer;

/// What is drawn in a trial: the high bits of a linear congruential generator modulo 2^64.
#[derive(Drop)]
struct Draws {
    state: u64,
}

impl Draws {
    /// Draws a number below `n`.
    fn below(&mut self, n: u64) -> u64 {
        self.state = self
            .state
            .wrapping_mul(6_364_136_223_846_793_005)
            .wrapping_add(1_442_695_040_888_963_407);
        (self.state >> 33).checked_rem(n).unwrap_or(0)
    }
}

/// The positions that a trial delivers of `count` datagrams: lost where a draw of 1,000 is below
/// `loss`, else once, or twice where a draw of 8 is 0; and each pair of neighbours after the first
/// position is exchanged where a draw of 4 is 0.
fn delivered(alloc: Global, seed: u64, loss: u64, count: usize) -> Result<Vec<usize>, AllocError> {
    let mut draws = Draws { state: seed };
    let mut list = Vec::new(alloc);
    for position in 0..count {
        if draws.below(1000) >= loss {
            list.push(position)?;
            if draws.below(8) == 0 {
                list.push(position)?;
            }
        }
    }
    for at in 1..list.len() {
        if at % 2 == 1 && at + 1 < list.len() && draws.below(4) == 0 {
            list.swap(at, at + 1);
        }
    }
    Ok(list)
}

/// The word of a list of positions.
fn list_word(alloc: Global, positions: &[usize]) -> Result<String, AllocError> {
    let mut word = String::new(alloc);
    for position in positions {
        if !word.is_empty() {
            word.push(',')?;
        }
        word.push_str(Buffer::new().format(*position))?;
    }
    Ok(word)
}

/// The number of frames of a capture.
fn frames(capture: &[u8]) -> usize {
    let mut rest = capture;
    for count in 0..100_000usize {
        let (Some(high), Some(low)) = (rest.first(), rest.get(1)) else {
            return count;
        };
        let end = usize::from(u16::from_be_bytes([*high, *low])).wrapping_add(2);
        rest = rest.get(end..).unwrap_or(&[]);
    }
    0
}

/// The digits after `END kept=` in the lines of a report.
fn kept_in(report: &[u8]) -> &[u8] {
    for line in report.split(|byte| *byte == b'\n') {
        if let Some(rest) = line.strip_prefix(b"END kept=") {
            return rest.split(|byte| *byte == b' ').next().unwrap_or(&[]);
        }
    }
    &[]
}

/// Puts a name and a number after a line.
fn push(line: &mut Vec<u8>, name: &str, number: usize) -> Result<(), AllocError> {
    line.extend_from_slice(name.as_bytes())?;
    line.extend_from_slice(Buffer::new().format(number).as_bytes())?;
    Ok(())
}

#[test]
fn the_commands_give_the_numbers_of_a_trial(rt: HostRuntime) -> Result<(), Fail> {
    let alloc = rt.alloc();
    let mut codestreams = Vec::new(alloc);
    for seed in ["7", "8", "9", "10"] {
        let words = ["gen", seed, "640", "480", "3", "5", "422"];
        codestreams.extend_from_slice(&output_of(&rt, alloc, &words, &[])?)?;
    }
    let parsed = output_of(&rt, alloc, &["parse", "0", "3600"], &codestreams)?;
    let words = ["pack", "1400", "split", "96", "1", "16777000", "0", "3600"];
    let packed = output_of(&rt, alloc, &words, &codestreams)?;
    let list = list_word(alloc, &delivered(alloc, 7, 100, frames(&packed))?)?;
    let came = output_of(&rt, alloc, &["deliver", list.as_str()], &packed)?;
    let thinned = output_of(&rt, alloc, &["thin", "5"], &came)?;
    let reported = output_of(&rt, alloc, &["report", "96", "1", "64"], &thinned)?;
    let mut line = Vec::new(alloc);
    push(&mut line, "TRIAL datagrams=", frames(&packed))?;
    push(&mut line, " delivered=", frames(&came))?;
    push(&mut line, " thinned=", frames(&thinned))?;
    line.extend_from_slice(b" kept=")?;
    line.extend_from_slice(kept_in(&reported))?;
    push(&mut line, " precincts=", precincts(&parsed))?;
    push(&mut line, " released=", precincts(&reported))?;
    line.push(b'\n')?;
    let trial = output_of(&rt, alloc, &["trial", "7", "4", "100", "64", "5"], &[])?;
    assert_eq!(rt; trial.as_slice(), line.as_slice());
    Ok(())
}

#[test]
fn without_loss_each_precinct_within_the_limit_is_released(rt: HostRuntime) -> Result<(), Fail> {
    let rows: [(&str, &[u8]); 2] = [
        ("7", b" precincts=120 released=120\n"),
        ("2", b" precincts=120 released=12\n"),
    ];
    for (limit, end) in rows {
        let words = ["trial", "7", "4", "0", "64", limit];
        let line = output_of(&rt, rt.alloc(), &words, &[])?;
        assert!(rt; line.starts_with(b"TRIAL datagrams="), "of {limit}");
        assert!(rt; line.ends_with(end), "of {limit}");
    }
    Ok(())
}

#[test]
fn a_trial_reads_nothing_and_tells_a_failed_write(rt: HostRuntime) -> Result<(), Fail> {
    let words = ["trial", "1", "1", "1000", "1", "0"];
    let (status, out) = run_over(rt.alloc(), &words, &[0xFF], &[0], &[])?;
    assert_eq!(rt; status, 0);
    assert!(rt;
        out.written()
            .ends_with(b" delivered=0 thinned=0 kept=0 precincts=30 released=0\n")
    );
    assert!(rt; out.noted().is_empty() && out.told());
    let (status, out) = run_over(rt.alloc(), &words, &[], &[], &[0])?;
    assert_eq!(rt; status, 4);
    assert!(rt; out.written().is_empty() && out.told());
    assert_eq!(rt; out.noted(), b"scl: write fault\n".as_slice());
    Ok(())
}

#[test]
fn words_of_trial_outside_the_grammar_are_named(rt: HostRuntime) -> Result<(), Fail> {
    let rows: [&[&str]; 12] = [
        &["trial"],
        &["trial", "7", "4", "100", "64"],
        &["trial", "7", "4", "100", "64", "5", "1"],
        &["trial", "18446744073709551616", "4", "100", "64", "5"],
        &["trial", "07", "4", "100", "64", "5"],
        &["trial", "7", "0", "100", "64", "5"],
        &["trial", "7", "65", "100", "64", "5"],
        &["trial", "7", "4", "1001", "64", "5"],
        &["trial", "7", "4", "100", "0", "5"],
        &["trial", "7", "4", "100", "16385", "5"],
        &["trial", "7", "4", "100", "64", "8"],
        &["trial", "7", "4", "100", "64", "-1"],
    ];
    for (row, texts) in rows.iter().enumerate() {
        let (status, out) = run_over(rt.alloc(), texts, &[], &[], &[])?;
        assert_eq!(rt; status, 2, "in row {row}");
        assert!(rt; out.written().is_empty() && out.told());
        assert_eq!(rt; out.noted(), b"scl: words\n".as_slice());
    }
    Ok(())
}
