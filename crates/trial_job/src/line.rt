//! The line of a trial.
ghost use Rattle.std.specs.Prelude.{◌≡◌};
ghost use Rattle.trial_model.specs.Trial.{trial_line};
ghost use Rattle.trial_job.specs.Counting.{counts_as};

use crate::counting::Counts;
use arrayvec::ArrayString;
use scl_run::push_number;

/// A line of a trial: at most 64 bytes and six numbers of at most 20 digits each.
pub type Line = ArrayString<192>;

/// The line with these numbers.
pub fn line_of(counts: &Counts) -> Line
    ensures { result.bytes ≡ trial_line (counts_as counts.now) }
{
    let mut line = Line::new();
    push_number(&mut line, "TRIAL datagrams=", counts.datagrams);
    push_number(&mut line, " delivered=", counts.delivered);
    push_number(&mut line, " thinned=", counts.thinned);
    push_number(&mut line, " kept=", counts.kept);
    push_number(&mut line, " precincts=", counts.precincts);
    push_number(&mut line, " released=", counts.released);
    line.push_str("\n");
    line
}
