//! The lines of precincts, and the END line.
ghost use Rattle.std.specs.Prelude.{◌≡◌, refl};
ghost use Rattle.stream_model.specs.Commands.{release_lines, reported};
ghost use Rattle.stream_model.specs.Receiver.{flushed, counts_of};
ghost use Rattle.stream_model.specs.Report.{end_line};
ghost use Rattle.precinct_report.specs.Lines.{counts_of as counts_in};
ghost use Rattle.report_job.specs.LinesJoin.{lines_join};
ghost use Rattle.report_job.specs.Tallies.{tally_counts};

use precinct_report::{Counts, write_end, write_precinct};
use receiving_job::Sink;
use scl_outside::{Duct, PutOut};
use stream_receiver::{Receiver, Tally};

/// Writes the lines of each precinct, and the END line at the end.
#[derive(Drop)]
pub struct Lines;

impl Sink for Lines {
    ghost made = { reported };

    ghost so_far = { release_lines };

    ghost HasPut = { λ lines packets. Unit {0} };

    fn put<D: Duct>(&mut self, out: &mut D, receiver: &Receiver) -> PutOut {
        write_precinct(out, &receiver.released())
    }

    fn close<D: Duct>(&mut self, out: &mut D, receiver: &Receiver) -> PutOut {
        write_end(out, &counts(&receiver.tally()))
    }

    ghost starts = { refl };

    ghost grows = { λ xs ys. (release_lines ys, lines_join xs ys) };

    ghost before_end = { λ r. refl };

    ghost at_end = { λ r. (end_line (counts_of (flushed r)), refl) };
}

/// The counts of the END line.
fn counts(tally: &Tally) -> Counts
    ensures { counts_in result ≡ tally_counts tally.now }
{
    Counts {
        kept: tally.kept,
        old: tally.old,
        refused: tally.refused,
        unsupported: tally.unsupported,
        disagreed: tally.disagreed,
        broken: tally.broken,
    }
}
