//! The reader's runs of equal bits: a byte gives as many at once as it has.
ghost use Rattle.std.specs.Prelude.{◌≡◌, ◌<◌, ◌≤◌, ◌++◌, length, replicate, IfOk, OnOk};
ghost use Rattle.codestream_model.specs.StuffedBits.{number_bits};
ghost use Rattle.stuffed_bits.specs.BitInState.{part_bits, IsOfRun};
ghost use Rattle.stuffed_bits.specs.BitsRead.{Keeps};
ghost use Rattle.stuffed_bits.specs.RunsRead.{AnswersRun, GivesRun, DrawsPart, BeginsWith, others_in, IsRunPartOf};

use crate::bit_in::BitIn;
use crate::part::Part;
use crate::stop::Stop;

/// A part of a run: its bits of one byte.
enum RunPart {
    /// This many bits and one of the other kind.
    Ended(u8),
    /// This many bits.
    Whole(u8),
}

/// The bits that aren't of this kind among the lowest of a byte, each as a 1.
fn others(of: bool, left: u8, byte: u8) -> u32
    requires { left ≤ 8 }
    ensures { result ≡ others_in of left byte }
{
    let low = u32::from(byte) % (1 << left);
    if of { (1 << left) - 1 - low } else { low }
}

/// How many bits of this kind come first among the lowest of a byte.
fn first_run(of: bool, left: u8, byte: u8) -> u8
    requires { left ≤ 8 }
    ensures low { result ≤ left }
    ensures run { BeginsWith of result (number_bits left byte) }
{
    let length = 32 - others(of, left, byte).leading_zeros();
    left - length as u8
}

impl BitIn {
    /// The next bits of the last byte, as long as they are of this kind, and at most `wanted`.
    fn give_run(&mut self, of: bool, wanted: u8) -> RunPart
        requires some { 0 < self.old.left }
        requires wanted { 0 < wanted }
        ensures part { IsRunPartOf wanted result }
        ensures kept { self.new.part ≡ self.old.part }
        ensures draws { DrawsPart of self.old self.new result }
    {
        let run = first_run(of, self.left, self.before());
        if run < self.left && run < wanted {
            self.left -= run + 1;
            return RunPart::Ended(run);
        }
        let count = run.min(wanted);
        self.left -= count;
        RunPart::Whole(count)
    }

    /// Takes what was read before of a run: how many bits, but no more than the run may have.
    fn take_run(&mut self, of: bool, most: u8) -> u8
        requires { IsOfRun of self.old.part }
        ensures bits { part_bits self.old.part ≡ replicate result of ++ part_bits self.new.part }
        ensures few { result ≤ most }
        ensures free { result < most → self.new.part ≡ Part.Nothing }
        ensures none { self.old.part ≡ Part.Nothing → self.new.part ≡ Part.Nothing }
        ensures last { self.new.last ≡ self.old.last }
        ensures left { self.new.left ≡ self.old.left }
    {
        match self.part {
            Part::Run(_, count) => {
                if count > most {
                    self.part = Part::Run(of, count - most);
                    return most;
                }
                self.part = Part::Nothing;
                count
            }
            _ => 0,
        }
    }

    /// Reads a run of bits of one kind, and the bit of the other kind that ends it; where it has
    /// `most` bits, only these. Answers how many bits the run has.
    ///
    /// `piece` and `at` are as for `bit`.
    ///
    /// # Errors
    ///
    /// `Need` where the piece ends before the run does: then only the same call with a further piece
    /// may follow. `Stuffed` where the stuffing is broken before the run ends: then none may.
    #[inline(always)]
    pub fn run(&mut self, of: bool, most: u8, piece: &[u8], at: &mut usize) -> Result<u8, Stop>
        requires inside { at.old ≤ length piece.now }
        requires own { IsOfRun of self.old.part }
        ensures exact { AnswersRun of most self.old piece.now at.old result }
        ensures gives { GivesRun of most self.old self.new piece.now at.old at.new result }
        ensures waits { result ≡ Err Stop.Need → Keeps self.old self.new piece.now at.old at.new }
        ensures free { IfOk result (λ n. n < most → self.new.part ≡ Part.Nothing) }
        ensures fresh { self.old.part ≡ Part.Nothing → OnOk result (self.new.part ≡ Part.Nothing) }
        ensures own { result ≡ Err Stop.Need → IsOfRun of self.new.part }
        ensures whole { result ≡ Err Stop.Need → at.new ≡ length piece.now }
        ensures few { IfOk result (λ n. n ≤ most) }
        ensures onward { at.old ≤ at.new }
        ensures within { at.new ≤ length piece.now }
    {
        let before = self.take_run(of, most);
        if before == most {
            return Ok(most);
        }
        let mut count = before;
        while count < most {
            if let Err(stopped) = self.ready(piece, at) {
                self.part = Part::Run(of, count);
                return Err(stopped);
            }
            match self.give_run(of, most - count) {
                RunPart::Ended(more) => return Ok(count + more),
                RunPart::Whole(more) => count += more,
            }
        }
        Ok(count)
    }
}
