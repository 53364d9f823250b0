//! The reader's numbers of several bits: a byte gives as many at once as are wanted.
ghost use Rattle.std.specs.Prelude.{◌≡◌, ◌<◌, ◌≤◌, ◌-◌, ◌^◌, length, IfOk, OnOk};
ghost use Rattle.codestream_model.specs.StuffedBits.{number_bits};
ghost use Rattle.stuffed_bits.specs.Carried.{before_next};
ghost use Rattle.stuffed_bits.specs.BitInState.{part_bits, IsOfNumber};
ghost use Rattle.stuffed_bits.specs.BitsRead.{Keeps};
ghost use Rattle.stuffed_bits.specs.NumbersRead.{AnswersNumber, GivesNumber, high_part};

use crate::bit_in::BitIn;
use crate::part::Part;
use crate::stop::Stop;

impl BitIn {
    /// The number that the next `count` bits of the last byte spell.
    fn give_part(&mut self, count: u8) -> u32
        requires some { count ≤ self.old.left }
        requires few { self.old.left ≤ 8 }
        ensures part { result ≡ high_part count self.old.left (before_next self.old.last) }
        ensures small { result < 2 ^ count }
        ensures rest { self.new ≡ record self.old { left = self.old.left - count } }
    {
        self.left -= count;
        (u32::from(self.before()) >> self.left) % (1 << count)
    }

    /// Takes what was read before of a number of `width` bits: the number that its first bits spell,
    /// and how many they are.
    #[tactic(auto, unfolding(codestream_model::specs::StuffedBits::number_bits))]
    fn take_number(&mut self, width: u8) -> (u32, u8)
        requires { IsOfNumber width self.old.part }
        ensures bits { part_bits self.old.part ≡ number_bits result.1 result.0 }
        ensures few { result.1 ≤ width }
        ensures small { result.0 < 2 ^ result.1 }
        ensures rest { self.new ≡ record self.old { part = Part.Nothing } }
    {
        match self.part {
            Part::Number(value, count) => {
                self.part = Part::Nothing;
                (value, count)
            }
            _ => (0, 0),
        }
    }

    /// Reads the number that the next `width` bits spell, the greatest first; 0 where `width` is 0.
    ///
    /// `piece` and `at` are as for `bit`.
    ///
    /// # Errors
    ///
    /// `Need` where the piece ends before the last bit: then only the same call with a further piece
    /// may follow. `Stuffed` where the stuffing is broken before the last bit: then none may.
    #[inline(always)]
    pub fn number(&mut self, width: u8, piece: &[u8], at: &mut usize) -> Result<u32, Stop>
        requires low { width ≤ 25 }
        requires inside { at.old ≤ length piece.now }
        requires own { IsOfNumber width self.old.part }
        ensures exact { AnswersNumber width self.old piece.now at.old result }
        ensures gives { GivesNumber width self.old self.new piece.now at.old at.new result }
        ensures waits { result ≡ Err Stop.Need → Keeps self.old self.new piece.now at.old at.new }
        ensures small { IfOk result (λ n. n < 2 ^ width) }
        ensures free { OnOk result (self.new.part ≡ Part.Nothing) }
        ensures own { result ≡ Err Stop.Need → IsOfNumber width self.new.part }
        ensures whole { result ≡ Err Stop.Need → at.new ≡ length piece.now }
        ensures onward { at.old ≤ at.new }
        ensures within { at.new ≤ length piece.now }
    {
        let (first, count) = self.take_number(width);
        let mut value = first;
        let mut wanted = width - count;
        while wanted > 0 {
            if let Err(stopped) = self.ready(piece, at) {
                self.part = Part::Number(value, width - wanted);
                return Err(stopped);
            }
            let count = wanted.min(self.left);
            let part = self.give_part(count);
            value = (value << count) + part;
            wanted -= count;
        }
        Ok(value)
    }
}
