//! The reader, bit by bit, of bytes that come in pieces; `numbers` has its numbers of several bits.
ghost use Rattle.std.specs.Prelude.{◌≡◌, ◌<◌, ◌≤◌, ◌+◌, ◌-◌, [], length, drop, IsSome, IfOk, IfErr, OnOk, OnErr, IsErrOf};
ghost use Rattle.codestream_model.specs.StuffedBits.{closing_after};
ghost use Rattle.stuffed_bits.specs.Carried.{before_next};
ghost use Rattle.stuffed_bits.specs.BitInState.{no_byte};
ghost use Rattle.stuffed_bits.specs.BitsRead.{HasDrawn, HasRead, IsEndAt, AnswersBit, GivesBit, Begins, PacksAll, IsOnlyClosing, closing_answer, next_of, first_unread};

use crate::part::Part;
use crate::stop::Stop;
use crate::width::{FF, width_after};
use std::marker::Model;

/// Reads the bits that bytes carry.
#[derive(Drop)]
pub struct BitIn {
    /// The last byte that was taken.
    pub(crate) last: Option<u8>,
    /// How many of its bits, the lowest ones, weren't read yet.
    pub(crate) left: u8,
    /// The bits that were read of a value whose last bit hasn't come.
    pub(crate) part: Part,
}

impl Model for BitIn {
    ghost use Rattle.std.specs.Prelude.{◌≡◌, ◌≤◌, ◌⊎◌, IsSome};
    ghost use Rattle.stuffed_bits.specs.BitInState.{BitInState};

    ghost Value = { BitInState };

    ghost view = { λ b. record { last = b.last; left = b.left; part = b.part } };

    ghost invariant = { λ b. (b.left ≤ 8) × (IsSome b.last ⊎ (b.left ≡ 0)) };
}

/// The byte at an index of a piece, if it may follow `before`.
pub(crate) fn next_byte(before: u8, piece: &[u8], at: usize) -> Result<u8, Stop>
    requires { at ≤ length piece.now }
    ensures next { result ≡ next_of before (drop at piece.now) }
    ensures whole { result ≡ Err Stop.Need → at ≡ length piece.now }
{
    if at == piece.len() {
        return Err(Stop::Need);
    }
    let byte = piece[at];
    if before == FF && byte >= 128 {
        return Err(Stop::Stuffed);
    }
    Ok(byte)
}

impl BitIn {
    /// A reader before its first byte.
    pub fn new() -> BitIn
        ensures empty { result ≡ no_byte }
        ensures gives { HasRead [] [] result }
    {
        BitIn {
            last: None,
            left: 0,
            part: Part::Nothing,
        }
    }

    /// The byte before the next one, or 0 before the first.
    pub(crate) fn before(&self) -> u8
        ensures { result ≡ before_next self.now.last }
    {
        match self.last {
            Some(byte) => byte,
            None => 0,
        }
    }

    /// The next bit of the last byte.
    fn give(&mut self) -> bool
        requires { 0 < self.old.left }
        ensures bit { result ≡ first_unread self.old }
        ensures rest { self.new ≡ record self.old { left = self.old.left - 1 } }
    {
        self.left -= 1;
        (self.before() >> self.left) % 2 == 1
    }

    /// Takes the next byte where all bits of the last one were read.
    #[inline(always)]
    pub(crate) fn ready(&mut self, piece: &[u8], at: &mut usize) -> Result<(), Stop>
        requires { at.old ≤ length piece.now }
        ensures ended { IsEndAt self.old piece.now at.old result }
        ensures begun { OnOk result (Begins self.old self.new piece.now at.old at.new) }
        ensures some { OnOk result (0 < self.new.left) }
        ensures taken { OnOk result (IsSome self.new.last) }
        ensures onward { at.old ≤ at.new }
        ensures within { at.new ≤ length piece.now }
        ensures kept { self.new.part ≡ self.old.part }
        ensures whole { result ≡ Err Stop.Need → at.new ≡ length piece.now }
        ensures unchanged { OnErr result ((self.new ≡ self.old) × (at.new ≡ at.old)) }
    {
        if self.left > 0 {
            return Ok(());
        }
        let before = self.before();
        self.last = Some(next_byte(before, piece, *at)?);
        self.left = width_after(before);
        *at += 1;
        Ok(())
    }

    /// Reads the next bit.
    ///
    /// `piece` are the bytes at hand, and `at` is the index in them after the last byte that was
    /// taken; it moves past a byte that this call takes. A further piece goes on where this one ends.
    /// No number or run is unfinished.
    ///
    /// # Errors
    ///
    /// As [`Stop`] says; nothing changed then.
    pub fn bit(&mut self, piece: &[u8], at: &mut usize) -> Result<bool, Stop>
        requires free { self.old.part ≡ Part.Nothing }
        requires inside { at.old ≤ length piece.now }
        ensures exact { AnswersBit self.old piece.now at.old result }
        ensures gives { GivesBit self.old self.new piece.now at.old at.new result }
        ensures begun { OnOk result (IsSome self.new.last) }
        ensures onward { at.old ≤ at.new }
        ensures within { at.new ≤ length piece.now }
        ensures kept { self.new.part ≡ Part.Nothing }
        ensures whole { result ≡ Err Stop.Need → at.new ≡ length piece.now }
        ensures unchanged { OnErr result ((self.new ≡ self.old) × (at.new ≡ at.old)) }
    {
        self.ready(piece, at)?;
        Ok(self.give())
    }

    /// Drops the pad bits, and takes the byte after a last byte FF; then the bits are closed, and the
    /// reader is before the first byte of others.
    ///
    /// `piece` and `at` are as for `bit`. A bit was read before.
    ///
    /// # Errors
    ///
    /// As [`Stop`] says; nothing changed then.
    pub fn close(&mut self, piece: &[u8], at: &mut usize) -> Result<(), Stop>
        requires begun { IsSome self.old.last }
        requires free { self.old.part ≡ Part.Nothing }
        requires inside { at.old ≤ length piece.now }
        ensures exact { result
            ≡ closing_answer (before_next self.old.last) (drop at.old piece.now) }
        ensures packed { OnOk result (PacksAll self.old piece.now at.old at.new) }
        ensures only { IsOnlyClosing self.old piece.now at.old result }
        ensures empty { OnOk result (self.new ≡ no_byte) }
        ensures past { OnOk result (at.new ≡ at.old + closing_after (before_next self.old.last)) }
        ensures onward { at.old ≤ at.new }
        ensures within { at.new ≤ length piece.now }
        ensures whole { result ≡ Err Stop.Need → at.new ≡ length piece.now }
        ensures unchanged { OnErr result ((self.new ≡ self.old) × (at.new ≡ at.old)) }
    {
        let before = self.before();
        if before == FF {
            let _ = next_byte(before, piece, *at)?;
            *at += 1;
        }
        self.last = None;
        self.left = 0;
        Ok(())
    }
}
