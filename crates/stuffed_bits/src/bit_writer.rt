//! The writer: bits one at a time, into a buffer.
ghost use Rattle.std.specs.Prelude.{◌≡◌, ◌<◌, ◌≤◌, ◌+◌, ◌^◌, ℕ, List, [], Bool, length, drop, IfOk, IfErr};
ghost use Rattle.stuffed_bits.specs.BitWriterState.{no_bit};
ghost use Rattle.stuffed_bits.specs.BitsWritten.{HasWritten, WritesBit, IsFullFor, ArePacked, IsFullAtEnd, begun, filled, added};

use crate::width::{FF, width_after};
use std::marker::Model;

/// The buffer has no room for what is to be written.
#[derive(Clone, Copy, Debug, PartialEq, Eq)]
pub struct Full;

/// Writes bits into bytes, one at a time.
#[derive(Drop)]
pub struct BitWriter {
    /// How many bytes were begun.
    len: usize,
    /// The last of them, or 0.
    last: u8,
    /// How many of its bits, the lowest ones, are free; these are 0.
    free: u8,
}

impl Model for BitWriter {
    ghost use Rattle.std.specs.Prelude.{◌≤◌, ◌+◌, ◌*◌, ◌^◌};
    ghost use Rattle.stuffed_bits.specs.BitWriterState.{BitWriterState};

    ghost Value = { BitWriterState };

    ghost view = { λ w. record { len = w.len; last = w.last; free = w.free } };

    ghost invariant = { λ w. (w.free ≤ 8) × (w.free ≤ 8 * w.len) × (w.last + 2 ^ w.free ≤ 256) };
}

impl BitWriter {
    /// A writer before its first bit.
    pub fn new() -> BitWriter
        ensures empty { result ≡ no_bit }
        ensures none { (buf : List ℕ) → HasWritten [] buf result }
    {
        BitWriter {
            len: 0,
            last: 0,
            free: 0,
        }
    }

    /// Begins the next byte.
    fn begin(&mut self)
        requires { self.old.len + 1 < 2 ^ 64 }
        ensures { self.new ≡ begun self.old }
    {
        self.free = width_after(self.last);
        self.last = 0;
        self.len += 1;
    }

    /// Fills the greatest free bit of the last byte.
    fn fill(&mut self, bit: bool)
        requires { 0 < self.old.free }
        ensures { self.new ≡ filled bit self.old }
    {
        self.free -= 1;
        if bit {
            self.last += 1 << self.free;
        }
    }

    /// Fills the greatest free bit, of the last byte or of the next one.
    fn add(&mut self, bit: bool)
        requires { self.old.free ≡ 0 → self.old.len + 1 < 2 ^ 64 }
        ensures { self.new ≡ added bit self.old }
    {
        if self.free == 0 {
            self.begin();
        }
        self.fill(bit);
    }

    /// Writes a bit.
    ///
    /// `buf` is as the call before left it.
    ///
    /// # Errors
    ///
    /// `Full` where the bits so far and this one reach into more bytes than `buf` has; nothing
    /// changed.
    pub fn put(&mut self, bit: bool, buf: &mut [u8]) -> Result<(), Full>
        requires { self.old.len ≤ length buf.old }
        ensures full { IsFullFor bit self.old buf.old result }
        ensures writes { IfOk result (λ _. WritesBit bit self.old self.new buf.old buf.new) }
        ensures begun { IfOk result (λ _. 0 < self.new.len) }
        ensures onward { self.old.len ≤ self.new.len }
        ensures within { self.new.len ≤ length buf.new }
        ensures beyond { drop self.new.len buf.new ≡ drop self.new.len buf.old }
        ensures unchanged { IfErr result (λ _. (self.new ≡ self.old) × (buf.new ≡ buf.old)) }
    {
        if self.free == 0 && self.len == buf.len() {
            return Err(Full);
        }
        self.add(bit);
        buf[self.len - 1] = self.last;
        Ok(())
    }

    /// Closes the bits that were written, and answers the number of their bytes. A bit was put before.
    ///
    /// `buf` is as the call before left it. The pad bits are 0, and a last byte FF is followed by a
    /// byte 0. Then the writer is before the first of other bits.
    ///
    /// # Errors
    ///
    /// `Full` where these bytes are longer than `buf`; nothing changed.
    pub fn finish(&mut self, buf: &mut [u8]) -> Result<usize, Full>
        requires begun { 0 < self.old.len }
        requires inside { self.old.len ≤ length buf.old }
        ensures full { IsFullAtEnd self.old buf.old result }
        ensures packed { IfOk result (ArePacked self.old buf.old buf.new) }
        ensures within { IfOk result (λ n. n ≤ length buf.new) }
        ensures beyond { IfOk result (λ n. drop n buf.new ≡ drop n buf.old) }
        ensures empty { IfOk result (λ _. self.new ≡ no_bit) }
        ensures unchanged { IfErr result (λ _. (self.new ≡ self.old) × (buf.new ≡ buf.old)) }
    {
        let mut len = self.len;
        if self.last == FF {
            if len == buf.len() {
                return Err(Full);
            }
            buf[len] = 0;
            len += 1;
        }
        self.len = 0;
        self.last = 0;
        self.free = 0;
        Ok(len)
    }
}
