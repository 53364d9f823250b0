//! A piece of bytes with the reader of its bits.
ghost use Rattle.std.specs.Prelude.{◌≡◌};

use crate::bit_in::BitIn;

/// A reader of the bits of a piece of bytes.
#[derive(Drop)]
pub struct Source<'a> {
    /// The bytes at hand.
    pub piece: &'a [u8],
    /// The index after the last of them that was taken.
    pub at: usize,
    /// What was read of the bytes that were taken.
    pub bits: BitIn,
}

impl<'a> Source<'a> {
    /// A reader before the first byte of a piece, which goes on where `bits` ended.
    pub fn new(piece: &'a [u8], bits: BitIn) -> Source<'a>
        ensures piece { result.piece.now ≡ piece.now }
        ensures at { result.at ≡ 0 }
        ensures bits { result.bits ≡ bits }
    {
        Source { piece, at: 0, bits }
    }
}
