//! How many bits a byte carries (T.800 B.10.1).
ghost use Rattle.std.specs.Prelude.{◌≡◌};
ghost use Rattle.codestream_model.specs.StuffedBits.{width_after as width_of};

/// The byte after which the next one's top bit is 0.
pub const FF: u8 = 0xFF;

/// The number of bits that a byte carries, by the byte before it.
pub fn width_after(before: u8) -> u8
    ensures { result ≡ width_of before }
{
    if before == FF { 7 } else { 8 }
}
