//! Numbers as a header has them, the most significant byte first, and quotients rounded up.
ghost use Rattle.std.specs.Prelude.{◌≡◌, ◌<◌, ◌≤◌, ◌+◌, length};
ghost use Rattle.codestream_model.specs.Bytes.{two_at, four_at};
ghost use Rattle.codestream_model.specs.Areas.{ceil_div};
ghost use Rattle.codestream_model.specs.Segments.{stated_length};

use byteorder::{BigEndian, ByteOrder};

/// The number in the two bytes from a place on.
pub(crate) fn number_16(bytes: &[u8], at: usize) -> u16
    requires { at + 2 ≤ length bytes.now }
    ensures { result ≡ two_at bytes.now at }
{
    BigEndian::read_u16(&bytes[at..])
}

/// The number in the four bytes from a place on.
pub(crate) fn number_32(bytes: &[u8], at: usize) -> u32
    requires { at + 4 ≤ length bytes.now }
    ensures { result ≡ four_at bytes.now at }
{
    BigEndian::read_u32(&bytes[at..])
}

/// The length that a segment with this content states: it counts itself.
pub(crate) fn stated_length(content: &[u8]) -> usize
    ensures { result ≡ stated_length content.now }
{
    content.len() + 2
}

/// A quotient, rounded up.
pub(crate) fn rounded_up(number: u32, divisor: u32) -> u32
    requires { 0 < divisor }
    ensures { result ≡ ceil_div number divisor }
{
    number.div_ceil(divisor)
}
