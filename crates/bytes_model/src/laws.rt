//! The laws of numbers in bytes, each on a function that does nothing.

ghost use Rattle.bytes_model.specs.Laws.{TwoBytesAreRead, FourBytesAreRead};

/// A number in two bytes is read back.
pub fn two_bytes_are_read()
    ensures { TwoBytesAreRead }
{}

/// A number in four bytes is read back.
pub fn four_bytes_are_read()
    ensures { FourBytesAreRead }
{}
