//! Bits in bytes with bit stuffing, as packet headers have them (T.800 B.10.1): a reader of a bit, a
//! number or a run at a time, and a writer of a bit at a time.
//!
//! The bits fill bytes from the top. After a byte FF the next byte's top bit is 0 and carries nothing;
//! a last byte FF is followed by one more such byte. Neither direction takes memory, and neither keeps
//! the bytes: each call is passed them. Where a piece of bytes ends inside a value, the reader keeps
//! the bits that it has read of it, and the same call goes on with a further piece.
#![tactic(auto)]

mod bit_in;
mod bit_writer;
mod numbers;
mod part;
mod runs;
mod source;
mod stop;
mod width;

pub use bit_in::BitIn;
pub use bit_writer::{BitWriter, Full};
pub use part::Part;
pub use source::Source;
pub use stop::Stop;

#[cfg(test)]
mod tests;
