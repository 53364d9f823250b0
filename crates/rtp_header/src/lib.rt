//! Reads the header of an RTP datagram (RFC 3550 section 5.1), and finds its payload.
//! It takes no memory: the answer is a handful of numbers and a range of the datagram.
#![tactic(auto)]

mod header;

pub use header::{Rtp, RtpFault, read_rtp, write_rtp};

#[cfg(test)]
mod tests;
