//! The receiver of one stream: the datagrams of a payload type and a source go through the
//! reassembly window into the decoder, and come out as precincts in order.
#![tactic(auto)]

mod datagram;
mod pick;
mod receiver;

pub use datagram::DatagramFault;
pub use pick::{Pick, Tally};
pub use receiver::{Receiver, Stepped, Taken};

#[cfg(test)]
mod tests;
