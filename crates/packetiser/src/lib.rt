//! Cuts codestreams into datagrams while they are read: each datagram is given as soon as the bytes read fix it, and no
//! byte is read before it is given.
#![tactic(auto)]

mod packetiser;
mod payload;
mod plan;

pub use packetiser::{PackOut, Packetiser};
pub use plan::PackPlan;
