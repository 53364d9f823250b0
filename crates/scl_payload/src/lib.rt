//! Reads the payload header of a datagram, Main or Body, and says where its codestream bytes start.
//! The layout is that of this project's profile after RFC 9828; RTP's own header isn't part of it.
#![tactic(auto)]

mod head;
mod reading;
mod writing;

pub use head::{BodyHead, MainHead, Payload, PayloadFault};
pub use reading::read_payload;
pub use writing::{ahead_of, extended, resolution_code, write_body, write_main};

#[cfg(test)]
mod tests;
