//! A datagram to receive and a queue of datagrams to send, each as a state that is polled.
//!
//! `RecvFuture` makes one call for a datagram a poll. `SendFuture` sends from the front of its queue until
//! that is empty or the link isn't ready.
#![tactic(auto)]

mod receiving;
mod sending;

pub use receiving::{Polled, RecvFuture};
pub use sending::{Flushed, SendFuture};

#[cfg(test)]
mod tests;
