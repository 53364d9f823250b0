//! Datagrams that come in, passed on to each of several receivers by its own limit, queue and link.
//!
//! `Relay` takes turns: it receives once, puts what came into the queue of each receiver whose limit keeps
//! it, and then sends from each queue until that is empty or its link isn't ready.
#![tactic(auto)]

mod level;
mod passing;
mod receiver;
mod receivers;
mod relay;

pub use level::level_of;
pub use relay::{Peer, Relay, Turn};

#[cfg(test)]
mod tests;
