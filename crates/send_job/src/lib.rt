//! `send` as a job: codestreams, one after another, cut into datagrams that are sent to one peer.
#![tactic(auto)]

mod counts;
mod laws;
mod naming;
mod offering;
mod sending;
mod settings;

pub use laws::{sends_are_lawful, sent_at_end, sent_so_far};
pub use sending::send;
pub use settings::Settings;

#[cfg(test)]
mod tests;
