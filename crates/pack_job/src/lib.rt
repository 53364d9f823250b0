//! `pack` as a job: codestreams, one after another, cut into the datagrams of a capture.
#![tactic(auto)]

mod datagrams;
mod laws;

pub use datagrams::pack;
pub use laws::{packed_at_end, packed_so_far, sent_inputs_are_lawful, stream_is_packed};

#[cfg(test)]
mod tests;
