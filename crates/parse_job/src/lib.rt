//! `parse` as a job: the precincts of codestreams, one after another, with what their packets say.
#![tactic(auto)]

mod laws;
mod packets;

pub use laws::codestreams_are_lawful;
pub use packets::{parse, refusal_of};

#[cfg(test)]
mod tests;
