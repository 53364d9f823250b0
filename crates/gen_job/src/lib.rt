//! `gen` as a job: a codestream that is generated from a seed, written.
#![tactic(auto)]

mod generation;

pub use generation::{Generation, write_generated};

#[cfg(test)]
mod tests;
