//! The lines of a report, written without memory: of each precinct, of each of its code-blocks, and
//! of what a receiver counted.
#![tactic(auto)]

mod lines;
mod page;
mod writing;

pub use lines::{Counts, write_end, write_precinct};

#[cfg(test)]
mod tests;
