//! The decoder of a receiver. The codestream bytes of Body packets that came without a gap form a
//! run, in which packets of precincts follow each other; a mark, where a Body names the precinct
//! whose packet starts in it, begins a run again.
#![tactic(auto)]

mod buffer;
mod current;
mod decoder;
mod found;

pub use decoder::{Decoder, HeadTaken};

#[cfg(test)]
mod tests;
