//! The reassembly window of a receiver: datagrams are held by their extended numbers until they
//! follow each other, or until the numbers before them are given up.
#![tactic(auto)]

mod cell;
mod ring;
mod window;

pub use window::{Offer, Slot, Window};

#[cfg(test)]
mod tests;
