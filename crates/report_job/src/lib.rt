//! The job of `report`: a capture goes through a receiver, and the lines of each precinct are
//! written as soon as it is due.
#![tactic(auto)]

mod capture;
mod laws;
mod lines;

pub use capture::report;
pub use laws::{
    headline_at_fault, headline_follows, headline_so_far, readings_at_end, readings_so_far,
    thinned_follows, whole_stream_is_reported,
};
pub use lines::Lines;

#[cfg(test)]
mod tests;
