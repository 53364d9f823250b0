//! `trial` as a job: generated codestreams are packed, lost, repeated, exchanged, thinned and
//! received, and one line tells the numbers of each step.
#![tactic(auto)]

mod asked;
mod codestreams;
mod counting;
mod datagrams;
mod delivering;
mod line;
mod packing;
mod receiving;
mod run;

pub use asked::Trial;
pub use run::write_trial;
