//! The generator of codestreams and the trial, as definitions.
//!
//! `specs/` has the definitions and `proofs/` the laws about them and worked examples. The
//! functions here are laws: they compute nothing.
#![tactic(auto)]

mod draw_laws;
mod generator_laws;
mod trial_laws;

pub use draw_laws::draws_are_within;
pub use generator_laws::{
    drawn_contents_make_packets, generated_has_parts, shape_headers_are_accepted,
};
pub use trial_laws::{delivered_are_within, trial_counts_what_is_received, trials_can_be_sent};
