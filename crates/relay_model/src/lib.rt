//! The tale of one receiver of a relay, as definitions, and that it is told call by call.
//!
//! `specs/` has the definitions and `proofs/` the laws and worked tales. The functions are the laws: they
//! have no body, and what they ensure holds of any limit, depth and answers.
#![tactic(auto)]

mod laws;

pub use laws::{flushes_are_told, polls_settle, turns_are_told};
