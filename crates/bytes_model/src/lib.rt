//! Numbers in bytes, the most significant first, as definitions.
//!
//! `specs/` has the definitions. The functions are laws about them: they compute nothing.
#![tactic(auto)]

mod laws;

pub use laws::{four_bytes_are_read, two_bytes_are_read};
