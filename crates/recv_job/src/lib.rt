//! The job of `recv`: datagrams that come go through a receiver, and the lines of each precinct are
//! written as soon as it is due.
#![tactic(auto)]

mod laws;
mod line;
mod link;
mod run;
mod settings;

pub use laws::{due_at_end, due_so_far, receivers_are_lawful};
pub use run::recv;
pub use settings::Settings;
