//! The job of `relay`: datagrams that come in are passed on to receivers, each by its own limit, queue and link.
#![tactic(auto)]

mod draining;
mod laws;
mod lines;
mod naming;
mod run;
mod serving;
mod settings;

pub use laws::relays_are_lawful;
pub use run::relay;
pub use settings::Settings;
