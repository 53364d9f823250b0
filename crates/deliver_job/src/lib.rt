//! `deliver` as a job: the frames of a capture, picked by position.
#![tactic(auto)]

mod bounds;
mod capture;
mod delivery;
mod items;
mod laws;
mod positions;
mod writing;

pub use delivery::deliver;
pub use items::Item;
pub use laws::delivered_inputs_are_lawful;
pub use positions::{Positions, positions_in};

#[cfg(test)]
mod tests;
