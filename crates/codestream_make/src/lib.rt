//! Codestreams of the profile, made from a plan or generated from a seed.
#![tactic(auto)]

mod codestream;
mod drawing;
mod draws;
mod fault;
mod gathered;
mod generator;
mod header_room;
mod packets;
mod plan;
mod shape;

pub use codestream::make;
pub use draws::Draws;
pub use fault::MakeFault;
pub use generator::generate;
pub use plan::{CodePlan, PrecinctPlan};
pub use shape::Sub;

#[cfg(test)]
mod tests;
