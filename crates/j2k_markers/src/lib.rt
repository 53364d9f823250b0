//! Reads and writes the main header of a codestream of the profile (T.800 Annex A, T.814): its values, or
//! where and why there is none. The header is taken up to and including SOD, so it has the one tile-part's
//! header too.
#![tactic(auto)]

mod components;
mod head;
mod identifiers;
mod markers;
mod numbers;
mod plan;
mod segments;
mod styles;
mod tiles;
mod walk;

pub use head::{Head, HeadFault, HeadWhy, MOST_COMPONENTS, PCRL, RPCL};
pub use plan::{HeadPlan, PlanFault, write_head};
pub use walk::read_head;

#[cfg(test)]
mod tests;
