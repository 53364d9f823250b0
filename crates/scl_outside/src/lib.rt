//! The outside: the one door through which bytes come in and go out, with a meaning that contracts speak of.
//!
//! `Duct` is what reads input and writes output; `Outside` receives and sends datagrams too. `DuctMem`,
//! `OutsideMem` and `NeverFails` are these over memory, with answers that are planned.
#![tactic(auto)]

mod addresses;
mod duct;
mod inbox;
mod laws;
mod links;
mod memory;
mod never_fails;
mod outside;
mod outside_mem;
mod record;
mod texts;
mod wire_mem;

pub use duct::{Duct, Mark, PutOut, ReadOut, WriteOut, are_bytes};
pub use inbox::Inbound;
pub use links::LinkPlan;
pub use memory::DuctMem;
pub use never_fails::NeverFails;
pub use outside::{BindOut, Outside, RecvOut, SendOut};
pub use outside_mem::OutsideMem;

#[cfg(test)]
mod tests;
