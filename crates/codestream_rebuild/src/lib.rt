//! Codestreams built again from packets that were received: a main header without the lengths that it tells, the
//! packets that came, and empty packets for those that didn't.
#![tactic(auto)]

mod codestream;
mod key;
mod rebuild;
mod stripping;
mod writing;

pub use rebuild::Rebuild;
pub use stripping::stripped;

#[cfg(test)]
mod tests;
