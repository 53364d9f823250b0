//! The job of `rebuild`: a capture goes through a receiver, and codestreams are built again from
//! the packets that it releases.
#![tactic(auto)]

mod capture;
mod codestreams;
mod laws;

pub use capture::rebuild;
pub use laws::{rebuilt_at_end, stream_is_rebuilt};
