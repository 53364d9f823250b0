//! What is built again of codestreams from packets that were received, as definitions alone.
//!
//! `specs/` has the definitions and `proofs/` the laws about them and worked examples. The
//! functions here are laws: they compute nothing.
#![tactic(auto)]

mod header_laws;
mod rebuilding_laws;
mod stripping_laws;

pub use header_laws::headers_are_numbered;
pub use rebuilding_laws::{
    built_is_accepted, each_is_built, empty_packet_is_packet, rebuilt_grows,
    rebuilt_is_what_is_reached, some_packets_are_accepted,
};
pub use stripping_laws::stripped_is_head;
