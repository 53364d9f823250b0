//! What `deliver` writes of a capture, and `recv` of the datagrams that come, as definitions alone.
//!
//! `specs/` has the definitions and `proofs/` the laws about them and worked examples. The
//! functions here are laws: they compute nothing.
#![tactic(auto)]

mod delivering_laws;
mod picking_laws;
mod receiving_laws;

pub use delivering_laws::{
    captures_are_delivered_or_refused, deliver_has_one_answer, delivered_are_listed,
    missing_is_greater,
};
pub use picking_laws::thinned_and_picked;
pub use receiving_laws::{recv_only_grows, recv_writes_what_is_due};
