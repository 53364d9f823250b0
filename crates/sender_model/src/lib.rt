//! What a sender makes of an input of codestreams, as definitions alone.
//!
//! `specs/` has the definitions and `proofs/` the laws about them and worked examples. The
//! functions here are laws: they compute nothing.
#![tactic(auto)]

mod closing_laws;
mod lead_laws;
mod output_laws;
mod refusal_laws;
mod sending_laws;

pub use closing_laws::{closed_is_computed, closed_is_one, closed_only_grows};
pub use lead_laws::reads_little_ahead;
pub use output_laws::{pack_only_grows, pack_writes_cut, packed_are_frames, send_only_grows};
pub use refusal_laws::{
    accepted_is_cut, inputs_are_sent_or_refused, sendable_is_accepted, sender_has_one_answer,
};
pub use sending_laws::{datagram_is_told, each_is_counted, sending_is_told, sent_only_grows};
