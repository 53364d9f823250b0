//! What RTP datagrams, their payload headers and captures of them are, as definitions.
//!
//! `specs/` has the definitions and `proofs/` the laws about them and the worked captures. The functions are the laws:
//! they have no body, and what they ensure holds of all bytes.
#![tactic(auto)]

mod laws;

pub use laws::{
    bytes_split, datagram_is_computed, frames_are_computed, kept_is_within,
    payload_has_one_verdict, payload_is_read_one_way, payload_reads_as_laid_out,
    rtp_has_one_verdict, rtp_is_read_one_way, rtp_reads_as_laid_out, well_formed_is_datagram,
};
