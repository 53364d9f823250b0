//! What the codestreams of the profile are, after ITU-T T.800 and T.814, as definitions alone.
//!
//! `specs/` has the definitions and `proofs/` the laws about them. The functions here are laws: they compute nothing.
#![tactic(auto)]

mod choice_laws;
mod codestream_laws;
mod item_laws;
mod laws;
mod packet_laws;

pub use choice_laws::{
    band_spans_are_sampled, broken_at_is_first, bytes_of_bits_is_least, choices_can_say,
    inclusion_is_least, lblock_is_least, packed_bits_are_read, packing_pads_with_zeros,
    planes_are_least, unbroken_is_none,
};
pub use codestream_laws::{
    codestream_fronts_need_bytes, codestream_refusals_stay, codestreams_are_judged,
    codestreams_are_read_one_way, codestreams_have_one_verdict, fault_is_one, input_is_not_refused,
    input_is_one, inputs_are_judged,
};
pub use item_laws::{
    cut_heads_are_short, eoc_has_one_verdict, eoc_is_judged, eoc_refusals_stay, faults_stay,
    head_fronts_need_bytes, one_frame_more_is_a_fault, packet_refusals_stay, packets_are_judged,
    packets_have_one_verdict, unfinished_headers_are_short,
};
pub use laws::{
    each_component_has_precincts, great_pids_are_found, header_is_not_refused, header_is_one,
    header_is_read_one_way, header_is_within_limits, header_stands, headers_are_judged,
    keys_are_distinct, packet_order_is_computed, packet_order_is_one, parts_are_apart,
    parts_cover_bands, pids_are_dense, pids_are_distinct, quotient_is_rounded_up, refusal_is_one,
    refusal_is_read_one_way, refusal_stands, strips_are_reached,
};
pub use packet_laws::{
    bits_that_are_packed_by_computing_are_packed, empty_packet_is_read, exponent_is_least,
    header_fronts_need_bytes, headers_are_read, headers_are_read_one_way, headers_are_sound,
    marked_fronts_need_bytes, marked_headers_are_judged, marked_headers_are_read,
    marked_headers_are_read_one_way, marked_headers_are_sound, marked_headers_have_one_verdict,
    marked_needs_are_read, marked_needs_are_sound, marked_refusals_are_read,
    marked_refusals_are_sound, marked_refusals_stay, needs_are_read, needs_are_sound,
    packed_bits_agree, packed_bits_are_carried, packet_headers_are_judged,
    packet_headers_have_one_verdict, packet_runs_are_read_one_way, packets_are_read_one_way,
    refusals_are_read, refusals_are_sound, refusals_stay, written_is_header,
};
