//! What a stream of datagrams that carries codestreams is, what of it arrives in time and what is due of it, how codestreams are
//! cut into datagrams, and what the rules of a receiver make of any datagrams, as definitions alone.
//!
//! `specs/` has the definitions and `proofs/` the laws about them and worked examples. The functions here are laws: they compute
//! nothing.
#![tactic(auto)]

mod command_laws;
mod cut_laws;
mod decoder_laws;
mod laws;
mod reading_laws;
mod receiver_laws;
mod run_laws;
mod thinned_laws;

pub use command_laws::{
    parse_writes_inputs, parse_writes_up_to_fault, parse_writes_whole_packets,
    reads_have_whole_packets,
};
pub use cut_laws::{bytes_fix_datagrams, closed_grows, closed_is_cut, closed_is_front_of_cut};
pub use decoder_laws::{settled_follows_rules, settled_waits};
pub use laws::{
    base_is_least, base_never_falls, below_base_is_decided, body_has_byte, chunks_are_full,
    closed_stays, cut_is_stream, due_grows, events_are_one, in_time_is_computed, in_time_is_listed,
    in_time_stays, ordered_is_in_time, parts_are_of_codestreams, payloads_are_whole,
    precinct_is_found, reached_is_computed, repeat_changes_nothing, stream_is_in_order,
    stretches_are_runs, thinned_does_not_arrive, thinned_then_picked, whole_is_due,
    whole_stream_is_due, written_is_datagram,
};
pub use reading_laws::{
    each_precinct_is_kept, each_precinct_is_read, each_release_is_read, given_grows, given_stays,
    picked_are_taken, report_is_read,
};
pub use receiver_laws::{
    arrive_front, drained_has_nothing, drained_takes_frame, each_frame_is_counted_once,
    found_is_what_stands, given_are_whole, kept_is_near, malformed_frames_are_counted_alone,
    next_is_drained, precincts_join, received_grows, report_grows, report_writes_what_is_due,
    window_of_frames,
};
pub use run_laws::{
    each_precinct_is_said, gives_what_is_due, gives_what_is_reached, hands_on_in_order,
    in_order_gives_all, releases_what_is_reached, runs_give_what_is_reached,
    runs_release_what_is_reached, window_is_at_base,
};
