//! The job of a receiver: frames go through it one after another, and each packet that it releases
//! is put out as soon as it is due. What is put out of a packet, and at the end, is for a `Sink` to
//! say.
#![tactic(auto)]

mod capture;
mod giving;
mod sink;

pub use capture::receive_capture;
pub use giving::{finish, give_rest, take};
pub use sink::Sink;
