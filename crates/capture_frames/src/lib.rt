//! The frames of a capture (RFC 4571), read one at a time and written one at a time, without memory.
#![tactic(auto)]

mod filling;
mod reader;
mod writer;

pub use reader::{FrameOut, Frames};
pub use writer::put_frame;

#[cfg(test)]
mod tests;
