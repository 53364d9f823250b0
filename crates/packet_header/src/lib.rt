//! Packet headers (T.800 B.10, with the segments of T.814): the code-blocks that a packet includes, how
//! many bit-planes and coding passes each has, and how many bytes their segments take.
//!
//! `HeaderReader` reads a header at the start of bytes that come in any pieces, and the EPH after it
//! where the main header asks for one; no byte is read twice, and no memory is taken after `reserve`.
//! A header is as long as it says itself: it ends where the last code-block's values do, filled up to
//! a whole byte. `write_header` writes the header of code-blocks: of all headers that say them the one
//! with the least labels in its tag trees and the least Lblocks.
#![tactic(auto)]

mod block;
mod block_bits;
mod blocks;
mod fault;
mod filling;
mod grids;
mod judging;
mod marker;
mod pieces;
mod queue;
mod reader;
mod refusal;
mod source;
mod step;
mod writing;

pub use block::{Block, Precinct};
pub use fault::PutFault;
pub use reader::HeaderReader;
pub use refusal::{HeaderOut, HeaderWhy};
pub use writing::write_header;

#[cfg(test)]
mod tests;
