//! Tag trees of packet headers (T.800 B.10.2): the labels of the code-blocks of one band, read or
//! written leaf by leaf.
//!
//! A tree's leaves are a grid's code-blocks, and each level above has half the columns and rows,
//! rounded up, until one node is left, the root. Labels never fall from the root to a leaf, and a
//! node's bits are given once, for the first leaf on whose path it lies.
#![tactic(auto)]

mod kind;
mod layout;
mod reading;
mod stop;
mod tree;
mod writing;

pub use stop::LabelStop;
pub use tree::Tree;

#[cfg(test)]
mod tests;
