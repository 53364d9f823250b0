//! Precincts, their code-blocks, their places and their numbers, as the values of a main header fix them
//! (T.800 B.5 to B.7 and B.12).
#![tactic(auto)]

mod areas;
mod course;
mod geometry;
mod place;

pub use areas::Span;
pub use course::Course;
pub use geometry::{Area, Geometry};
pub use place::{Bands, Grid, Place};

#[cfg(test)]
mod tests;
