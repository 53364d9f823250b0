//! The items of codestreams, one after another, off a duct: piece by piece by `Pieces`, in whole packets by `Walk`.
#![tactic(auto)]

mod fault;
mod input;
mod judging;
mod laws;
mod next_header;
mod pieces;
mod progression;
mod walk;

pub use fault::{PieceOut, WalkFault, WalkWhy};
pub use laws::{
    end_is_cut, end_is_input, limit_is_fault, limit_is_full, pieces_add_up, refusal_is_fault,
    wants_fix_nothing,
};
pub use pieces::Pieces;
pub use walk::{Walk, WalkOut};

#[cfg(test)]
mod tests;
