//! The order of the packets of an image: by resolution, position and component (RPCL, T.800 B.12.1.3), or by position,
//! component and resolution (PCRL, B.12.1.4).
#![tactic(auto)]

mod anchored;
mod cursor;
mod laws;
mod order_list;
mod walk;

pub use cursor::Cursor;
pub use laws::{later_is_the_rest, places_from_one_on};
pub use order_list::OrderList;
pub use walk::OrderWalk;

#[cfg(test)]
mod tests;
