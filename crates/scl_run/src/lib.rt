//! What the jobs of all commands share: how a run ends and what it tells the user, which inputs a
//! job reads, what it makes of them, the numbers of a command line, and text of fixed room.
#![tactic(auto)]

mod ending;
mod laws;
mod numbers;
mod reasons;
mod texts;

pub use ending::{Ending, Reason, Refusal, finish};
pub use laws::{capture_inputs_are_lawful, header_inputs_are_lawful, no_input_is_lawful};
pub use numbers::number_within;
pub use texts::push_number;
