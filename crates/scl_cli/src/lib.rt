//! The top call: the words of a command line, and what each command does over a duct.
#![tactic(auto)]

mod command;
mod deliver;
mod generation;
mod head;
mod head_lines;
mod header_input;
mod machine;
mod order;
mod order_lines;
mod pack;
mod parse;
mod pick;
mod recv;
mod relay;
mod send;
mod socket;
mod thin;
mod top_call;
mod trial;
mod words;

pub use command::{Command, Stamps, Verb};
pub use machine::Machine;
pub use scl_run::{Ending, Reason, Refusal};
pub use top_call::run;
pub use words::Words;
