//! Worked examples of every command: tables of inputs with the bytes, the line for the user and the
//! status that the top call must give, by subject. It has nothing but tests.
#![tactic(auto)]

#[cfg(test)]
mod tests;
