// Bytes to a checked grammar, exactly when they have the form of a grammar file.
#![tactic(auto)]

mod check;
pub mod error;
pub mod grammar;
mod items;
mod laws;
mod records;
mod sections;
