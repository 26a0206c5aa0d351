// What a grammar file is: its expressions, its faults and, in specs/, its format, its form and what a check answers.
#![tactic(auto)]

pub mod expr;
pub mod fault;
pub mod rules;
