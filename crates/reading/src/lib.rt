// What it means to read an input by a grammar: in specs/ plain reading, the pairs it reaches and the table of nodes it builds,
// with their laws. The functions decide or count what a law is about, and their contracts carry the laws.
#![tactic(auto)]

pub mod answer;
pub mod laws;
pub mod node;
