// From a text to its tree: words, grammar, and the table of nodes.
#![tactic(auto)]

mod grammar;
pub mod node;
mod number;
pub mod reading;
pub mod tree;
pub mod words;
