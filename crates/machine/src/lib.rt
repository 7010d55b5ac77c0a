// The machine: one step, and a run with a budget, over every frame memory.
#![tactic(auto)]

pub mod machine;
pub mod operators;
pub mod outcome;
pub mod whole;
