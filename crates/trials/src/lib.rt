// Trials: tables of texts with what becomes of them, over both frame memories.
#![tactic(auto)]

pub mod case;
mod examples;
mod faults;
mod grammar;
mod names;
#[cfg(test)]
mod tests;
mod words;
