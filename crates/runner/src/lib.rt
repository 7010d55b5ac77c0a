// A rule from its text to its outcome and the lines that report it.
#![tactic(auto)]

pub mod example;
pub mod judge;
pub mod listing;
pub mod owned;
pub mod report;
pub mod unjudged;
