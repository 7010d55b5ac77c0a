// From a tree to code: the name check, and the translator that takes only what the check hands out.
#![tactic(auto)]

pub mod checked;
pub mod load;
mod lookup;
pub mod record;
mod scope;
pub mod view;
mod violation;
