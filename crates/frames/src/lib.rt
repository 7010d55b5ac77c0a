// Frame memories: the two halves of the interface, the static chain and the display.
#![tactic(auto)]

pub mod chain;
pub mod display;
pub mod frame_memory;
mod links;
pub mod memory;
pub mod passage;
mod slots;
