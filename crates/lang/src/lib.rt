// The vocabulary of the engine: values, names, the sheet, refusals, faults, instructions, code, and the stack.
#![tactic(auto)]

pub mod byte;
pub mod code;
pub mod fault;
pub mod instruction;
pub mod name;
pub mod narrow;
pub mod refusal;
pub mod reserved;
pub mod sheet;
pub mod stack;
pub mod value;
pub mod word;
