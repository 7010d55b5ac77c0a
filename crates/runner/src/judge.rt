ghost use Rattle.runner.specs.Judged.{Judged};

use frames::memory::BuildFrames;
use lang::code::Code;
use lang::instruction::Instruction;
use lang::refusal::{Refusal, Refused};
use lang::sheet::Sheet;
use lang::stack::Stack;
use lang::value::Value;
use machine::machine::Machine;
use machine::outcome::Ran;
use machine::whole::run_over;
use reader::node::Node;
use reader::tree::Tree;
use translate::load::load;
use translate::record::Record;

// The memory for one rule, but for its frames.
#[derive(Drop)]
pub struct Memory<'m> {
    pub nodes: &'m mut [Node],
    pub names: &'m mut [Record],
    pub instructions: &'m mut [Instruction],
    pub places: &'m mut [u16],
    pub values: &'m mut [Value],
    pub returns: &'m mut [u16],
}

pub const MOST_NAMES: usize = 1024;

// Reads a rule and runs it over the sheet and any frame memory: the run, or the text's refusal. Done takes over the entries' values; a refused
// text and a fault leave them. 1 where some memory is too short.
pub fn judge<'m, F: BuildFrames + Drop>(
    text: &[u8],
    sheet: &mut Sheet,
    memory: Memory<'m>,
    frames: F,
) -> Result<Result<Ran, Refused>, Refusal>
    ensures { Judged result sheet.old sheet.new }
{
    let Memory {
        nodes,
        names,
        instructions,
        places,
        values,
        returns,
    } = memory;
    if names.len() < MOST_NAMES {
        return Err(Refusal::ShortMemory);
    }
    let mut tree = Tree::over(nodes)?;
    let mut records = Stack::over(names);
    let mut code = Code::over(instructions, places)?;
    let mut machine = Machine::over(values, returns, frames)?;
    match load(text, sheet, &mut tree, &mut records, &mut code) {
        Err(refused) => Ok(Err(refused)),
        Ok(_) => Ok(Ok(run_over(&mut machine, &code, sheet)?)),
    }
}
