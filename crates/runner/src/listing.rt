use crate::owned::OwnedText;
use crate::report::refusal_line;
use crate::unjudged::Unjudged;
use lang::code::Code;
use lang::sheet::Sheet;
use lang::stack::Stack;
use reader::tree::Tree;
use std::alloc::{AllocError, Global};
use translate::load::load;

// A line for each instruction: position, number, three operands, place.
fn lines(heap: Global, code: &Code) -> Result<String, AllocError> {
    let mut all = String::new(heap);
    for (at, (instruction, place)) in code.instructions().iter().zip(code.places()).enumerate() {
        writeln!(all, "{at} {instruction} {place}")?;
    }
    Ok(all)
}

// The code of a text over a sheet, a line for each instruction, or the line of its refusal.
pub fn listing(heap: Global, text: &[u8], sheet: &Sheet) -> Result<String, Unjudged> {
    let mut owned = OwnedText::new(heap)?;
    let mut tree = Tree::over(&mut owned.nodes)?;
    let mut records = Stack::over(&mut owned.names);
    let mut code = Code::over(&mut owned.instructions, &mut owned.places)?;
    match load(text, sheet, &mut tree, &mut records, &mut code) {
        Err(refused) => Ok(refusal_line(heap, refused)?),
        Ok(_) => Ok(lines(heap, &code)?),
    }
}
