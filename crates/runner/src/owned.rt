use crate::judge::{MOST_NAMES, Memory, judge};
use crate::unjudged::Unjudged;
use frames::chain::Chain;
use frames::display::Display;
use frames::memory::BuildFrames;
use lang::code::MOST_CODE;
use lang::instruction::Instruction;
use lang::refusal::Refused;
use lang::sheet::Sheet;
use lang::value::{Slot, Value};
use machine::outcome::Ran;
use reader::node::{BLANK, Node};
use reader::tree::MOST_NODES;
use std::alloc::{AllocError, Global};
use translate::record::{NO_RECORD, Record};

// The memory that one text is read, checked and translated in, from the heap.
#[derive(Drop)]
pub(crate) struct OwnedText {
    pub(crate) nodes: Vec<Node>,
    pub(crate) names: Vec<Record>,
    pub(crate) instructions: Vec<Instruction>,
    pub(crate) places: Vec<u16>,
}

impl OwnedText {
    // Enough of each kind.
    pub(crate) fn new(heap: Global) -> Result<OwnedText, AllocError> {
        Ok(OwnedText {
            nodes: vec![in heap; BLANK; MOST_NODES]?,
            names: vec![in heap; NO_RECORD; MOST_NAMES]?,
            instructions: vec![in heap; Instruction::Back; MOST_CODE]?,
            places: vec![in heap; 0u16; MOST_CODE]?,
        })
    }
}

// The memory for frames from the heap, lent part by part.
#[derive(Drop)]
struct OwnedFrames {
    links: Vec<u16>,
    starts: Vec<u16>,
    slots: Vec<Slot>,
}

impl OwnedFrames {
    // Enough of each kind, and so many links.
    fn new(heap: Global, links: usize) -> Result<OwnedFrames, AllocError> {
        Ok(OwnedFrames {
            links: vec![in heap; 0u16; links]?,
            starts: vec![in heap; 0u16; 256]?,
            slots: vec![in heap; Slot::Unset; 2048]?,
        })
    }
}

// Judges a rule in memory from the heap, over any frame memory.
fn judge_over<F: BuildFrames + Drop>(
    heap: Global,
    text: &[u8],
    sheet: &mut Sheet,
    frames: F,
) -> Result<Result<Ran, Refused>, Unjudged> {
    let mut owned = OwnedText::new(heap)?;
    let mut values = vec![in heap; Value::Number(0); 512]?;
    let mut returns = vec![in heap; 0u16; 256]?;
    let memory = Memory {
        nodes: &mut owned.nodes,
        names: &mut owned.names,
        instructions: &mut owned.instructions,
        places: &mut owned.places,
        values: &mut values,
        returns: &mut returns,
    };
    Ok(judge(text, sheet, memory, frames)?)
}

// Judges a rule over a static chain. This and the next differ in a type: a generic function would have to name the
// trait of the links, which `frames` does not hand out.
pub fn judge_over_chain(
    heap: Global,
    text: &[u8],
    sheet: &mut Sheet,
) -> Result<Result<Ran, Refused>, Unjudged> {
    let mut owned = OwnedFrames::new(heap, 256)?;
    let chain = Chain::over(&mut owned.links, &mut owned.starts, &mut owned.slots)?;
    judge_over(heap, text, sheet, chain)
}

// Judges a rule over a display.
pub fn judge_over_display(
    heap: Global,
    text: &[u8],
    sheet: &mut Sheet,
) -> Result<Result<Ran, Refused>, Unjudged> {
    let mut owned = OwnedFrames::new(heap, 4096)?;
    let display = Display::over(&mut owned.links, &mut owned.starts, &mut owned.slots)?;
    judge_over(heap, text, sheet, display)
}
