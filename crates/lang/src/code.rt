use crate::instruction::Instruction;
use crate::refusal::Refusal;
use crate::stack::{Full, Stack};

// The most instructions that a rule can have: three for each of 4,096 nodes.
pub const MOST_CODE: usize = 12288;

// Code in lent memory: instructions from position 0, and the place of each beside it. The host lends the two apart.
#[derive(Drop)]
pub struct Code<'m> {
    instructions: Stack<'m, Instruction>,
    places: Stack<'m, u16>,
}

impl<'m> Code<'m> {
    ghost use Rattle.std.specs.Prelude.{◌≡◌, true, false, [], length, Some, None, MatchResult};
    ghost use Rattle.std.specs.List.{slice_get};
    ghost use Rattle.lang.specs.Refusals.{number};
    ghost use Rattle.lang.specs.Codes.{instructions_of, places_of, code_room, place_room, short_code, Emitted, Patched};

    // No code, in memory for 12,288 instructions and places; 1 where either is shorter.
    pub fn over(
        instructions: &'m mut [Instruction],
        places: &'m mut [u16],
    ) -> Result<Code<'m>, Refusal>
        ensures { MatchResult result
            (λ c. (short_code (length instructions.old) (length places.old) ≡ false) × (instructions_of c ≡ []) × (places_of c ≡ []) × (code_room c ≡ length instructions.old) × (place_room c ≡ length places.old))
            (λ e. (short_code (length instructions.old) (length places.old) ≡ true) × (number e ≡ 1)) }
    {
        if instructions.len() < MOST_CODE || places.len() < MOST_CODE {
            return Err(Refusal::ShortMemory);
        }
        Ok(Code {
            instructions: Stack::over(instructions),
            places: Stack::over(places),
        })
    }

    // How many instructions there are.
    pub fn len(&self) -> usize
        ensures { result ≡ length (instructions_of self.now) }
    {
        self.instructions.len()
    }

    // The instructions, from position 0.
    pub fn instructions(&self) -> &[Instruction]
        ensures { result.now ≡ instructions_of self.now }
    {
        self.instructions.as_slice()
    }

    // Their places.
    pub fn places(&self) -> &[u16]
        ensures { result.now ≡ places_of self.now }
    {
        self.places.as_slice()
    }

    // The instruction at a position.
    pub fn instruction(&self, at: usize) -> Option<Instruction>
        ensures { result ≡ slice_get (instructions_of self.now) at }
    {
        self.instructions.get(at)
    }

    // The place of the instruction at a position.
    pub fn place(&self, at: usize) -> Option<u16>
        ensures { result ≡ slice_get (places_of self.now) at }
    {
        self.places.get(at)
    }

    // No instruction is left; the memory keeps what it holds.
    pub fn clear(&mut self)
        ensures { (instructions_of self.new ≡ []) × (places_of self.new ≡ []) × (code_room self.new ≡ code_room self.old) × (place_room self.new ≡ place_room self.old) }
    {
        self.instructions.clear();
        self.places.clear();
    }

    // One instruction more with its place; `Full`, and nothing changes, where either memory is full.
    pub fn emit(&mut self, instruction: Instruction, place: u16) -> Result<(), Full>
        ensures { Emitted result self.old instruction place self.new }
    {
        if self.places.len() >= self.places.room() {
            return Err(Full);
        }
        self.instructions.push(instruction)?;
        self.places.push(place)
    }

    // Another instruction at a position, with the same place.
    pub fn patch(&mut self, at: usize, instruction: Instruction)
        ensures { Patched at instruction self.old self.new }
    {
        self.instructions.change(at, instruction);
    }
}
