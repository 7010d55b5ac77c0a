ghost use Rattle.std.specs.Prelude.{◌≡◌, ◌+◌};
ghost use Rattle.lang.specs.Stacks.{items, room};
ghost use Rattle.lang.specs.Values.{slot_of};
ghost use Rattle.frames.specs.Frames.{written, got};
ghost use Rattle.meaning.specs.Machine.{act, built, filling, moved, called_at};
ghost use Rattle.machine.specs.Shows.{Ready, Did, moved_by, value_got};

use crate::machine::{MOST_RETURNS, Machine, Position};
use crate::outcome::Halt;
use frames::memory::{BuildFrames, ReadFrames};
use lang::fault::Fault;
use lang::instruction::Instruction;
use lang::stack::Stack;
use lang::value::{Slot, Value};

// The newest values move into the last frame, the newest into its last slot; none where too few wait.
fn move_args<F: BuildFrames + Drop>(
    values: &mut Stack<Value>,
    frames: &mut F,
    count: u8,
) -> Option<()>
    ensures room { room values.new ≡ room values.old }
    ensures moves { F.ReadFrames.sound frames.old → F.ReadFrames.sound frames.new × (moved_by result (items values.new) (F.ReadFrames.frames frames.new) ≡ moved count (items values.old) (F.ReadFrames.frames frames.old)) }
{
    // by number, since the offset is what `put` is handed
    for offset in (0..count as usize).rev() {
        let v = values.pop()?;
        // the frame just entered has a slot for each arg
        let _ = frames.put(0, offset, Slot::from(v));
    }
    Some(())
}

// The instructions that work on frames. Each answers the position of the next instruction.
impl<'m, F: BuildFrames + Drop> Machine<'m, F> {
    // The value in the slot at a pair, if there is one.
    pub(super) fn value_at(&self, hops: usize, offset: usize) -> Option<Value>
        ensures { Ready F.ReadFrames.sound self.now → result ≡ value_got (got (F.ReadFrames.frames self.now.frames) hops offset) }
    {
        self.frames.get(hops, offset).ok()?.value()
    }

    // A value goes into a slot.
    fn put_value(&mut self, here: Position, hops: u8, offset: u8, v: Value) -> Result<usize, Halt>
        ensures { Did F.ReadFrames.sound F.ReadFrames.frames here.at self.old self.new result (λ p m. built (m.at + 1) m.values (written m.frames hops offset (slot_of v)) p m) }
    {
        self.frames
            .put(hops as usize, offset as usize, Slot::from(v))?;
        Ok(here.next())
    }

    pub(super) fn load(&mut self, here: Position, hops: u8, offset: u8) -> Result<usize, Halt>
        ensures { Did F.ReadFrames.sound F.ReadFrames.frames here.at self.old self.new result (act (Instruction.Load hops offset)) }
    {
        // in checked code a name has a slot, which holds a value where the name is read
        let v = self
            .value_at(hops as usize, offset as usize)
            .ok_or(Halt::Stuck)?;
        self.give(here, v)
    }

    pub(super) fn fill(&mut self, here: Position, offset: u8) -> Result<usize, Halt>
        ensures { Did F.ReadFrames.sound F.ReadFrames.frames here.at self.old self.new result (λ p m. filling offset m.values p m) }
    {
        let v = self.values.pop().ok_or(Halt::Stuck)?; // in checked code the value of a datum waits
        self.put_value(here, 0, offset, v)
    }

    // A value takes the place of another of its kind.
    pub(super) fn store(&mut self, here: Position, hops: u8, offset: u8) -> Result<usize, Halt>
        ensures { Did F.ReadFrames.sound F.ReadFrames.frames here.at self.old self.new result (act (Instruction.Store hops offset)) }
    {
        let v = self.values.pop().ok_or(Halt::Stuck)?; // in checked code the value that is assigned waits
        // in checked code the slot of a variable holds a value
        let u = self
            .value_at(hops as usize, offset as usize)
            .ok_or(Halt::Stuck)?;
        if !u.alike(v) {
            return Err(Halt::Fault(Fault::Kind));
        }
        self.put_value(here, hops, offset, v)
    }

    // A new last frame, for a let and for a block.
    pub(super) fn open(&mut self, here: Position, slots: u8) -> Result<usize, Halt>
        ensures { Did F.ReadFrames.sound F.ReadFrames.frames here.at self.old self.new result (act (Instruction.Open slots)) }
    {
        self.frames.open(slots as usize)?;
        Ok(here.next())
    }

    pub(super) fn shut(&mut self, here: Position) -> Result<usize, Halt>
        ensures { Did F.ReadFrames.sound F.ReadFrames.frames here.at self.old self.new result (act Instruction.Shut) }
    {
        self.frames.leave()?;
        Ok(here.next())
    }

    // The next position goes into the slot of a routine, and the run goes on after its body.
    pub(super) fn routine(&mut self, here: Position, offset: u8, by: u16) -> Result<usize, Halt>
        ensures { Did F.ReadFrames.sound F.ReadFrames.frames here.at self.old self.new result (act (Instruction.Proc offset by 0)) }
    {
        let body = Slot::Position(here.next() as u16);
        self.frames.put(0, offset as usize, body)?;
        Ok(here.ahead(by))
    }

    pub(super) fn call(
        &mut self,
        here: Position,
        hops: u8,
        offset: u8,
        count: u8,
    ) -> Result<usize, Halt>
        ensures { Did F.ReadFrames.sound F.ReadFrames.frames here.at self.old self.new result (act (Instruction.Do hops offset count)) }
    {
        // in checked code the slot of a routine that is called holds its position
        let Ok(Slot::Position(body)) = self.frames.get(hops as usize, offset as usize) else {
            return Err(Halt::Stuck);
        };
        self.frames.enter(hops as usize, count as usize)?;
        self.enter_at(here, body, count)
    }

    // The new frame stands: its args move in, and the run goes on in the body.
    fn enter_at(&mut self, here: Position, body: u16, count: u8) -> Result<usize, Halt>
        ensures { Did F.ReadFrames.sound F.ReadFrames.frames here.at self.old self.new result (λ p m. called_at body (moved count m.values m.frames) m) }
    {
        // in checked code the args wait
        move_args(&mut self.values, &mut self.frames, count).ok_or(Halt::Stuck)?;
        if self.returns.len() >= MOST_RETURNS {
            return Err(Halt::Stuck); // each return has a frame of its own, and 256 frames stand at most
        }
        self.returns.push(here.next() as u16)?; // there is room for 256
        Ok(body as usize)
    }

    pub(super) fn back(&mut self, here: Position) -> Result<usize, Halt>
        ensures { Did F.ReadFrames.sound F.ReadFrames.frames here.at self.old self.new result (act Instruction.Back) }
    {
        let k = self.returns.pop().ok_or(Halt::Stuck)?; // in checked code a body is reached only by a call
        self.frames.leave()?; // the frame of the call
        Ok(k as usize)
    }
}
