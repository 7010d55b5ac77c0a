ghost use Rattle.meaning.specs.Machine.{act, pushed, on_one, on_two, branched};
ghost use Rattle.machine.specs.Shows.{Did, Took, ComputesOne, ComputesTwo};

use crate::machine::{MOST_VALUES, Machine, Position};
use crate::outcome::Halt;
use frames::memory::{BuildFrames, ReadFrames};
use lang::fault::Fault;
use lang::instruction::Instruction;
use lang::stack::Stack;
use lang::value::Value;

// The two newest values, the older first.
fn take_two(values: &mut Stack<Value>) -> Option<(Value, Value)>
    ensures { Took result values.old values.new }
{
    let q = values.pop()?;
    let p = values.pop()?;
    Some((p, q))
}

// The instructions that work on the waiting values alone. In checked code the operands wait.
// Each answers the position of the next instruction.
impl<'m, F: BuildFrames + Drop> Machine<'m, F> {
    // One more value waits.
    pub(super) fn give(&mut self, here: Position, v: Value) -> Result<usize, Halt>
        ensures { Did F.ReadFrames.sound F.ReadFrames.frames here.at self.old self.new result (pushed v) }
    {
        if self.values.len() >= MOST_VALUES {
            return Err(Halt::Fault(Fault::Values));
        }
        self.values.push(v)?; // there is room for 512
        Ok(here.next())
    }

    // A result in the place of its operand.
    pub(super) fn unary<O: FnOnce(Value) -> Result<Value, Fault>>(
        &mut self,
        here: Position,
        operate: O,
    ) -> Result<usize, Halt>
        requires { O.IsAlwaysCallable operate }
        ensures { (f : _) → ComputesOne (O.post operate) f → Did F.ReadFrames.sound F.ReadFrames.frames here.at self.old self.new result (λ p m. on_one f m.values p m) }
    {
        let v = self.values.pop().ok_or(Halt::Stuck)?;
        self.values.push(operate(v)?)?; // the operand has left room
        Ok(here.next())
    }

    // A result in the place of its two operands.
    pub(super) fn binary<O: FnOnce(Value, Value) -> Result<Value, Fault>>(
        &mut self,
        here: Position,
        operate: O,
    ) -> Result<usize, Halt>
        requires { O.IsAlwaysCallable operate }
        ensures { (f : _) → ComputesTwo (O.post operate) f → Did F.ReadFrames.sound F.ReadFrames.frames here.at self.old self.new result (λ p m. on_two f m.values p m) }
    {
        let (u, v) = take_two(&mut self.values).ok_or(Halt::Stuck)?;
        self.values.push(operate(u, v)?)?; // the operands have left room
        Ok(here.next())
    }

    // Goes on by a distance if the newest value is false.
    pub(super) fn pick(&mut self, here: Position, by: u16) -> Result<usize, Halt>
        ensures { Did F.ReadFrames.sound F.ReadFrames.frames here.at self.old self.new result (λ p m. branched by m.values p m) }
    {
        match self.values.pop().ok_or(Halt::Stuck)? {
            Value::Number(_) => Err(Halt::Fault(Fault::Kind)),
            Value::Truth(true) => Ok(here.next()),
            Value::Truth(false) => Ok(here.ahead(by)),
        }
    }
}
