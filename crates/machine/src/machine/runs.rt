ghost use Rattle.std.specs.Prelude.{◌≡◌, true, false, length, Some, None, MatchResult};
ghost use Rattle.lang.specs.Refusals.{number};
ghost use Rattle.frames.specs.Frames.{none, ◌▷◌, fresh, got, opened};
ghost use Rattle.meaning.specs.Machine.{act, fetched};
ghost use Rattle.machine.specs.Shows.{seen, seen_at, Ready, Did, acted, Counted, short, idle, start_frames, Begun, value_got};
ghost use Rattle.machine.specs.Runs.{Counted as CountedBy, Steps, Runs};

use crate::machine::{MOST_RETURNS, MOST_VALUES, Machine, Position};
use crate::operators::{
    added, both, either, equal, less, multiplied, negated, opposite, subtracted,
};
use crate::outcome::{Halt, Outcome, Ran, Step};
use frames::memory::{BuildFrames, ReadFrames};
use lang::code::Code;
use lang::fault::Fault;
use lang::instruction::Instruction;
use lang::refusal::Refusal;
use lang::stack::Stack;
use lang::value::{Slot, Value};

// The most steps of a run.
pub const MOST_STEPS: u32 = 1_000_000;

// The values go into the slots of a first frame.
fn put_all<F: BuildFrames + Drop>(frames: &mut F, values: &[Value])
    ensures { F.ReadFrames.sound frames.old → F.ReadFrames.frames frames.old ≡ none ▷ fresh (length values.now) None → F.ReadFrames.sound frames.new × (F.ReadFrames.frames frames.new ≡ start_frames values.now) }
{
    for (offset, v) in values.iter().enumerate() {
        // the frame has a slot for each value
        let _ = frames.put(0, offset, Slot::from(*v));
    }
}

impl<'m, F: BuildFrames + Drop> Machine<'m, F> {
    // A machine in memory for 512 waiting values and 256 return positions; 1 where either is shorter.
    pub fn over(
        values: &'m mut [Value],
        returns: &'m mut [u16],
        frames: F,
    ) -> Result<Machine<'m, F>, Refusal>
        ensures { MatchResult result
            (λ m. (short (length values.old) (length returns.old) ≡ false) × (seen F.ReadFrames.frames m ≡ idle (F.ReadFrames.frames frames)) × (F.ReadFrames.sound frames → Ready F.ReadFrames.sound m))
            (λ e. (short (length values.old) (length returns.old) ≡ true) × (number e ≡ 1)) }
    {
        if values.len() < MOST_VALUES || returns.len() < MOST_RETURNS {
            return Err(Refusal::ShortMemory);
        }
        Ok(Machine {
            values: Stack::over(values),
            returns: Stack::over(returns),
            frames,
            at: 0,
            steps: 0,
        })
    }

    // Starts again: the first position, no steps, no values, and one frame that holds the starting values.
    pub fn begin(&mut self, starting: &[Value]) -> Result<(), Refusal>
        ensures { Ready F.ReadFrames.sound self.old → Ready F.ReadFrames.sound self.new × (result ≡ (opened none (length starting.now)).answer) × Begun result starting.now (seen F.ReadFrames.frames self.new) }
    {
        self.at = 0;
        self.steps = 0;
        self.values.clear();
        self.returns.clear();
        self.frames.clear();
        self.frames.open(starting.len())?;
        put_all(&mut self.frames, starting);
        Ok(())
    }

    // No frame stands any more.
    pub fn clear(&mut self)
        ensures { Ready F.ReadFrames.sound self.old → Ready F.ReadFrames.sound self.new × (F.ReadFrames.frames self.new.frames ≡ none) }
    {
        self.frames.clear();
    }

    // The slot at a pair; 28 where there is none.
    pub fn look(&self, hops: usize, offset: usize) -> Result<Slot, Refusal>
        ensures { Ready F.ReadFrames.sound self.now → result ≡ got (F.ReadFrames.frames self.now.frames) hops offset }
    {
        self.frames.get(hops, offset)
    }

    // The value of an entry, while the first frame is the last one.
    pub fn entry(&self, k: usize) -> Option<Value>
        ensures { Ready F.ReadFrames.sound self.now → result ≡ value_got (got (F.ReadFrames.frames self.now.frames) 0 k) }
    {
        self.value_at(0, k)
    }

    // What one instruction does; the position that it leads to. A match: each case has operands of its own, so a table
    // of closures would be no plainer.
    fn perform(&mut self, here: Position, what: Instruction) -> Result<usize, Halt>
        ensures { Did F.ReadFrames.sound F.ReadFrames.frames here.at self.old self.new result (act what) }
    {
        match what {
            Instruction::Push(v) => self.give(here, v),
            Instruction::Load { hops, offset } => self.load(here, hops, offset),
            Instruction::Minus => self.unary(here, opposite),
            Instruction::Not => self.unary(here, negated),
            Instruction::Add => self.binary(here, added),
            Instruction::Sub => self.binary(here, subtracted),
            Instruction::Mul => self.binary(here, multiplied),
            Instruction::Equal => self.binary(here, equal),
            Instruction::Less => self.binary(here, less),
            Instruction::And => self.binary(here, both),
            Instruction::Or => self.binary(here, either),
            Instruction::Pick { by } | Instruction::Fork { by } | Instruction::Leave { by } => {
                self.pick(here, by)
            }
            Instruction::Skip { by } => Ok(here.ahead(by)),
            Instruction::Again { by } => Ok(here.before(by)),
            Instruction::Open { slots } => self.open(here, slots),
            Instruction::Fill { offset, .. } => self.fill(here, offset),
            Instruction::Shut => self.shut(here),
            Instruction::Fun { offset, by, .. } | Instruction::Proc { offset, by, .. } => {
                self.routine(here, offset, by)
            }
            Instruction::Call {
                hops,
                offset,
                count,
            }
            | Instruction::Do {
                hops,
                offset,
                count,
            } => self.call(here, hops, offset, count),
            Instruction::Back => self.back(here),
            Instruction::Store { hops, offset } => self.store(here, hops, offset),
            Instruction::Let => self.open(here, 1),
        }
    }

    // A step is counted, then checked; with all steps done the next is a fault and not counted.
    fn counted(&mut self, here: Position, what: Instruction) -> Result<usize, Halt>
        ensures { Counted result self.old.steps self.new.steps × (Ready F.ReadFrames.sound self.old → Ready F.ReadFrames.sound self.new × ((p : _) → acted result p (seen F.ReadFrames.frames self.new) ≡ fetched (Some (what, p)) (seen_at here.at F.ReadFrames.frames self.old))) }
    {
        if self.steps >= MOST_STEPS {
            return Err(Halt::Fault(Fault::Steps));
        }
        self.steps += 1;
        self.perform(here, what)
    }

    // One step.
    pub fn step(&mut self, code: &Code) -> Step
        ensures { CountedBy result self.old.steps self.new.steps × Steps F.ReadFrames.sound F.ReadFrames.frames code.now self.old self.new result }
    {
        let at = self.at;
        let Some(what) = code.instruction(at) else {
            return Step::Ended;
        };
        let Some(here) = Position::new(at) else {
            return Step::Stuck; // no rule has so many instructions
        };
        match self.counted(here, what) {
            Ok(next) => {
                self.at = next;
                Step::On
            }
            Err(Halt::Stuck) => Step::Stuck,
            // a match, since with `map_or` the proof did not close: it could not name what the closure answers
            Err(Halt::Fault(fault)) => match code.place(at) {
                Some(place) => Step::Stop { fault, place },
                None => Step::Stuck, // each instruction has a place
            },
        }
    }

    // As many steps as the budget has, or fewer where the run ends before.
    pub fn run(&mut self, code: &Code, budget: u32) -> Ran
        ensures { Runs F.ReadFrames.sound F.ReadFrames.frames code.now budget self.old self.new result }
    {
        let before = self.steps;
        for done in 0..budget {
            let outcome = match self.step(code) {
                Step::On => continue,
                Step::Ended => Outcome::Done,
                Step::Stop { fault, place } => Outcome::Fault { fault, place },
                // a step that cannot be done is none of those that were
                Step::Stuck => {
                    return Ran {
                        outcome: Outcome::Stuck,
                        steps: done,
                    };
                }
            };
            return Ran {
                outcome,
                steps: self.steps - before,
            };
        }
        let outcome = if self.at < code.len() {
            Outcome::Paused
        } else {
            Outcome::Done
        };
        Ran {
            outcome,
            steps: budget,
        }
    }
}
