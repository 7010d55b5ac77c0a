use lang::fault::Fault;
use lang::refusal::Refusal;
use lang::stack::Full;
use std::fmt;

// Why a run does not go on after an instruction: it ends in a fault, or cannot be done. No instruction of checked
// code is `Stuck`.
#[derive(Clone, Copy, PartialEq, Eq, Debug)]
pub enum Halt {
    Fault(Fault),
    Stuck,
}

// How one step ends: on, at the code's end, or by a fault at the place of its instruction.
// No step of checked code is `Stuck`. Four ways: as a `Result` of a `Result` it would be no plainer.
#[derive(Clone, Copy, PartialEq, Eq, Debug)]
pub enum Step {
    On,
    Ended,
    Stop { fault: Fault, place: u16 },
    Stuck,
}

// How a run with a budget ends. No run of checked code is `Stuck`. Four ways, as `Step`.
#[derive(Clone, Copy, PartialEq, Eq, Debug)]
pub enum Outcome {
    Paused,
    Done,
    Fault { fault: Fault, place: u16 },
    Stuck,
}

// The outcome of a run with the steps that it did.
#[derive(Clone, Copy, PartialEq, Eq, Debug)]
pub struct Ran {
    pub outcome: Outcome,
    pub steps: u32,
}

// How the run ended, and its steps last.
impl fmt::Display for Ran {
    fn fmt<W: fmt::Write>(&self, f: &mut fmt::Formatter<W>) -> fmt::Result {
        match self.outcome {
            Outcome::Done => write!(f, "done {}", self.steps),
            Outcome::Fault { fault, place } => write!(f, "fault {fault} {place} {}", self.steps),
            // neither happens to a checked rule that has all its steps
            Outcome::Paused => write!(f, "paused {}", self.steps),
            Outcome::Stuck => write!(f, "stuck {}", self.steps),
        }
    }
}

impl From<Fault> for Halt {
    ghost use Rattle.std.specs.Prelude.{◌≡◌};
    ghost use Rattle.machine.specs.declared.outcome.Halt.TheVariants as halts;

    ghost from_gives = { λ fault halt. halt ≡ halts.Fault fault };

    fn from(fault: Fault) -> Halt {
        Halt::Fault(fault)
    }
}

// A frame memory's refusal: two are faults. Checked code names slots that stand, and its frames nest at most 16 deep.
impl From<Refusal> for Halt {
    ghost use Rattle.std.specs.Prelude.{◌≡◌};
    ghost use Rattle.meaning.specs.Machine.{fault_of, refused_by};
    ghost use Rattle.machine.specs.Shows.{halted};

    ghost from_gives = { λ why halt. (p : _) (m : _) → halted halt p m ≡ refused_by (fault_of why) p m };

    fn from(why: Refusal) -> Halt {
        match why {
            Refusal::TooManyFrames => Halt::Fault(Fault::Frames),
            Refusal::TooManySlots => Halt::Fault(Fault::Slots),
            _ => Halt::Stuck,
        }
    }
}

impl From<Full> for Halt {
    ghost use Rattle.std.specs.Prelude.{◌≡◌};
    ghost use Rattle.machine.specs.declared.outcome.Halt.TheVariants as halts;

    ghost from_gives = { λ _ halt. halt ≡ halts.Stuck };

    fn from(_full: Full) -> Halt {
        Halt::Stuck // a stack has room for all that checked code keeps in it
    }
}
