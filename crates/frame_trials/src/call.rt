use frames::memory::{BuildFrames, ReadFrames};
use lang::value::Slot;

// A call of a frame memory with its arguments.
#[derive(Clone, Copy, PartialEq, Eq, Debug)]
pub enum Call {
    Get(usize, usize),
    FrameCount,
    SlotCount,
    SlotsOut(usize),
    Clear,
    Open(usize),
    Enter(usize, usize),
    Leave,
    Put(usize, usize, Slot),
}

// What a call answers.
#[derive(Clone, Copy, PartialEq, Eq, Debug)]
pub enum Answer {
    Done,
    Holds(Slot),
    Count(usize),
    Refused(u8),
}

// Whatever answers the calls of a frame memory.
pub trait Answers {
    fn answer(&mut self, call: Call) -> Answer;
}

// The answer of a call that may be refused.
pub(crate) fn answered<T: Drop, E: Into<u8> + Drop, F: FnOnce(T) -> Answer + Drop>(
    res: Result<T, E>,
    holds: F,
) -> Answer
    requires { F.IsAlwaysCallable holds }
{
    res.map_or_else(|why| Answer::Refused(why.into()), holds)
}

// A frame memory on trial.
#[derive(Drop)]
pub struct Tried<F>(pub F);

impl<F: BuildFrames + Drop> Answers for Tried<F> {
    fn answer(&mut self, call: Call) -> Answer {
        match call {
            Call::Get(hops, offset) => answered(self.0.get(hops, offset), Answer::Holds),
            Call::FrameCount => Answer::Count(self.0.frame_count()),
            Call::SlotCount => Answer::Count(self.0.slot_count()),
            Call::SlotsOut(hops) => answered(self.0.slots_out(hops), Answer::Count),
            Call::Clear => {
                self.0.clear();
                Answer::Done
            }
            Call::Open(n) => answered(self.0.open(n), |_| Answer::Done),
            Call::Enter(hops, n) => answered(self.0.enter(hops, n), |_| Answer::Done),
            Call::Leave => answered(self.0.leave(), |_| Answer::Done),
            Call::Put(hops, offset, slot) => answered(
                self.0.put(hops, offset, slot),
                |_| Answer::Done,
            ),
        }
    }
}
