use crate::call::{Answer, Answers, Call, answered};
use lang::value::Slot;
use std::alloc::{AllocError, AllocFailed, Global};

#[derive(Drop)]
struct Frame {
    slots: Vec<Slot>,
    parent: Option<usize>,
}

// Why the model turns a call away; 0 is no refusal's number. The model has nothing of the engine's in it, so this is
// no `Refusal`.
#[derive(Clone, Copy, PartialEq, Eq, Debug)]
pub enum Lack {
    Memory = 0,
    Frames = 23,
    Slots = 24,
    Chain = 27,
    Place = 28,
}

impl From<Lack> for u8 {
    fn from(lack: Lack) -> u8 {
        lack as u8
    }
}

impl From<AllocError> for Lack {
    fn from(_e: AllocError) -> Lack {
        Lack::Memory
    }
}

impl<T: Drop> From<AllocFailed<T>> for Lack {
    fn from(_e: AllocFailed<T>) -> Lack {
        Lack::Memory
    }
}

// A plain frame memory on the heap, oldest frame first.
#[derive(Drop)]
pub struct Model {
    heap: Global,
    frames: Vec<Frame>,
}

impl Model {
    pub fn new(heap: Global) -> Model {
        Model {
            heap,
            frames: Vec::new(heap),
        }
    }

    // The number of the last frame.
    fn last(&self) -> Option<usize> {
        self.frames.len().checked_sub(1)
    }

    fn parent(&self, number: usize) -> Option<usize> {
        self.frames.get(number)?.parent
    }

    // The number of the frame that many hops out.
    fn out(&self, hops: usize) -> Option<usize> {
        let mut number = self.last()?;
        for _ in 0..hops {
            number = self.parent(number)?;
        }
        Some(number)
    }

    // How many frames there are from this one outward, counted up to all frames, so that it ends whatever the links are.
    fn depth(&self, number: usize) -> usize {
        let mut outward = Some(number);
        let mut depth = 0usize;
        for _ in 0..self.frames.len() {
            let Some(k) = outward else {
                break;
            };
            depth = depth.saturating_add(1);
            outward = self.parent(k);
        }
        depth
    }

    pub fn get(&self, hops: usize, offset: usize) -> Result<Slot, Lack> {
        let number = self.out(hops).ok_or(Lack::Place)?;
        let frame = self.frames.get(number).ok_or(Lack::Place)?;
        frame.slots.get(offset).copied().ok_or(Lack::Place)
    }

    pub fn frame_count(&self) -> usize {
        self.frames.len()
    }

    pub fn slot_count(&self) -> usize {
        self.frames.iter().fold(
            0usize,
            |count, frame| count.saturating_add(frame.slots.len()),
        )
    }

    pub fn slots_out(&self, hops: usize) -> Result<usize, Lack> {
        let number = self.out(hops).ok_or(Lack::Place)?;
        let frame = self.frames.get(number).ok_or(Lack::Place)?;
        Ok(frame.slots.len())
    }

    pub fn clear(&mut self) {
        self.frames.clear();
    }

    // Whether n more slots in one more frame of this parent are too many.
    fn check(&self, parent: Option<usize>, n: usize) -> Result<(), Lack> {
        if self.frames.len() >= 256 {
            return Err(Lack::Frames);
        }
        if self.slot_count().saturating_add(n) > 2048 {
            return Err(Lack::Slots);
        }
        if parent.is_some_and(|number| self.depth(number) >= 16) {
            return Err(Lack::Chain);
        }
        Ok(())
    }

    // One more frame.
    fn add(&mut self, parent: Option<usize>, n: usize) -> Result<(), Lack> {
        self.check(parent, n)?;
        let heap = self.heap;
        let slots = vec![in heap; Slot::Unset; n]?;
        self.frames.push(Frame { slots, parent })?;
        Ok(())
    }

    pub fn open(&mut self, n: usize) -> Result<(), Lack> {
        let parent = self.last();
        self.add(parent, n)
    }

    pub fn enter(&mut self, hops: usize, n: usize) -> Result<(), Lack> {
        let parent = self.out(hops).ok_or(Lack::Place)?;
        self.add(Some(parent), n)
    }

    pub fn leave(&mut self) -> Result<(), Lack> {
        self.frames.pop().map(|_| ()).ok_or(Lack::Place)
    }

    pub fn put(&mut self, hops: usize, offset: usize, slot: Slot) -> Result<(), Lack> {
        let number = self.out(hops).ok_or(Lack::Place)?;
        let frame = self.frames.get_mut(number).ok_or(Lack::Place)?;
        let place = frame.slots.get_mut(offset).ok_or(Lack::Place)?;
        *place = slot;
        Ok(())
    }
}

// The arms of a frame memory on trial once more: for one impl the model would have to be a frame memory,
// which it is not, so it would be no plainer.
impl Answers for Model {
    fn answer(&mut self, call: Call) -> Answer {
        match call {
            Call::Get(hops, offset) => answered(self.get(hops, offset), Answer::Holds),
            Call::FrameCount => Answer::Count(self.frame_count()),
            Call::SlotCount => Answer::Count(self.slot_count()),
            Call::SlotsOut(hops) => answered(self.slots_out(hops), Answer::Count),
            Call::Clear => {
                self.clear();
                Answer::Done
            }
            Call::Open(n) => answered(self.open(n), |_| Answer::Done),
            Call::Enter(hops, n) => answered(self.enter(hops, n), |_| Answer::Done),
            Call::Leave => answered(self.leave(), |_| Answer::Done),
            Call::Put(hops, offset, slot) => answered(
                self.put(hops, offset, slot),
                |_| Answer::Done,
            ),
        }
    }
}
