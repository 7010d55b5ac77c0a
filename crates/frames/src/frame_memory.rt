ghost use Rattle.std.specs.Prelude.{◌≡◌, true, false, length, MatchResult};
ghost use Rattle.frames.specs.Frames.{none, grown};
ghost use Rattle.frames.specs.Hops.{Within};
ghost use Rattle.frames.specs.Layout.{short};
ghost use Rattle.frames.specs.Slots.{LiesOut};
ghost use Rattle.frames.specs.Memories.{frames_of, part_of, Sound};
ghost use Rattle.lang.specs.Refusals.{number};

use crate::links::Links;
use crate::memory::{BuildFrames, ReadFrames};
use crate::slots::FrameSlots;
use lang::refusal::Refusal;
use lang::value::Slot;

// A frame memory, however it keeps the parent of each frame.
#[derive(Drop)]
pub struct FrameMemory<'m, L: Links<'m>> {
    links: L,
    slots: FrameSlots<'m>,
}

impl<'m, L: Links<'m>> FrameMemory<'m, L> {
    // No frame yet, in what is lent, each part apart; 1 where one is too short.
    pub fn over(
        links: &'m mut [u16],
        starts: &'m mut [u16],
        slots: &'m mut [Slot],
    ) -> Result<FrameMemory<'m, L>, Refusal>
        ensures { MatchResult result
            (λ m. (short L.needed (length links.old) (length starts.old) (length slots.old) ≡ false) × Sound L.up L.right m × (frames_of L.up m ≡ none))
            (λ e. (short L.needed (length links.old) (length starts.old) (length slots.old) ≡ true) × (number e ≡ 1)) }
    {
        if links.len() < L::needed() {
            return Err(Refusal::ShortMemory);
        }
        let slots = FrameSlots::over(starts, slots)?;
        Ok(FrameMemory {
            links: L::over(links),
            slots,
        })
    }

    // The frame that lies hops parents outward from the last.
    fn frame_out(&self, hops: usize) -> Option<usize>
        ensures { Sound L.up L.right self.now → LiesOut (L.up self.now.links) self.now.slots result hops }
    {
        self.links.walk_out(self.slots.newest(), hops)
    }

    // A new last frame of n unset slots with that parent: 23, 24, 27.
    fn grow(&mut self, parent: Option<usize>, n: usize) -> Result<(), Refusal>
        ensures { Sound L.up L.right self.old → Within parent self.old.slots.count → Sound L.up L.right self.new × (result ≡ (grown (frames_of L.up self.old) (part_of L.up self.old parent) n).answer) × (frames_of L.up self.new ≡ (grown (frames_of L.up self.old) (part_of L.up self.old parent) n).after) }
    {
        self.slots.check_room(n)?;
        if self.links.walk_out(parent, 15).is_some() {
            return Err(Refusal::ChainTooDeep);
        }
        self.links.link(self.slots.frame_count(), parent);
        self.slots.push(n);
        Ok(())
    }
}

impl<'m, L: Links<'m>> ReadFrames for FrameMemory<'m, L> {
    ghost sound = { Sound L.up L.right };

    ghost frames = { frames_of L.up };

    fn get(&self, hops: usize, offset: usize) -> Result<Slot, Refusal> {
        self.slots.get(self.frame_out(hops), offset)
    }

    fn frame_count(&self) -> usize {
        self.slots.frame_count()
    }

    fn slot_count(&self) -> usize {
        self.slots.slot_count()
    }

    fn slots_out(&self, hops: usize) -> Result<usize, Refusal> {
        self.slots.width(self.frame_out(hops))
    }
}

impl<'m, L: Links<'m>> BuildFrames for FrameMemory<'m, L> {
    fn clear(&mut self) {
        self.slots.clear();
    }

    fn open(&mut self, n: usize) -> Result<(), Refusal> {
        let last = self.slots.newest();
        self.grow(last, n)
    }

    fn enter(&mut self, hops: usize, n: usize) -> Result<(), Refusal> {
        let parent = self.frame_out(hops).ok_or(Refusal::NoSuchSlot)?;
        self.grow(Some(parent), n)
    }

    fn leave(&mut self) -> Result<(), Refusal> {
        self.slots.leave()
    }

    fn put(&mut self, hops: usize, offset: usize, value: Slot) -> Result<(), Refusal> {
        let frame = self.frame_out(hops);
        self.slots.put(frame, offset, value)
    }
}
