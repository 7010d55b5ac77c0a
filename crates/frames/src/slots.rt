ghost use Rattle.std.specs.Prelude.{◌≡◌, ◌≤◌, true, length};
ghost use Rattle.frames.specs.Layout.{rises};

use lang::refusal::Refusal;
use lang::value::Slot;

// The slots of all frames, one frame after another. All memory is fixed and lent by the host, so it is slices
// with counts beside.
#[derive(Drop)]
pub(crate) struct FrameSlots<'m> {
    starts: &'m mut [u16],
    cells: &'m mut [Slot],
    count: usize,
    used: usize,
    ghost start_room: { 256 ≤ length starts.now },
    ghost cell_room: { 2048 ≤ length cells.now },
    ghost few: { count ≤ 256 },
    ghost small: { used ≤ 2048 },
    ghost rising: { rises starts.now count used ≡ true },
}

impl<'m> FrameSlots<'m> {
    ghost use Rattle.std.specs.Prelude.{ℕ, ◌+◌, ◌<◌, false, IfSome, MatchResult, option_map, slice_index};
    ghost use Rattle.frames.specs.Frames.{Frames, none, ◌▷◌, count as frame_total, total as slot_total, got, width, grown, fresh, left, written, refused};
    ghost use Rattle.frames.specs.Hops.{before, Within, Same};
    ghost use Rattle.frames.specs.Layout.{end_of, short_slots};
    ghost use Rattle.frames.specs.Slots.{frames_in, PlacedIn, LiesOut, Room};
    ghost use Rattle.lang.specs.Refusals.{number};

    // No frame yet, in what is lent.
    pub(crate) fn over(
        starts: &'m mut [u16],
        cells: &'m mut [Slot],
    ) -> Result<FrameSlots<'m>, Refusal>
        ensures { MatchResult result
            (λ s. (short_slots (length starts.old) (length cells.old) ≡ false) × (s.count ≡ 0) × ((up : ℕ → ℕ) → frames_in up s ≡ none))
            (λ e. (short_slots (length starts.old) (length cells.old) ≡ true) × (number e ≡ 1)) }
    {
        if starts.len() < 256 || cells.len() < 2048 {
            return Err(Refusal::ShortMemory);
        }
        Ok(FrameSlots {
            starts,
            cells,
            count: 0,
            used: 0,
        })
    }

    // How many frames stand.
    pub(crate) fn frame_count(&self) -> usize
        ensures is { result ≡ self.now.count }
        ensures all { (up : ℕ → ℕ) → result ≡ frame_total (frames_in up self.now) }
    {
        self.count
    }

    // How many slots they have together.
    pub(crate) fn slot_count(&self) -> usize
        ensures { (up : ℕ → ℕ) → result ≡ slot_total (frames_in up self.now) }
    {
        self.used
    }

    // The number of the last frame.
    pub(crate) fn newest(&self) -> Option<usize>
        ensures is { result ≡ before self.now.count }
        ensures last { (up : ℕ → ℕ) → LiesOut up self.now result 0 }
    {
        self.count.checked_sub(1)
    }

    // Where a frame's slots begin, and where they end.
    fn bounds(&self, frame: Option<usize>) -> Option<(usize, usize)>
        ensures is { Within frame self.now.count → result ≡ option_map (λ k. (slice_index self.now.starts.now k, end_of self.now.starts.now self.now.count self.now.used k)) frame }
        ensures fit { IfSome result (λ b. (b.0 ≤ b.1) × (b.1 ≤ self.now.used)) }
    {
        let k = frame?;
        let starts = &self.starts[..self.count];
        let start = *starts.get(k)?;
        let end = starts.get(k + 1).map_or(self.used, |&next| next as usize);
        Some((start as usize, end))
    }

    // How many slots the frame has; 28 where there is no frame.
    pub(crate) fn width(&self, frame: Option<usize>) -> Result<usize, Refusal>
        ensures { (up : ℕ → ℕ) (h : ℕ) → LiesOut up self.now frame h → result ≡ width (frames_in up self.now) h }
    {
        let (start, end) = self.bounds(frame).ok_or(Refusal::NoSuchSlot)?;
        Ok(end - start)
    }

    // The place of a frame's slot.
    fn place(&self, frame: Option<usize>, offset: usize) -> Option<usize>
        ensures is { (up : ℕ → ℕ) (h : ℕ) → LiesOut up self.now frame h → PlacedIn up self.now h offset result }
        ensures fits { IfSome result (λ p. p < self.now.used) }
    {
        let (start, end) = self.bounds(frame)?;
        // an `if`: a closure for the sum would be no plainer
        if offset < end - start {
            Some(start + offset)
        } else {
            None
        }
    }

    // A frame's slot; 28 where there is none.
    pub(crate) fn get(&self, frame: Option<usize>, offset: usize) -> Result<Slot, Refusal>
        ensures { (up : ℕ → ℕ) (h : ℕ) → LiesOut up self.now frame h → result ≡ got (frames_in up self.now) h offset }
    {
        let place = self.place(frame, offset).ok_or(Refusal::NoSuchSlot)?;
        Ok(self.cells[place])
    }

    // Writes a frame's slot; 28 where there is none.
    pub(crate) fn put(
        &mut self,
        frame: Option<usize>,
        offset: usize,
        value: Slot,
    ) -> Result<(), Refusal>
        ensures { (up : ℕ → ℕ) (h : ℕ) → LiesOut up self.old frame h
            → (self.new.count ≡ self.old.count)
            × (result ≡ (written (frames_in up self.old) h offset value).answer) × (frames_in up self.new ≡ (written (frames_in up self.old) h offset value).after) }
    {
        let place = self.place(frame, offset).ok_or(Refusal::NoSuchSlot)?;
        self.cells[place] = value;
        Ok(())
    }

    // No frame stands.
    pub(crate) fn clear(&mut self)
        ensures count { self.new.count ≡ 0 }
        ensures frames { (up : ℕ → ℕ) → frames_in up self.new ≡ none }
    {
        self.count = 0;
        self.used = 0;
    }

    // Drops the last frame; 28 where there is none.
    pub(crate) fn leave(&mut self) -> Result<(), Refusal>
        ensures count { self.new.count ≤ self.old.count }
        ensures frames { (up : ℕ → ℕ) → (result ≡ (left (frames_in up self.old)).answer) × (frames_in up self.new ≡ (left (frames_in up self.old)).after) }
    {
        let last = self.newest().ok_or(Refusal::NoSuchSlot)?;
        self.used = self.starts[last] as usize;
        self.count = last;
        Ok(())
    }

    // Whether a frame of n slots may be added: 23, 24.
    pub(crate) fn check_room(&self, n: usize) -> Result<(), Refusal>
        ensures { MatchResult result
            (λ _. Room self.now n)
            (λ e. ((up : ℕ → ℕ) (gs : Frames) → refused e (frames_in up self.now) ≡ grown (frames_in up self.now) gs n)) }
    {
        if self.count >= 256 {
            return Err(Refusal::TooManyFrames);
        }
        if n > 2048 - self.used {
            return Err(Refusal::TooManySlots);
        }
        Ok(())
    }

    // Adds a last frame of n unset slots.
    pub(crate) fn push(&mut self, n: usize)
        requires { Room self.old n }
        ensures count { self.new.count ≡ self.old.count + 1 }
        ensures frames { (up up' : ℕ → ℕ) → Same up up' self.old.count → frames_in up' self.new ≡ frames_in up self.old ▷ fresh n (before (up' self.old.count)) }
    {
        let at = self.count;
        let start = self.used;
        self.cells[start..start + n].fill(Slot::Unset);
        self.starts[at] = start as u16;
        self.count = at + 1;
        self.used = start + n;
    }
}
