ghost use Rattle.std.specs.Prelude.{◌≡◌};
ghost use Rattle.frames.specs.Frames.{Frames, none, count, total, got, width, opened, entered, left, written};

use lang::refusal::Refusal;
use lang::value::Slot;

// The reading half of a frame memory. A sound memory means a list of frames, oldest first; `sound` is the interface's own
// word, so each clause asks for it.
pub trait ReadFrames {
    ghost sound: { Self → Type 0 };

    ghost frames: { Self → Frames };

    // The slot at a pair of hops outward from the last frame and offset; 28 where there is none.
    fn get(&self, hops: usize, offset: usize) -> Result<Slot, Refusal>
        ensures { sound self.now → result ≡ got (frames self.now) hops offset };

    // How many frames stand.
    fn frame_count(&self) -> usize
        ensures { sound self.now → result ≡ count (frames self.now) };

    // How many slots all frames have together.
    fn slot_count(&self) -> usize
        ensures { sound self.now → result ≡ total (frames self.now) };

    // How many slots the frame some hops out has; 28 where there is no such frame.
    fn slots_out(&self, hops: usize) -> Result<usize, Refusal>
        ensures { sound self.now → result ≡ width (frames self.now) hops };
}

// The building half, which extends the reading half.
pub trait BuildFrames: ReadFrames {
    // No frame stands.
    fn clear(&mut self)
        ensures { Self.ReadFrames.sound self.old → Self.ReadFrames.sound self.new × (Self.ReadFrames.frames self.new ≡ none) };

    // A new last frame of n unset slots whose parent is the last one; 23, 24, 27.
    fn open(&mut self, n: usize) -> Result<(), Refusal>
        ensures { Self.ReadFrames.sound self.old → Self.ReadFrames.sound self.new × (result ≡ (opened (Self.ReadFrames.frames self.old) n).answer) × (Self.ReadFrames.frames self.new ≡ (opened (Self.ReadFrames.frames self.old) n).after) };

    // A new last frame of n unset slots whose parent is some hops from the last one; 28, 23, 24, 27.
    fn enter(&mut self, hops: usize, n: usize) -> Result<(), Refusal>
        ensures { Self.ReadFrames.sound self.old → Self.ReadFrames.sound self.new × (result ≡ (entered (Self.ReadFrames.frames self.old) hops n).answer) × (Self.ReadFrames.frames self.new ≡ (entered (Self.ReadFrames.frames self.old) hops n).after) };

    // Drops the last frame; 28 where there is none.
    fn leave(&mut self) -> Result<(), Refusal>
        ensures { Self.ReadFrames.sound self.old → Self.ReadFrames.sound self.new × (result ≡ (left (Self.ReadFrames.frames self.old)).answer) × (Self.ReadFrames.frames self.new ≡ (left (Self.ReadFrames.frames self.old)).after) };

    // Writes the slot at a pair; 28 where there is none.
    fn put(&mut self, hops: usize, offset: usize, value: Slot) -> Result<(), Refusal>
        ensures { Self.ReadFrames.sound self.old → Self.ReadFrames.sound self.new × (result ≡ (written (Self.ReadFrames.frames self.old) hops offset value).answer) × (Self.ReadFrames.frames self.new ≡ (written (Self.ReadFrames.frames self.old) hops offset value).after) };
}
