ghost use Rattle.std.specs.Prelude.{◌≡◌, ℕ, ◌+◌, ◌*◌, ◌<◌, ◌≤◌, length, slice_index};
ghost use Rattle.frames.specs.Hops.{Within};
ghost use Rattle.frames.specs.Displays.{link_of, level, second, above, IsRow};

use crate::frame_memory::FrameMemory;
use crate::links::{Links, decoded};

// Sixteen levels for each frame.
const LEVELS: usize = 256 * 16;

// A display: for each frame the numbers of all frames outward.
pub type Display<'m> = FrameMemory<'m, Levels<'m>>;

// The levels of a display. All memory is fixed and lent by the host, so they are a slice.
#[derive(Drop)]
pub struct Levels<'m> {
    levels: &'m mut [u16],
    ghost room: { 4096 ≤ length levels.now },
}

impl<'m> Levels<'m> {
    // Writes the levels of the frame numbered at, but for its own number: those of its parent, but for the last.
    fn copy_row(&mut self, at: usize, parent: Option<usize>)
        requires { at < 256 }
        ensures row { Within parent at → (h : ℕ) → h < 15 → level self.new.levels.now at (h + 1) ≡ above self.old.levels.now (link_of parent) h }
        ensures kept { (i : ℕ) → i ≤ at * 16 → slice_index self.new.levels.now i ≡ slice_index self.old.levels.now i }
    {
        let row = at * 16;
        match parent {
            Some(p) if p < at => self.levels.copy_within(p * 16..p * 16 + 15, row + 1),
            // no parent: a parent is always an earlier frame
            _ => self.levels[row + 1..row + 16].fill(0),
        }
    }

    // The level that lies hops outward from a frame: one read. None lies 16 hops out or farther, and frames are
    // numbered below 256.
    fn level_above(&self, from: Option<usize>, hops: usize) -> u16
        ensures near { Within from 256 → hops < 16 → result ≡ above self.now.levels.now (link_of from) hops }
        ensures far { 16 ≤ hops → result ≡ 0 }
    {
        match from {
            Some(k) if k < 256 && hops < 16 => self.levels[k * 16 + hops],
            _ => 0,
        }
    }
}

impl<'m> Links<'m> for Levels<'m> {
    ghost needed = { 4096 };

    ghost up = { λ l. second l.levels.now };

    ghost right = { λ l. IsRow l.levels.now };

    fn needed() -> usize
        ensures { result ≡ 4096 }
    {
        LEVELS
    }

    fn over(levels: &'m mut [u16]) -> Levels<'m> {
        Levels { levels }
    }

    fn walk_out(&self, from: Option<usize>, hops: usize) -> Option<usize> {
        decoded(self.level_above(from, hops))
    }

    fn link(&mut self, at: usize, parent: Option<usize>) {
        self.copy_row(at, parent);
        self.levels[at * 16] = (at + 1) as u16;
    }
}
