ghost use Rattle.std.specs.Prelude.{◌≡◌, length};
ghost use Rattle.frames.specs.Frames.{got};
ghost use Rattle.frames.specs.Passages.{passed, passed_over};

use crate::frame_memory::FrameMemory;
use crate::links::Links;
use crate::memory::{BuildFrames, ReadFrames};
use lang::refusal::Refusal;
use lang::value::Slot;

// From no frame on: opens a frame of n slots, writes a value into one of them, enters a frame inside it,
// reads the value from there and leaves the inner frame.
pub fn passage<F: BuildFrames>(
    f: &mut F,
    n: usize,
    offset: usize,
    value: Slot,
) -> Result<Slot, Refusal>
    ensures { F.ReadFrames.sound f.old → F.ReadFrames.sound f.new × (result ≡ (passed n offset value).answer) × (F.ReadFrames.frames f.new ≡ (passed n offset value).after) }
{
    f.clear();
    f.open(n)?;
    f.put(0, offset, value)?;
    f.enter(0, 0)?;
    let read = f.get(1, offset)?;
    f.leave()?;
    Ok(read)
}

// A passage through a frame memory in what is lent, each part apart.
pub fn passage_over<'m, L: Links<'m>>(
    links: &'m mut [u16],
    starts: &'m mut [u16],
    slots: &'m mut [Slot],
    n: usize,
    offset: usize,
    value: Slot,
) -> Result<Slot, Refusal>
    ensures { result ≡ passed_over L.needed (length links.old) (length starts.old) (length slots.old) n offset value }
{
    let mut memory = FrameMemory::<L>::over(links, starts, slots)?;
    passage(&mut memory, n, offset, value)
}

// A slot by its pair, through the reading half alone.
pub fn look<F: ReadFrames>(f: &F, hops: usize, offset: usize) -> Result<Slot, Refusal>
    ensures { F.ReadFrames.sound f.now → result ≡ got (F.ReadFrames.frames f.now) hops offset }
{
    f.get(hops, offset)
}
