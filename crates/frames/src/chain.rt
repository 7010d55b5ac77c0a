ghost use Rattle.std.specs.Prelude.{◌≡◌, ◌<◌, ◌≤◌, ⊤, length};
ghost use Rattle.frames.specs.Hops.{before, Within};
ghost use Rattle.frames.specs.Chains.{single};

use crate::frame_memory::FrameMemory;
use crate::links::{Links, decoded};

// One parent for each frame.
const PARENTS: usize = 256;

// A static chain: the parent of each frame.
pub type Chain<'m> = FrameMemory<'m, Parents<'m>>;

// The parents of a static chain. All memory is fixed and lent by the host, so they are a slice.
#[derive(Drop)]
pub struct Parents<'m> {
    parents: &'m mut [u16],
    ghost room: { 256 ≤ length parents.now },
}

// The link to the parent of the frame numbered at. A match, since in a closure the cast would lack the guard's fact.
fn encoded(parent: Option<usize>, at: usize) -> u16
    requires { at < 256 }
    ensures is { Within parent at → before result ≡ parent }
    ensures under { result ≤ at }
{
    match parent {
        Some(p) if p < at => (p + 1) as u16,
        // no parent: a parent is always an earlier frame
        _ => 0,
    }
}

impl<'m> Links<'m> for Parents<'m> {
    ghost needed = { 256 };

    ghost up = { λ p. single p.parents.now };

    // Nothing else is kept.
    ghost right = { λ _ _. ⊤ };

    fn needed() -> usize
        ensures { result ≡ 256 }
    {
        PARENTS
    }

    fn over(parents: &'m mut [u16]) -> Parents<'m> {
        Parents { parents }
    }

    fn walk_out(&self, from: Option<usize>, hops: usize) -> Option<usize> {
        let mut at = from;
        for _ in 0..hops {
            at = decoded(*self.parents.get(at?)?);
        }
        at
    }

    fn link(&mut self, at: usize, parent: Option<usize>) {
        self.parents[at] = encoded(parent, at);
    }
}
