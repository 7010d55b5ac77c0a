ghost use Rattle.std.specs.Prelude.{◌≡◌, ℕ, ◌+◌, ◌<◌, ◌≤◌, None, length};
ghost use Rattle.frames.specs.Hops.{before, Linked, Same, Within, hop};

// How the parent of each frame is kept, in memory that the host lends.
pub trait Links<'m>: Sized + Drop {
    ghost needed: { ℕ };

    // The link of a frame: 0 where it has no parent, else the parent's number plus one.
    ghost up: { Self → ℕ → ℕ };

    // What else is kept of a frame is right.
    ghost right: { Self → ℕ → Type 0 };

    // How many numbers have to be lent. No constant, which got no clause in an impl with a lifetime.
    fn needed() -> usize
        ensures { result ≡ needed };

    // No frame's link yet, in what is lent.
    fn over(links: &'m mut [u16]) -> Self
        requires { needed ≤ length links.old };

    // The frame that lies hops parents outward from a frame.
    fn walk_out(&self, from: Option<usize>, hops: usize) -> Option<usize>
        ensures { (n : ℕ) → n ≤ 256 → Linked (up self.now) (right self.now) n → Within from n → result ≡ hop (up self.now) hops from };

    // Links the frame numbered at, the last one, to its parent.
    fn link(&mut self, at: usize, parent: Option<usize>)
        requires { at < 256 }
        ensures kept { Same (up self.old) (up self.new) at }
        ensures parent { Linked (up self.old) (right self.old) at → Within parent at → before (up self.new at) ≡ parent }
        ensures linked { Linked (up self.old) (right self.old) at → Within parent at → hop (up self.old) 15 parent ≡ None → Linked (up self.new) (right self.new) (at + 1) };
}

// A link as it lies in lent memory, a number of 16 bits, read as a frame: 0 is none, else the frame's number plus one.
pub(crate) fn decoded(link: u16) -> Option<usize>
    ensures { result ≡ before link }
{
    usize::from(link).checked_sub(1)
}
